//! The cutting of the pipe form's input into a plan and zone files, at the lines `--`.
ghost use Rattle.std.specs.Prelude.{◌≡◌, ◌<◌, ◌≤◌, ◌==◌, [], ◌∷◌, length, take, drop, position, Ok, None, IfOk, IfSome, MatchOption};
ghost use Rattle.command_io.specs.Pieces.{ended_lines, is_cut, pieces_of, plan_piece, zone_pieces};

use memchr::memchr;
use plan_parts::listed::Listed;
use std::alloc::{AllocError, Global};
use std::marker::Model;

/// The bytes of one text of the pipe form's input, such as a zone file.
pub type Piece = Listed<u8>;

/// The parts of an input: the plan, and the zone files in order.
#[derive(Drop)]
pub struct Pieces {
    plan: Piece,
    zones: Vec<Piece>,
}

/// Contracts see the bytes of the plan and of each zone file.
impl Model for Pieces {
    ghost use Rattle.command_io.specs.Pieces.{PiecesView};

    ghost Value = { PiecesView };

    ghost view = { λ pieces. record { plan = pieces.plan; zones = pieces.zones.items } };
}

impl Pieces {
    /// Returns the first part, which always exists. Allocates no memory.
    pub fn plan(&self) -> &[u8]
        ensures { result.now ≡ self.now.plan }
    {
        self.plan.as_slice()
    }

    /// Returns the other parts; there are none if nothing was cut. Allocates no memory.
    pub fn zones(&self) -> &[Piece]
        ensures { result.now ≡ self.now.zones }
    {
        self.zones.as_slice()
    }
}

/// Cuts an input at each line that is `--`, ended by LF, by CR LF, or by the end of the input. The plan is before the first such
/// line; a zone file follows each of them. Fails only if memory is refused.
pub fn cut(alloc: Global, input: &[u8]) -> Result<Pieces, AllocError>
    ensures plan { IfOk result (λ pieces. pieces.plan ≡ plan_piece input.now) }
    ensures zones { IfOk result (λ pieces. pieces.zones ≡ zone_pieces input.now) }
{
    match cut_at_most(alloc, input, input.len())? {
        Some(pieces) => Ok(pieces),
        None => unreachable!(),
    }
}

/// Cuts an input like `cut` if that makes at most `most` zone files. Else returns `None`, so never more than `most` are stored.
/// Fails only if memory is refused.
pub fn cut_at_most(alloc: Global, input: &[u8], most: usize) -> Result<Option<Pieces>, AllocError>
    ensures plan { IfOk result (λ found. IfSome found (λ pieces. pieces.plan ≡ plan_piece input.now)) }
    ensures zones { IfOk result (λ found. IfSome found
        (λ pieces. pieces.zones ≡ zone_pieces input.now)) }
    ensures few { IfOk result (λ found. IfSome found (λ pieces. length pieces.zones ≤ most)) }
    ensures more { result ≡ Ok None → most < length (zone_pieces input.now) }
    ensures bytes { result ≡ Ok None → most < length input.now }
{
    let (plan, mut following) = first_piece(input);
    let plan = copied(alloc, plan)?;
    let mut zones = Vec::new(alloc);
    while let Some(rest) = following {
        if zones.len() == most {
            return Ok(None);
        }
        let (zone, next) = first_piece(rest);
        zones.push(copied(alloc, zone)?)?;
        following = next;
    }
    Ok(Some(Pieces { plan, zones }))
}

/// Returns the plan of an input as a slice of the input. `cut` copies it.
pub fn plan_piece(input: &[u8]) -> &[u8]
    ensures { result.now ≡ plan_piece input.now }
{
    first_piece(input).0
}

// Copies these bytes to a part.
fn copied(alloc: Global, bytes: &[u8]) -> Result<Piece, AllocError>
    ensures { IfOk result (λ piece. piece ≡ bytes.now) }
{
    Ok(Piece::new(Vec::from_slice(alloc, bytes)?))
}

// Returns the first part of a text, and the bytes after the cut that ends it, if there is one.
fn first_piece(text: &[u8]) -> (&[u8], Option<&[u8]>)
    ensures first { result.0.now ≡ plan_piece text.now }
    ensures further { MatchOption result.1 (zone_pieces text.now ≡ [])
        (λ rest. zone_pieces text.now ≡ pieces_of rest.now) }
    ensures shorter { IfSome result.1 (λ rest. length rest.now < length text.now) }
{
    let mut at = 0;
    while at < text.len() {
        let end = at + first_line_len(&text[at..]);
        if is_cut_line(&text[at..end]) {
            return (&text[..at], Some(&text[end..]));
        }
        at = end;
    }
    (text, None)
}

// Returns the length of the first line, with its LF.
#[tactic(auto, using(crate::proofs::Lines::line_to_feed, crate::proofs::Lines::line_to_end))]
fn first_line_len(text: &[u8]) -> usize
    requires { 0 < length text.now }
    ensures line { ended_lines text.now ≡ take result text.now ∷ ended_lines (drop result text.now) }
    ensures some { 0 < result }
    ensures within { result ≤ length text.now }
{
    match line_feed_place(text) {
        Some(place) => place + 1,
        None => text.len(),
    }
}

// Returns the place of the first LF.
fn line_feed_place(text: &[u8]) -> Option<usize>
    ensures { result ≡ position (λ b. b == 10) text.now }
{
    memchr(b'\n', text)
}

// Returns whether a line, with its LF, cuts the input.
fn is_cut_line(line: &[u8]) -> bool
    ensures { result ≡ is_cut line.now }
{
    matches!(line, b"--\n" | b"--\r\n" | b"--")
}
