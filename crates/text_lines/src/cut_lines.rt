//! Cuts a text into lines.

ghost use Rattle.std.specs.Prelude.{◌≡◌, ◌<◌, ◌≤◌, ◌==◌, ◌∷◌, length};
ghost use Rattle.std.specs.List.{position_or_len};
ghost use Rattle.std.specs.Str.Lines.{strip_carriage_return};
ghost use Rattle.text_lines.specs.TextLines.{is_skipped, lines_of, without_mark};

use memchr::memchr;
use pit_units::after;
use records::cells::without_leading_blanks;

/// Returns the text without one byte order mark at its start.
pub fn without_mark(text: &[u8]) -> &[u8]
    ensures { result.now ≡ without_mark text.now }
{
    match text {
        [0xEF, 0xBB, 0xBF, rest @ ..] => rest,
        _ => text,
    }
}

/// Returns the first line of a text, without its LF, and the text after it.
#[tactic(auto, using(crate::proofs::Cuts::line_cut))]
pub fn cut_line(text: &[u8]) -> (&[u8], &[u8])
    requires { 0 < length text.now }
    ensures cut { lines_of text.now ≡ result.0.now ∷ lines_of result.1.now }
    ensures less { length result.1.now < length text.now }
{
    let end = line_end(text);
    (&text[..end], after(text, end + 1))
}

#[tactic(auto, using(crate::proofs::Cuts::byte_found, crate::proofs::Cuts::place_within))]
fn line_end(text: &[u8]) -> usize
    ensures value { result ≡ position_or_len (λ b. b == 10) text.now }
    ensures within { result ≤ length text.now }
{
    memchr(b'\n', text).unwrap_or(text.len())
}

/// Returns the line without one CR at its end.
pub fn strip_carriage_return(line: &[u8]) -> &[u8]
    ensures { result.now ≡ strip_carriage_return line.now }
{
    match line {
        [prefix @ .., b'\r'] => prefix,
        _ => line,
    }
}

/// Returns whether a line is skipped: it has only blanks, or blanks followed by `%`.
pub fn is_skipped(line: &[u8]) -> bool
    ensures { result ≡ is_skipped line.now }
{
    match without_leading_blanks(line).first() {
        Some(byte) => *byte == b'%',
        None => true,
    }
}
