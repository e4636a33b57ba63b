//! Theorems about how an input is cut. Each function does nothing; its contract states a theorem.
ghost use Rattle.std.specs.Prelude.{◌≡◌, [], ◌∷◌, ◌++◌, length, codes, All};
ghost use Rattle.command_io.specs.Pieces.{cuts_of, pieces_of, plan_piece, zone_pieces, woven, IsEnded};

/// An input is its plan, and then each cut with the zone file after it.
#[tactic(auto, using(crate::proofs::Walk::pieces_first, crate::proofs::Joined::zone_for_each_cut, crate::proofs::Joined::pieces_woven))]
pub fn pieces_join_to_the_input(input: &[u8])
    ensures first { pieces_of input.now ≡ plan_piece input.now ∷ zone_pieces input.now }
    ensures counted { length (zone_pieces input.now) ≡ length (cuts_of input.now) }
    ensures whole { woven (pieces_of input.now) (cuts_of input.now) ≡ input.now }
{}

/// No part has a line that cuts.
#[tactic(auto, using(crate::proofs::Uncut::pieces_uncut))]
pub fn pieces_have_no_cut(input: &[u8])
    ensures { All (λ piece. cuts_of piece ≡ []) (pieces_of input.now) }
{}

/// A text without a line that cuts is its only part.
#[tactic(auto, using(crate::proofs::Again::uncut_whole))]
pub fn uncut_text_is_the_plan(text: &[u8])
    requires { cuts_of text.now ≡ [] }
    ensures { pieces_of text.now ≡ text.now ∷ [] }
{}

/// If a text has no line that cuts, is empty or ends in LF, and precedes a cut, it is the first part; the bytes after the cut have
/// the other parts. So texts that are joined by cuts are returned as the parts.
pub fn joined_text_comes_back(text: &[u8], rest: &[u8])
    requires uncut { cuts_of text.now ≡ [] }
    requires ended { IsEnded text.now }
    ensures by_lf { pieces_of (text.now ++ (codes "--" ++ 10 ∷ rest.now))
        ≡ text.now ∷ pieces_of rest.now }
    ensures by_cr_lf { pieces_of (text.now ++ (codes "--" ++ 13 ∷ 10 ∷ rest.now))
        ≡ text.now ∷ pieces_of rest.now }
    ensures at_the_end { pieces_of (text.now ++ codes "--") ≡ text.now ∷ [] ∷ [] }
{}
