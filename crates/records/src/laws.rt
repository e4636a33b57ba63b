//! A theorem about every reader of records. The function does nothing.

ghost use Rattle.std.specs.Prelude.{◌≡◌, ℕ, Bool, false, List, Result, Ok, Err, IsErr};
ghost use Rattle.std.specs.declared.alloc.AllocError.{AllocError};
ghost use Rattle.records.specs.RecordReader.{RecordReaderView, TakesRow};

/// A reader that returned the end of its text, or refused memory, returns the same at the next call.
#[tactic(auto, using(crate::proofs::ReadAgain::ended_again, crate::proofs::ReadAgain::refused_again))]
pub fn record_readers_answer_again()
    ensures ended { (old then after : RecordReaderView) (fields more : List (List ℕ))
        (again : Result Bool AllocError)
        → TakesRow {E = AllocError} old (Ok false) fields then → TakesRow then again more after
        → again ≡ Ok false }
    ensures refused { (old then after : RecordReaderView) (fields more : List (List ℕ))
        (refusal : AllocError) (again : Result Bool AllocError)
        → TakesRow old (Err refusal) fields then → TakesRow then again more after
        → IsErr again }
{}
