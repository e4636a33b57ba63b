//! Theorems about decimal texts, for every text and number. Each contract is a theorem; a call does nothing.
ghost use Rattle.std.specs.Prelude.{◌≡◌, ◌↔◌, ℕ, [], ◌++◌, ◌-◌, ◌*◌, ◌%◌, ◌^◌, ◌<◌, ◌≤◌, List, length, drop, ℤ, pos, negsuc, unsigned_abs, IsTrue, Ok, Err};
ghost use Rattle.std.specs.Fmt.{decimal};
ghost use Rattle.std.specs.Str.Parse.{digits_value};
ghost use Rattle.pit_units.specs.declared.fault.DecFault.TheVariants as DecFault;
ghost use Rattle.pit_units.specs.Decimal.{all_zeros, decimal_of, decimal_within, shortest, size_text};
ghost use Rattle.pit_units.specs.DecimalRange.{IsInDecimalRange};
ghost use Rattle.pit_units.specs.Prefix.{digits_ahead, past_point, IsUsual};
ghost use Rattle.pit_units.specs.EncodedNumbers.{EncodesNumber, IsDecimal, IsFine};
ghost use Rattle.pit_units.specs.StandsFor.{IsDecimalText, StandsFor};
ghost use Rattle.pit_units.specs.Shortest.{IsPlain, IsShortest, longest};

/// Guarantees that the text of a number is read as the same number.
#[tactic(auto, using(crate::proofs::Written::shortest_read))]
pub fn written_is_read()
    ensures { (z : ℤ) → IsInDecimalRange z → decimal_of 6 (shortest z) ≡ Ok z }
{}

/// Guarantees that a number with at most `max` decimals is read back if `max` decimals are allowed.
#[tactic(auto, using(crate::proofs::Written::shortest_read))]
pub fn coarse_is_read()
    ensures { (max : ℕ) (z : ℤ) → max ≤ 6 → IsInDecimalRange z
        → unsigned_abs z % 10 ^ (6 - max) ≡ 0 → decimal_of max (shortest z) ≡ Ok z }
{}

/// Guarantees that an integer is written as its digits only, and is read from them.
#[tactic(auto, using(crate::proofs::Written::whole_written, crate::proofs::Written::whole_read))]
pub fn whole_is_digits()
    ensures written { (k : ℕ) → shortest (pos (k * 10 ^ 6)) ≡ decimal k }
    ensures read { (k : ℕ) → k ≤ 10 ^ 18 → decimal_of 0 (decimal k) ≡ Ok (pos (k * 10 ^ 6)) }
{}

/// Guarantees that the text of a number has no needless bytes, and is the only such text of the number.
pub fn written_is_shortest()
    ensures shortest_text { (z : ℤ) → IsInDecimalRange z → IsShortest z (shortest z) }
    ensures only { (z : ℤ) (text : List ℕ) → StandsFor 6 text z → IsShortest z text
        → text ≡ shortest z }
{}

/// Guarantees that the text of a number has only digits, a minus and a point: at most 26 bytes, which is the length for the smallest
/// number with six decimals.
#[tactic(auto, using(crate::proofs::Written::shortest_plain, crate::proofs::Written::longest_written))]
pub fn written_is_plain()
    ensures plain { (z : ℤ) → IsInDecimalRange z → IsPlain (shortest z) }
    ensures long { length (shortest (negsuc (10 ^ 24 - 2))) ≡ longest }
{}

/// Guarantees that the text of a number that is not negative and has fewer than 10^12 units begins in the usual form, if the text after
/// it begins with neither a digit nor a point.
#[tactic(auto, using(crate::proofs::UsualTexts::written_usual))]
pub fn written_is_usual()
    ensures { (n : ℕ) (rest : List ℕ) → n < 10 ^ 18 → digits_ahead rest ≡ 0
        → past_point rest ≡ [] → IsUsual 6 (size_text n ++ rest) }
{}

/// Guarantees that a text is read as the number that it denotes, and as no other.
pub fn read_is_meant()
    ensures { (max : ℕ) (text : List ℕ) (m : ℤ) → max ≤ 6
        → ((decimal_of max text ≡ Ok m) ↔ StandsFor max text m) }
{}

/// Guarantees that a text is rejected as no number exactly if it does not encode one.
#[tactic(auto, using(crate::proofs::Standing::number_encoded, crate::proofs::Standing::encoded_number))]
pub fn number_is_encoded()
    ensures { (max : ℕ) (text : List ℕ) → ((decimal_of max text ≡ Err DecFault.Number)
        ↔ ((sign whole tail fraction : List ℕ) → ¬ (IsDecimalText text sign whole tail fraction))) }
{}

/// Guarantees that a text that encodes a number is rejected as too fine exactly if a digit after its first `max` decimals is not zero.
/// Otherwise it is rejected as out of range exactly if its number is out of range.
#[tactic(auto, using(crate::proofs::Standing::encoded_too_fine, crate::proofs::Standing::encoded_range))]
pub fn encoded_faults()
    ensures too_fine { (max : ℕ) (text sign whole tail fraction : List ℕ)
        → IsDecimalText text sign whole tail fraction
        → ((decimal_of max text ≡ Err DecFault.TooFine)
        ↔ ¬ (IsTrue (all_zeros (drop max fraction)))) }
    ensures range { (max : ℕ) (text sign whole tail fraction : List ℕ) → max ≤ 6
        → IsDecimalText text sign whole tail fraction
        → IsTrue (all_zeros (drop max fraction))
        → ((decimal_of max text ≡ Err DecFault.Range)
        ↔ (10 ^ 24 * 10 ^ length fraction < digits_value 10 (whole ++ fraction) * 10 ^ 6)) }
{}

/// Guarantees that a text is read as a number in a range exactly if it encodes that number.
pub fn numbers_are_encoded()
    ensures { (max : ℕ) (low high : ℤ) (text : List ℕ) (m : ℤ) → max ≤ 6
        → (decimal_within max low high text ≡ Ok m) ↔ EncodesNumber max low high text m }
{}

/// Guarantees that the error of a number in a range is the first condition that its text violates: it must be a decimal, it must have no
/// more decimals than allowed, and its number must be in the range.
#[tactic(auto, using(crate::proofs::DecimalFaults::number_fails, crate::proofs::DecimalFaults::too_fine_fails, crate::proofs::DecimalFaults::range_fails))]
pub fn numbers_fail_first()
    ensures number { (max : ℕ) (low high : ℤ) (text : List ℕ) → max ≤ 6
        → (decimal_within max low high text ≡ Err DecFault.Number) ↔ ¬ (IsDecimal text) }
    ensures too_fine { (max : ℕ) (low high : ℤ) (text : List ℕ) → max ≤ 6
        → (decimal_within max low high text ≡ Err DecFault.TooFine)
        ↔ (IsDecimal text × ¬ (IsFine max text)) }
    ensures range { (max : ℕ) (low high : ℤ) (text : List ℕ) → max ≤ 6
        → (decimal_within max low high text ≡ Err DecFault.Range)
        ↔ (IsFine max text × ((m : ℤ) → ¬ (EncodesNumber max low high text m))) }
{}
