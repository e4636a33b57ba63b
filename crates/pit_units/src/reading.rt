//! Reads the decimal that a text denotes.

ghost use Rattle.std.specs.Prelude.{◌≡◌, ◌+◌, ◌*◌, ◌^◌, ◌≤◌, ◌<◌, ◌==◌, min, drop, slice_index_or, length, not, ◌&&◌, IsTrue, nat_lt, if◌then◌else◌, IfOk, IfSome, IsSome, Ok, Err, [], ℤ, ◌≤ℤ◌};
ghost use Rattle.std.specs.List.{All, position_or_len};
ghost use Rattle.std.specs.Str.Parse.{digits_value, without_leading_sign};
ghost use Rattle.pit_units.specs.Decimal.{all_digits, all_zeros, decimal_of, decimal_within, signed, six_decimals};
ghost use Rattle.pit_units.specs.Prefix.{past_digits, past_fraction, past_minus, IsUsual};
ghost use Rattle.pit_units.specs.Shortest.{IsPlainByte};
ghost use Rattle.pit_units.specs.StandsFor.{StandsFor};

use crate::decimal::Dec;
use crate::fault::DecFault;
use crate::laws::read_is_meant;
use crate::prefix::leading_dec;

// The largest integer part of a decimal + 1: a longer sequence of digits stops there.
const PAST_LARGEST: u64 = 1_000_000_000_000_000_001;

/// Returns the decimal that a text denotes: an optional sign, then digits with at most one point before, among or after them. Nothing is
/// trimmed: a text with a blank is not a number. At most `max_decimals` decimals count; further ones must be zeros.
///
/// # Errors
///
/// Returns the first that applies:
///
/// - `Number`: the text is not a decimal;
/// - `TooFine`: a digit after the first `max_decimals` decimals is not zero;
/// - `Range`: the number is above 10^18 or below -10^18.
#[inline(always)]
pub fn parse_dec(text: &[u8], max_decimals: u8) -> Result<Dec, DecFault>
    requires { max_decimals ≤ 6 }
    ensures found { IfOk result (λ dec. StandsFor max_decimals text.now dec) }
    ensures only { (m : ℤ) → StandsFor max_decimals text.now m → result ≡ Ok m }
    ensures exact { result ≡ decimal_of max_decimals text.now }
{
    read_is_meant();
    decimal_in(text, max_decimals)
}

#[inline(always)]
fn decimal_in(text: &[u8], max_decimals: u8) -> Result<Dec, DecFault>
    requires { max_decimals ≤ 6 }
    ensures { result ≡ decimal_of max_decimals text.now }
{
    match usual_dec(text, max_decimals) {
        Some(millionths) => Ok(Dec::new(i128::from(millionths)).unwrap()),
        None => parse_any(text, max_decimals),
    }
}

/// Returns the decimal that a text denotes, as `parse_dec` reads it, if it is from `low` to `high` millionths.
///
/// # Errors
///
/// Fails like `parse_dec`, and then with `Range` if the number is below `low` or above `high`.
#[inline(always)]
#[tactic(auto, unfolding(crate::specs::Decimal::decimal_within))]
pub fn parse_within(text: &[u8], max_decimals: u8, low: i128, high: i128) -> Result<Dec, DecFault>
    requires { max_decimals ≤ 6 }
    ensures value { result ≡ decimal_within max_decimals low high text.now }
    ensures in_range { IfOk result (λ m. (low ≤ℤ m) × (m ≤ℤ high)) }
{
    let dec = parse_dec(text, max_decimals)?;
    let millionths = dec.millionths();
    if low <= millionths && millionths <= high {
        Ok(dec)
    } else {
        Err(DecFault::Range)
    }
}

/// Reads the millionths of a text in the usual form, in one pass: an optional minus, digits, and optionally a point with at most
/// `max_decimals` digits after it. Reads all such texts with 1 to 12 digits before the point. `None` says nothing about the text:
/// `parse_dec` reads any form.
#[inline(always)]
pub fn usual_dec(text: &[u8], max_decimals: u8) -> Option<i64>
    requires { max_decimals ≤ 6 }
    ensures stated { IfSome result (λ m. decimal_of max_decimals text.now ≡ Ok m) }
    ensures plain { IfSome result (λ _. All IsPlainByte text.now) }
    ensures taken { IsUsual max_decimals (past_minus text.now)
        → past_fraction (past_digits (past_minus text.now)) ≡ [] → IsSome result }
{
    let (millionths, rest) = leading_dec(text, max_decimals)?;
    if !rest.is_empty() {
        return None;
    }
    Some(millionths)
}

#[inline(never)]
#[tactic(auto, unfolding(crate::specs::Decimal::decimal_of))]
fn parse_any(text: &[u8], max_decimals: u8) -> Result<Dec, DecFault>
    requires { max_decimals ≤ 6 }
    ensures { result ≡ decimal_of max_decimals text.now }
{
    let unsigned = without_sign(text);
    let point = first_point(unsigned);
    let whole = &unsigned[..point];
    let fraction = after(unsigned, point + 1);
    if !is_number(whole, fraction) {
        return Err(DecFault::Number);
    }
    if !all_zeros(after(fraction, usize::from(max_decimals))) {
        return Err(DecFault::TooFine);
    }
    within_range(text.first() == Some(&b'-'), size_capped(whole, fraction))
}

// Returns the text without one sign at its start.
fn without_sign(text: &[u8]) -> &[u8]
    ensures { result.now ≡ without_leading_sign text.now }
{
    match text {
        [b'+' | b'-', rest @ ..] => rest,
        _ => text,
    }
}

// Returns the position of the first point, or the length.
fn first_point(text: &[u8]) -> usize
    ensures value { result ≡ position_or_len (λ c. c == 46) text.now }
    ensures within { result ≤ length text.now }
{
    for (place, c) in text.iter().enumerate() {
        if *c == b'.' {
            return place;
        }
    }
    text.len()
}

/// Returns the bytes from `place` on, or none if it is past the end.
pub fn after(text: &[u8], place: usize) -> &[u8]
    ensures { result.now ≡ drop place text.now }
{
    text.get(place..).unwrap_or(&[])
}

fn all_digits(bytes: &[u8]) -> bool
    ensures { result ≡ all_digits bytes.now }
{
    bytes.iter().all(|c| c.is_ascii_digit())
}

fn all_zeros(bytes: &[u8]) -> bool
    ensures { result ≡ all_zeros bytes.now }
{
    bytes.iter().all(|c| *c == b'0')
}

fn is_number(whole: &[u8], fraction: &[u8]) -> bool
    ensures { result ≡ (all_digits whole.now && all_digits fraction.now
        && not (length whole.now + length fraction.now == 0)) }
{
    all_digits(whole) && all_digits(fraction) && !(whole.is_empty() && fraction.is_empty())
}

// Returns the number of the digits, or the limit if it is out of the range of every decimal.
#[tactic(auto, using(crate::proofs::Digits::capped_more))]
fn whole_capped(digits: &[u8]) -> u64
    requires { IsTrue (all_digits digits.now) }
    ensures { result ≡ min (10 ^ 18 + 1) (digits_value 10 digits.now) }
{
    let mut value = 0;
    for digit in digits {
        value = PAST_LARGEST.min(value * 10 + u64::from(digit - b'0'));
    }
    value
}

// Returns the digit at `place` after the point, or zero if there is none.
fn decimal_at(fraction: &[u8], place: usize) -> u8
    requires { IsTrue (all_digits fraction.now) }
    ensures value { result + 48 ≡ slice_index_or fraction.now place 48 }
    ensures digit { result ≤ 9 }
{
    if place < fraction.len() {
        fraction[place] - b'0'
    } else {
        0
    }
}

// Returns the millionths in the first six decimals.
fn decimals(fraction: &[u8]) -> u32
    requires { IsTrue (all_digits fraction.now) }
    ensures value { result ≡ digits_value 10 (six_decimals fraction.now) }
    ensures small { result < 10 ^ 6 }
{
    let mut value = 0;
    for place in 0..6 {
        value = value * 10 + u32::from(decimal_at(fraction, place));
    }
    value
}

// Returns the millionths of a number; units out of the range of every decimal count as the limit.
fn size_capped(whole: &[u8], fraction: &[u8]) -> u128
    requires whole_digits { IsTrue (all_digits whole.now) }
    requires fraction_digits { IsTrue (all_digits fraction.now) }
    ensures value { result ≡ min (10 ^ 18 + 1) (digits_value 10 whole.now) * 10 ^ 6 + digits_value
        10 (six_decimals fraction.now) }
    ensures small { result ≤ 2 * 10 ^ 24 }
{
    u128::from(whole_capped(whole)) * 1_000_000 + u128::from(decimals(fraction))
}

fn within_range(negative: bool, size: u128) -> Result<Dec, DecFault>
    requires { size ≤ 2 * 10 ^ 24 }
    ensures { result ≡ (if nat_lt (10 ^ 24) size then Err DecFault.Range else Ok
        (signed negative size)) }
{
    let above = size as i128;
    Dec::new(if negative { -above } else { above }).ok_or(DecFault::Range)
}
