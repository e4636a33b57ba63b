//! Reads the number at the start of a text.

ghost use Rattle.std.specs.Prelude.{◌≡◌, [], ◌∷◌, ◌++◌, ◌*◌, ◌^◌, ◌<◌, ◌≤◌, if◌then◌else◌, IfSome, IsSome, MatchOption, pos};
ghost use Rattle.pit_units.specs.Decimal.{signed};
ghost use Rattle.pit_units.specs.Prefix.{digits_ahead, past_digits, past_fraction, past_minus, BeginsWith, IsUsual};
ghost use Rattle.pit_units.specs.inner.PrefixParts.{BeginsWithDecimals, BeginsWithDigits, BeginsWithSize};

// The largest number of digits that are read at the start of a text: their number has 64 bits.
const MOST_DIGITS: usize = 18;

// The largest number of units whose millionths have 64 bits.
const MOST_UNITS: u64 = 1_000_000_000_000;

/// Reads the integer at the start of a text: at most 18 of the digits that the text begins with. Returns the number, and the text after
/// these digits. After 18 digits that text may begin with a further digit.
///
/// `None` means that the text does not begin with a digit.
#[inline(always)]
#[tactic(auto, using(crate::proofs::LeadingFacts::integer_leads))]
pub fn leading_integer(text: &[u8]) -> Option<(u64, &[u8])>
    ensures whole { IfSome result (λ x. BeginsWith 0 text.now (pos (x.0 * 10 ^ 6)) x.1.now) }
    ensures rest { IfSome result (λ x. x.1.now ≡ past_digits text.now) }
    ensures taken { 0 < digits_ahead text.now → IsSome result }
{
    let (number, rest) = leading_digits(text);
    if rest.len() == text.len() {
        return None;
    }
    Some((number, rest))
}

/// Reads the decimal at the start of a text, if it has the usual form: an optional minus, digits, and optionally a point with at most
/// `max_decimals` digits after it. Returns its millionths, and the text after the decimal. Reads at most 18 digits before the point,
/// whose number may be at most 10^12.
///
/// Reads every decimal with 1 to 12 digits before the point and at most `max_decimals` after it. `None` means that the text begins in
/// another way, such as with a plus or a point. (`parse_dec` reads a complete text in any form.)
#[inline(always)]
pub fn leading_dec(text: &[u8], max_decimals: u8) -> Option<(i64, &[u8])>
    requires { max_decimals ≤ 6 }
    ensures decimal { IfSome result (λ x. BeginsWith max_decimals text.now x.0 x.1.now) }
    ensures rest { IfSome result
        (λ x. x.1.now ≡ past_fraction (past_digits (past_minus text.now))) }
    ensures taken { IsUsual max_decimals (past_minus text.now) → IsSome result }
{
    let (negative, unsigned) = without_minus(text);
    let (size, rest) = leading_size(unsigned, max_decimals)?;
    Some((with_sign(negative, size), rest))
}

#[inline(always)]
fn with_sign(negative: bool, size: u64) -> i64
    requires { size < 2 * 10 ^ 18 }
    ensures { result ≡ signed negative size }
{
    let above = size as i64;
    if negative { -above } else { above }
}

// Returns whether a text begins with a minus, and the text after it.
#[inline(always)]
fn without_minus(text: &[u8]) -> (bool, &[u8])
    ensures joined { text.now ≡ (if result.0 then 45 ∷ [] else []) ++ result.1.now }
    ensures past { result.1.now ≡ past_minus text.now }
{
    match text {
        [b'-', rest @ ..] => (true, rest),
        _ => (false, text),
    }
}

// Returns the millionths of the unsigned decimal at the start of a text, and the text after it.
#[inline(always)]
fn leading_size(text: &[u8], max_decimals: u8) -> Option<(u64, &[u8])>
    requires { max_decimals ≤ 6 }
    ensures size { IfSome result (λ x. BeginsWithSize max_decimals text.now x.0 x.1.now) }
    ensures small { IfSome result (λ x. x.0 < 2 * 10 ^ 18) }
    ensures rest { IfSome result (λ x. x.1.now ≡ past_fraction (past_digits text.now)) }
    ensures taken { IsUsual max_decimals text.now → IsSome result }
{
    let (units, following) = leading_digits(text);
    if following.len() == text.len() || units > MOST_UNITS {
        return None;
    }
    match after_point(following) {
        Some(tail) => {
            let (decimals, rest) = leading_decimals(tail, max_decimals)?;
            Some((units * 1_000_000 + u64::from(decimals), rest))
        }
        None => Some((units * 1_000_000, following)),
    }
}

// Returns the text after the point that it begins with.
#[inline(always)]
fn after_point(text: &[u8]) -> Option<&[u8]>
    ensures { MatchOption result (past_fraction text.now ≡ text.now)
        (λ tail. text.now ≡ 46 ∷ tail.now) }
{
    match text {
        [b'.', tail @ ..] => Some(tail),
        _ => None,
    }
}

// Returns the millionths of the digits at the start of a text as digits after a point, and the text after them.
#[inline(always)]
fn leading_decimals(text: &[u8], max_decimals: u8) -> Option<(u32, &[u8])>
    requires { max_decimals ≤ 6 }
    ensures decimals { IfSome result (λ x. BeginsWithDecimals max_decimals text.now x.0 x.1.now) }
    ensures rest { IfSome result (λ x. x.1.now ≡ past_digits text.now) }
    ensures taken { digits_ahead text.now ≤ max_decimals → IsSome result }
{
    let (number, rest) = leading_digits(text);
    let count = text.len() - rest.len();
    if count > usize::from(max_decimals) {
        return None;
    }
    Some((number as u32 * scale(count), rest))
}

// Returns the number of millionths in a unit of the last of `decimals` decimals.
#[inline(always)]
fn scale(decimals: usize) -> u32
    requires { decimals ≤ 6 }
    ensures { result * 10 ^ decimals ≡ 10 ^ 6 }
{
    match decimals {
        0 => 1_000_000,
        1 => 100_000,
        2 => 10_000,
        3 => 1_000,
        4 => 100,
        5 => 10,
        _ => 1,
    }
}

// Returns the number of the digits at the start of a text, at most 18 of them, and the text after them.
#[inline(always)]
fn leading_digits(text: &[u8]) -> (u64, &[u8])
    ensures digits { BeginsWithDigits text.now result.0 result.1.now }
    ensures rest { result.1.now ≡ past_digits text.now }
{
    let mut number = 0;
    for (place, byte) in text.iter().enumerate() {
        if place == MOST_DIGITS || !byte.is_ascii_digit() {
            return (number, &text[place..]);
        }
        number = number * 10 + u64::from(byte - b'0');
    }
    (number, &[])
}
