//! Bits of words.

ghost use Rattle.std.specs.Prelude.{◌≡◌, ◌+◌, ◌-◌, ◌^◌, ◌<◌, ◌≤◌, ◌&&◌, ℕ, true, false, nat_lt, nat_le, not};
ghost use Rattle.precedence.specs.inner.lanes.Bits.{has_bit};

/// Returns whether the word has the bit.
#[inline(always)]
pub fn has_bit(word: u128, bit: u32) -> bool
    requires { bit < 128 }
    ensures { result ≡ has_bit word bit }
{
    (word >> bit) & 1 == 1
}

/// Returns the word with the bits from `first` to `past` (exclusive).
#[inline(always)]
pub fn bits_between(first: u32, past: u32) -> u128
    requires in_order { first ≤ past }
    requires within { past ≤ 128 }
    ensures { (p : ℕ) → has_bit result p ≡ (nat_le first p && nat_lt p past) }
{
    if first == past {
        return 0;
    }
    bits_below(past - first) << first
}

#[inline(always)]
fn bits_below(past: u32) -> u128
    requires { past ≤ 128 }
    ensures { result ≡ 2 ^ past - 1 }
{
    if past == 128 {
        u128::MAX
    } else {
        (1 << past) - 1
    }
}

/// Returns the bits that are in either word.
#[inline(always)]
pub fn joined(one: u128, other: u128) -> u128
    ensures left { (p : ℕ) → has_bit one p ≡ true → has_bit result p ≡ true }
    ensures right { (p : ℕ) → has_bit other p ≡ true → has_bit result p ≡ true }
    ensures either { (p : ℕ) → has_bit result p ≡ true → has_bit one p ≡ false → has_bit other p ≡ true }
{
    one | other
}

/// Returns the lanes that have a bit of the word at the offset `at`: lane i sees the bit i + at.
#[inline(always)]
pub fn seen_at(lanes: u128, word: u128, at: u32) -> u128
    requires { at < 128 }
    ensures { (i : ℕ) → has_bit result i ≡ (has_bit lanes i && has_bit word (i + at)) }
{
    lanes & (word >> at)
}

/// Returns the lanes that have no bit of the word at any of the `len` offsets from `first` on.
#[inline(always)]
pub fn without(lanes: u128, word: u128, first: u32, len: u32) -> u128
    requires first { first < 128 }
    requires some { 0 < len }
    requires few { len ≤ 64 }
    ensures among { (i : ℕ) → has_bit result i ≡ true → has_bit lanes i ≡ true }
    ensures none { (i at : ℕ) → has_bit result i ≡ true → first ≤ at → at < first + len → has_bit word (i + at) ≡ false }
    ensures dropped { (i : ℕ) → has_bit lanes i ≡ true → has_bit result i ≡ false
        → (at : ℕ) × (first ≤ at) × (at < first + len) × (has_bit word (i + at) ≡ true) }
{
    lanes & !gathered(word, first, len)
}

// Returns the positions from which the word has a bit at some of the `len` offsets from `first` on.
#[inline(always)]
fn gathered(word: u128, first: u32, len: u32) -> u128
    requires first { first < 128 }
    requires some { 0 < len }
    requires few { len ≤ 64 }
    ensures some { (i : ℕ) → has_bit result i ≡ true → (at : ℕ) × (first ≤ at) × (at < first + len) × (has_bit word (i + at) ≡ true) }
    ensures all { (i at : ℕ) → first ≤ at → at < first + len → has_bit word (i + at) ≡ true → has_bit result i ≡ true }
{
    let mut seen = word >> first;
    let mut done = 1;
    while done < len {
        let step = done.min(len - done);
        seen |= seen >> step;
        done += step;
    }
    seen
}

/// Returns offsets below `len`, as bits: all at which some lane sees a bit of the word, and others at which a lane that is missing would.
#[inline(always)]
pub fn offsets_seen(lanes: u128, word: u128, len: u32) -> u64
    requires few { lanes < 2 ^ 64 }
    requires some { 0 < len }
    requires within { len ≤ 64 }
    ensures below { (at : ℕ) → has_bit result at ≡ true → at < len }
    ensures all { (i at : ℕ) → at < len → has_bit lanes i ≡ true → has_bit word (i + at) ≡ true → has_bit result at ≡ true }
{
    let last = 128 - lanes.leading_zeros();
    let seen = gathered(word, 0, last.max(1));
    seen_at(u128::from(mask_below(len)), seen, 0) as u64
}

/// Clears the bits from `first` to `past` (exclusive).
#[inline(always)]
pub fn cleared(bits: u64, first: u32, past: u32) -> u64
    requires some { first < past }
    requires within { past ≤ 64 }
    ensures { (p : ℕ) → has_bit result p ≡ (has_bit bits p && not (nat_le first p && nat_lt p past)) }
{
    let before = (1 << first) - 1;
    bits & (before | !mask_below(past))
}

// Returns the word with the bits below `past`.
#[inline(always)]
fn mask_below(past: u32) -> u64
    requires some { 0 < past }
    requires within { past ≤ 64 }
    ensures { (p : ℕ) → has_bit result p ≡ nat_lt p past }
{
    u64::MAX >> (64 - past)
}

/// Returns the position of the first bit from `at` on, or 64.
#[inline(always)]
pub fn first_from(bits: u64, at: u32) -> u32
    requires { at ≤ 64 }
    ensures later { at ≤ result }
    ensures none { (p : ℕ) → at ≤ p → p < result → has_bit bits p ≡ false }
    ensures some { result < 64 → has_bit bits result ≡ true }
{
    if at == 64 || bits >> at == 0 {
        return 64;
    }
    at + (bits >> at).trailing_zeros()
}
