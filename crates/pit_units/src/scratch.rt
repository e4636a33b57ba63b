//! A line in a scratch buffer, written from its end to its start.

ghost use Rattle.std.specs.Prelude.{◌≡◌, ◌≢◌, ◌+◌, ◌-◌, ◌*◌, ◌/◌, ◌%◌, ◌^◌, ◌<◌, ◌≤◌, ◌∷◌, ◌++◌, ◌*ℤ◌, [], decimal, length, pos, take, OnOk, OnErr};
ghost use Rattle.std.specs.Fmt.{sign_text};
ghost use Rattle.pit_units.specs.Decimal.{fraction_text, shortest, size_text, without_end_zeros};
ghost use Rattle.pit_units.specs.DecimalRange.{IsInDecimalRange};
ghost use Rattle.pit_units.specs.Line.{line_in};
ghost use Rattle.pit_units.specs.declared.decimal.TheConstants.{MAX_MILLIONTHS};
ghost use Rattle.pit_units.specs.declared.scratch.TheConstants.{LINE_END};

use crate::decimal::Dec;
use itoa::write_digits;
use std::alloc::AllocError;
use std::marker::Model;

/// The end of a line (exclusive): a line may have an identifier and eight values, each after a space.
pub const LINE_END: usize = 256;

// The bytes of most lines. All of them are copied for such a line: a copy of a known length needs no call.
const SHORT: usize = 48;

/// The bytes of a scratch buffer: a short line may be copied with bytes after it.
pub const SCRATCH: usize = LINE_END + SHORT;

/// A buffer for a line that ends at `LINE_END`. The bytes after it have no meaning.
pub type Scratch = [u8; SCRATCH];

/// Appends the line that starts at `start`. If memory is refused, `out` is unchanged.
#[inline(always)]
pub fn append_line(out: &mut Vec<u8>, scratch: &Scratch, start: usize) -> Result<(), AllocError>
    requires { start ≤ LINE_END }
    ensures ok { OnOk result (out.new.items ≡ out.old.items ++ line_in scratch.now start) }
    ensures err { OnErr result (out.new.items ≡ out.old.items) }
{
    if LINE_END - start <= SHORT {
        return append_prefix(out, &scratch[start..start + SHORT], LINE_END - start);
    }
    out.extend_from_slice(&scratch[start..LINE_END])
}

// Appends the first `count` bytes. All bytes are copied, and the others are cut off again.
#[inline(always)]
fn append_prefix(out: &mut Vec<u8>, bytes: &[u8], count: usize) -> Result<(), AllocError>
    requires { count ≤ length bytes.now }
    ensures ok { OnOk result (out.new.items ≡ out.old.items ++ take count bytes.now) }
    ensures err { OnErr result (out.new.items ≡ out.old.items) }
{
    let before = out.len();
    out.extend_from_slice(bytes)?;
    out.truncate(before + count);
    Ok(())
}

/// Writes a byte.
#[inline(always)]
pub fn write_byte(scratch: &mut Scratch, at: usize, byte: u8) -> usize
    requires { (0 < at) × (at ≤ LINE_END) }
    ensures text { line_in scratch.new result ≡ byte ∷ line_in scratch.old at }
    ensures start { result + 1 ≡ at }
{
    scratch[at - 1] = byte;
    at - 1
}

/// Writes an integer.
#[inline(always)]
pub fn write_integer(scratch: &mut Scratch, at: usize, number: u64) -> usize
    requires { (20 ≤ at) × (at ≤ LINE_END) }
    ensures text { line_in scratch.new result ≡ decimal number ++ line_in scratch.old at }
    ensures long { (at ≤ result + 20) × (result ≤ at) }
{
    write_digits(number, scratch, at)
}

/// Writes an integer and a space before it.
#[inline(always)]
pub fn write_field(scratch: &mut Scratch, at: usize, number: u64) -> usize
    requires { (21 ≤ at) × (at ≤ LINE_END) }
    ensures text { line_in scratch.new result ≡ 32 ∷ (decimal number ++ line_in scratch.old at) }
    ensures long { (at ≤ result + 21) × (result ≤ at) }
{
    let at = write_integer(scratch, at, number);
    write_byte(scratch, at, b' ')
}

/// Writes an integer of one digit and a space before it.
#[inline(always)]
#[tactic(auto, using(std::proofs::lemmas::Fmt::decimal_digit))]
pub fn write_digit(scratch: &mut Scratch, at: usize, digit: u8) -> usize
    requires { (digit < 10) × (2 ≤ at) × (at ≤ LINE_END) }
    ensures text { line_in scratch.new result ≡ 32 ∷ (decimal digit ++ line_in scratch.old at) }
    ensures start { result + 2 ≡ at }
{
    let at = write_byte(scratch, at, b'0' + digit);
    write_byte(scratch, at, b' ')
}

/// Writes the shortest text of a decimal.
#[inline(always)]
pub fn write_dec(scratch: &mut Scratch, at: usize, dec: Dec) -> usize
    requires { (28 ≤ at) × (at ≤ LINE_END) }
    ensures text { line_in scratch.new result ≡ shortest dec ++ line_in scratch.old at }
    ensures long { (at ≤ result + 28) × (result ≤ at) }
    ensures in_range { IsInDecimalRange dec }
{
    let millionths = dec.millionths();
    let at = write_size(scratch, at, millionths.unsigned_abs());
    write_sign(scratch, at, millionths.is_negative())
}

// Writes the shortest text of a number of millionths, dividing 64-bit numbers as such.
#[inline(always)]
#[tactic(auto, using(std::proofs::Common::append_assoc))]
fn write_size(scratch: &mut Scratch, at: usize, millionths: u128) -> usize
    requires { (millionths ≤ MAX_MILLIONTHS) × ((27 ≤ at) × (at ≤ LINE_END)) }
    ensures text { line_in scratch.new result ≡ size_text millionths ++ line_in scratch.old at }
    ensures long { (at ≤ result + 27) × (result ≤ at) }
{
    if millionths <= u128::from(u64::MAX) {
        return write_millionths(scratch, at, millionths as u64);
    }
    let at = write_decimals(scratch, at, (millionths % 1_000_000) as u32);
    write_integer(scratch, at, (millionths / 1_000_000) as u64)
}

/// Writes the shortest text of a number of millionths.
#[inline(always)]
#[tactic(auto, using(std::proofs::Common::append_assoc))]
pub fn write_millionths(scratch: &mut Scratch, at: usize, millionths: u64) -> usize
    requires { (27 ≤ at) × (at ≤ LINE_END) }
    ensures text { line_in scratch.new result ≡ size_text millionths ++ line_in scratch.old at }
    ensures long { (at ≤ result + 27) × (result ≤ at) }
{
    let at = write_decimals(scratch, at, (millionths % 1_000_000) as u32);
    write_integer(scratch, at, millionths / 1_000_000)
}

/// Writes the shortest text of a number of hundredths without converting it to a decimal.
#[inline(always)]
pub fn write_hundredths(scratch: &mut Scratch, at: usize, hundredths: i64) -> usize
    requires { (25 ≤ at) × (at ≤ LINE_END) }
    ensures text { line_in scratch.new result
        ≡ shortest (hundredths *ℤ pos 10000) ++ line_in scratch.old at }
    ensures long { (at ≤ result + 25) × (result ≤ at) }
    ensures in_range { IsInDecimalRange (hundredths *ℤ pos 10000) }
{
    let size = hundredths.unsigned_abs();
    let at = write_thousandths(scratch, at, (size % 100) as u32 * 10);
    let at = write_integer(scratch, at, size / 100);
    write_sign(scratch, at, hundredths.is_negative())
}

// Writes a minus if a number is below zero.
#[inline(always)]
fn write_sign(scratch: &mut Scratch, at: usize, below_zero: bool) -> usize
    requires { (0 < at) × (at ≤ LINE_END) }
    ensures text { line_in scratch.new result ≡ sign_text below_zero ++ line_in scratch.old at }
    ensures long { (at ≤ result + 1) × (result ≤ at) }
{
    scratch[at - 1] = b'-';
    at - usize::from(below_zero)
}

// Writes a point and the decimals of a number of millionths, or nothing if there are none.
#[inline(always)]
fn write_decimals(scratch: &mut Scratch, at: usize, millionths: u32) -> usize
    requires { (millionths < 10 ^ 6) × ((7 ≤ at) × (at ≤ LINE_END)) }
    ensures text { line_in scratch.new result ≡ fraction_text millionths ++ line_in scratch.old at }
    ensures long { (at ≤ result + 7) × (result ≤ at) }
{
    let (thousandths, rest) = (millionths / 1_000, millionths % 1_000);
    if rest == 0 {
        return write_thousandths(scratch, at, thousandths);
    }
    let at = write_last(scratch, at, rest);
    let at = write_three(scratch, at, thousandths);
    write_byte(scratch, at, b'.')
}

// Writes a point and the decimals of a number of thousandths, or nothing if there are none.
#[inline(always)]
fn write_thousandths(scratch: &mut Scratch, at: usize, thousandths: u32) -> usize
    requires { (thousandths < 1000) × ((4 ≤ at) × (at ≤ LINE_END)) }
    ensures text { line_in scratch.new result
        ≡ fraction_text (thousandths * 1000) ++ line_in scratch.old at }
    ensures long { (at ≤ result + 4) × (result ≤ at) }
{
    if thousandths == 0 {
        return at;
    }
    let at = write_last(scratch, at, thousandths);
    write_byte(scratch, at, b'.')
}

// Writes three digits, which are not all zero, without the zeros at their end.
#[inline(always)]
fn write_last(scratch: &mut Scratch, at: usize, number: u32) -> usize
    requires number { (number ≢ 0) × (number < 1000) }
    requires at { (3 ≤ at) × (at ≤ LINE_END) }
    ensures text { line_in scratch.new result ≡ without_end_zeros ((48 + number / 100)
        ∷ (48 + number / 10 % 10) ∷ (48 + number % 10) ∷ []) ++ line_in scratch.old at }
    ensures long { (at ≤ result + 3) × (result ≤ at) }
{
    if number % 10 != 0 {
        return write_three(scratch, at, number);
    }
    if number % 100 != 0 {
        let at = write_byte(scratch, at, digit(number / 10));
        return write_byte(scratch, at, digit(number / 100));
    }
    write_byte(scratch, at, digit(number / 100))
}

// Writes the three digits of a number.
#[inline(always)]
fn write_three(scratch: &mut Scratch, at: usize, number: u32) -> usize
    requires { (number < 1000) × ((3 ≤ at) × (at ≤ LINE_END)) }
    ensures text { line_in scratch.new result ≡ (48 + number / 100) ∷ (48 + number / 10 % 10)
        ∷ (48 + number % 10) ∷ line_in scratch.old at }
    ensures start { result + 3 ≡ at }
{
    let at = write_byte(scratch, at, digit(number));
    let at = write_byte(scratch, at, digit(number / 10));
    write_byte(scratch, at, digit(number / 100))
}

// Returns the last digit of a number, as a character.
#[inline(always)]
fn digit(number: u32) -> u8
    ensures { result ≡ 48 + number % 10 }
{
    b'0' + (number % 10) as u8
}

// The largest number of digits of an integer.
const DIGITS: usize = 20;

/// The digits of an integer that begins several lines. Contracts see the digits.
#[derive(Drop)]
pub struct Digits {
    bytes: [u8; DIGITS],
    start: usize,
}

impl Model for Digits {
    ghost use Rattle.std.specs.Prelude.{ℕ, ◌≤◌, List, drop};

    ghost Value = { List ℕ };

    ghost view = { λ digits. drop digits.start digits.bytes };

    ghost invariant = { λ digits. digits.start ≤ 20 };
}

impl Digits {
    /// Returns the digits of this number.
    #[inline(always)]
    #[tactic(auto, using(crate::proofs::Text::few_digits))]
    pub fn of(number: u64) -> Digits
        ensures { result ≡ decimal number }
    {
        let mut bytes = [0; DIGITS];
        let start = write_digits(number, &mut bytes, DIGITS);
        Digits { bytes, start }
    }
}

/// Writes the digits of an integer. Copies the largest number of bytes that digits may need: a copy of a known length needs no call.
#[inline(always)]
pub fn write_start(scratch: &mut Scratch, at: usize, digits: &Digits) -> usize
    requires { (20 ≤ at) × (at ≤ LINE_END) }
    ensures text { line_in scratch.new result ≡ digits.now ++ line_in scratch.old at }
    ensures long { (at ≤ result + 20) × (result ≤ at) }
{
    scratch[at - DIGITS..at].copy_from_slice(&digits.bytes);
    at - DIGITS + digits.start
}
