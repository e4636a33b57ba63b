// What no clause states: the definitions agree with worked examples, and calls with enough memory succeed.
ghost use Rattle.std.specs.Prelude.{◌≤◌};

use pit_units::{Dec, DecFault, leading_dec, leading_integer, parse_dec, put_dec};
use std::alloc::Global;
use std::test::Fail;

// Texts, the allowed number of decimals, and the millionths or the fault that each is read as.
const READ: &[(&str, u8, Result<i128, DecFault>)] = &[
    (".5", 6, Ok(500_000)),
    ("5.", 6, Ok(5_000_000)),
    ("-0", 6, Ok(0)),
    ("+7", 6, Ok(7_000_000)),
    ("", 6, Err(DecFault::Number)),
    (".", 6, Err(DecFault::Number)),
    ("-", 6, Err(DecFault::Number)),
    ("0.0000001", 6, Err(DecFault::TooFine)),
    ("1000000000000000000", 6, Ok(MOST)),
    ("1000000000000000000.000001", 6, Err(DecFault::Range)),
    // other encodings
    ("007", 6, Ok(7_000_000)),
    ("+.25", 6, Ok(250_000)),
    ("-1.5", 6, Ok(-1_500_000)),
    ("1.2345670", 6, Ok(1_234_567)),
    ("0.0000000", 6, Ok(0)),
    ("-1000000000000000000", 6, Ok(-MOST)),
    ("-1000000000000000001", 6, Err(DecFault::Range)),
    ("-1000000000000000000.000001", 6, Err(DecFault::Range)),
    ("+", 6, Err(DecFault::Number)),
    ("+-5", 6, Err(DecFault::Number)),
    ("--1", 6, Err(DecFault::Number)),
    ("1.2.3", 6, Err(DecFault::Number)),
    (" 1", 6, Err(DecFault::Number)),
    ("1 ", 6, Err(DecFault::Number)),
    ("1e3", 6, Err(DecFault::Number)),
    ("1,5", 6, Err(DecFault::Number)),
    ("1.0000001x", 6, Err(DecFault::Number)),
    ("9999999999999999999.0000001", 6, Err(DecFault::TooFine)),
    // fewer decimals
    ("12.000", 0, Ok(12_000_000)),
    ("12.001", 0, Err(DecFault::TooFine)),
    ("0.125", 3, Ok(125_000)),
    ("0.1250000000000", 3, Ok(125_000)),
    ("0.0001", 3, Err(DecFault::TooFine)),
];

const MOST: i128 = 1_000_000_000_000_000_000_000_000;

// Millionths, and their text.
const WRITTEN: &[(i128, &str)] = &[
    (0, "0"),
    (-10_000, "-0.01"),
    (2_500_000, "2.5"),
    // further texts
    (7_000_000, "7"),
    (1, "0.000001"),
    (-1, "-0.000001"),
    (100_100, "0.1001"),
    (-12_000_340, "-12.00034"),
    (MOST, "1000000000000000000"),
    (-MOST, "-1000000000000000000"),
    (MOST - 1, "999999999999999999.999999"),
];

fn read(text: &str, decimals: u8) -> Result<i128, DecFault>
    requires { decimals ≤ 6 }
{
    Ok(parse_dec(text.as_bytes(), decimals)?.millionths())
}

fn text_of(alloc: Global, millionths: i128) -> Result<Vec<u8>, Fail> {
    let mut text = Vec::new(alloc);
    let dec = Dec::new(millionths).ok_or("out of range")?;
    put_dec(alloc, &mut text, dec)?;
    Ok(text)
}

#[test]
fn decimal_spellings(rt: HostRuntime) -> Result<(), Fail> {
    for (text, decimals, millionths) in READ {
        assert_eq!(rt; read(text, (*decimals).min(6)), *millionths, "at {text}");
    }
    for (millionths, text) in WRITTEN {
        assert!(rt;
            text_of(rt.alloc(), *millionths)?.as_slice() == text.as_bytes(),
            "at {text}"
        );
    }
    Ok(())
}

// Texts, and the integer of up to 18 digits with which each begins, if it begins with a digit, and the remainder.
const INTEGER_PREFIXES: &[(&str, Option<(u64, &str)>)] = &[
    ("12 x", Some((12, " x"))),
    ("007", Some((7, ""))),
    ("5.25", Some((5, ".25"))),
    ("123456789012345678", Some((123_456_789_012_345_678, ""))),
    ("1234567890123456789", Some((123_456_789_012_345_678, "9"))),
    ("", None),
    ("x", None),
    (" 1", None),
    ("-1", None),
    ("+1", None),
];

// Texts, the allowed number of decimals, and the millionths with which each begins, and the remainder. The part before the point
// may be at most 10^12.
const DECIMAL_PREFIXES: &[(&str, u8, Option<(i64, &str)>)] = &[
    ("12.5 x", 3, Some((12_500_000, " x"))),
    ("-0.01", 6, Some((-10_000, ""))),
    ("7", 0, Some((7_000_000, ""))),
    ("7.", 0, Some((7_000_000, ""))),
    ("1.5x", 1, Some((1_500_000, "x"))),
    ("0.1250", 3, None),
    (
        "1000000000000.999999\n",
        6,
        Some((1_000_000_000_000_999_999, "\n")),
    ),
    (
        "-1000000000000.999999",
        6,
        Some((-1_000_000_000_000_999_999, "")),
    ),
    ("1000000000001", 6, None),
    ("+7", 6, None),
    (".5", 6, None),
    ("-", 6, None),
    ("", 6, None),
];

// Returns whether the number and the text after it were found, or neither is wanted.
fn is_prefix<N: PartialEq + Drop>(found: Option<(N, &[u8])>, wanted: Option<(N, &str)>) -> bool {
    match (found, wanted) {
        (Some((number, rest)), Some((wanted, following))) => {
            number == wanted && rest == following.as_bytes()
        }
        (None, None) => true,
        _ => false,
    }
}

fn begins_whole(text: &str, wanted: Option<(u64, &str)>) -> bool {
    is_prefix(leading_integer(text.as_bytes()), wanted)
}

fn begins_decimal(text: &str, decimals: u8, wanted: Option<(i64, &str)>) -> bool {
    is_prefix(leading_dec(text.as_bytes(), decimals.min(6)), wanted)
}

#[test]
fn prefixes_of_texts(rt: HostRuntime) {
    for (text, wanted) in INTEGER_PREFIXES {
        assert!(rt; begins_whole(text, *wanted), "at {text}");
    }
    for (text, decimals, wanted) in DECIMAL_PREFIXES {
        assert!(rt; begins_decimal(text, *decimals, *wanted), "at {text}");
    }
}
