use crate::asserts::assert_holds;
use arrayvec::ArrayString;
use decimal_text::*;
use sample_tides::words_of;
use std::alloc::{AllocError, Global};

fn is_text_copied(alloc: Global) -> Result<bool, AllocError> {
    Ok(Text::from_str(alloc, "Pier")?.copy()?.as_str() == "Pier")
}

fn are_numbers_copied(alloc: Global) -> Result<bool, AllocError> {
    let numbers = Numbers::from_vec(vec![in alloc; -1, 2]?);
    Ok(numbers.copy()?.as_slice() == [-1, 2].as_slice())
}

fn are_bytes_copied(alloc: Global) -> Result<bool, AllocError> {
    let bytes = Bytes::from_vec(b"\x01\x02".to_vec(alloc)?);
    Ok(bytes.copy()?.as_slice() == [1, 2].as_slice())
}

fn copied_words(alloc: Global) -> Result<usize, AllocError> {
    Ok(words_of(alloc, "Pier")?.copy()?.as_slice().len())
}

fn is_empty_text(alloc: Global) -> bool {
    Text::empty(alloc).as_str() == ""
}

#[test]
fn copies_are_equal(rt: HostRuntime) {
    assert!(rt; is_text_copied(rt.alloc()) == Ok(true));
    assert!(rt; are_numbers_copied(rt.alloc()) == Ok(true));
    assert!(rt; are_bytes_copied(rt.alloc()) == Ok(true));
    assert!(rt; copied_words(rt.alloc()) == Ok(1));
    assert!(rt; is_empty_text(rt.alloc()));
}

/// Bytes, and whether a name may have them.
static NAMES: &[(&[u8], bool)] = &[
    (b"Pier 1~\xc3\xa9", true),
    (b"", true),
    (b"Pier\x1f", false),
    (b"Pier\x7f", false),
];

#[test]
fn bytes_of_names_are_kept(rt: HostRuntime) {
    for (row, (bytes, are_kept)) in NAMES.iter().enumerate() {
        assert_holds(&rt, are_name_bytes(bytes) == *are_kept, row);
    }
}

/// A text, the number of places, and the value or the fault.
static DECIMALS: &[(&[u8], u32, Result<i128, DecimalFault>)] = &[
    (b"-1.50", 2, Ok(-150)),
    (b".5", 6, Ok(500_000)),
    (b"5.", 1, Ok(50)),
    (b"+1.230", 2, Ok(123)),
    (b"1.234", 2, Err(DecimalFault::TooFine)),
    (b"", 2, Err(DecimalFault::BadForm)),
    (b".", 2, Err(DecimalFault::BadForm)),
    (b"1234567890123456789", 2, Err(DecimalFault::TooLong)),
    (b"1234567890123456789x", 2, Err(DecimalFault::BadForm)),
];

fn is_read(text: &[u8], places: u32, value: &Result<i128, DecimalFault>) -> bool {
    places <= 6 && read(text, places) == *value
}

#[test]
fn decimals_are_read(rt: HostRuntime) {
    for (row, (text, places, value)) in DECIMALS.iter().enumerate() {
        assert_holds(&rt, is_read(text, *places, value), row);
    }
}

/// A text, the most digits, and the value.
const WHOLE_NUMBERS: &[(&[u8], usize, Option<u64>)] = &[
    (b"0019", 4, Some(19)),
    (b"00019", 4, None),
    (b"", 4, None),
    (b"1x", 4, None),
    (b"999999999999999999", 18, Some(999_999_999_999_999_999)),
];

fn is_whole(text: &[u8], most: usize, value: Option<u64>) -> bool {
    most <= 18 && digits(text, most) == value
}

#[test]
fn whole_numbers_are_read(rt: HostRuntime) {
    for (row, (text, most, value)) in WHOLE_NUMBERS.iter().enumerate() {
        assert_holds(&rt, is_whole(text, *most, *value), row);
    }
}

/// A text, the most digits, and the value.
const WIDE_NUMBERS: &[(&[u8], usize, Option<u128>)] = &[
    (
        b"12345678901234567890123456789012345678",
        38,
        Some(12_345_678_901_234_567_890_123_456_789_012_345_678),
    ),
    (
        b"10000000000000000009",
        20,
        Some(10_000_000_000_000_000_009),
    ),
    (b"10000000000000000009", 19, None),
];

fn is_wide(text: &[u8], most: usize, value: Option<u128>) -> bool {
    most <= 38 && wide_digits(text, most) == value
}

#[test]
fn wide_numbers_are_read(rt: HostRuntime) {
    for (row, (text, most, value)) in WIDE_NUMBERS.iter().enumerate() {
        assert_holds(&rt, is_wide(text, *most, *value), row);
    }
}

#[test]
fn digits_have_their_value(rt: HostRuntime) {
    assert!(rt; !are_digits(b"+1"));
    assert!(rt; digits_value(b"0123") == 123);
    assert!(rt; wide_digits_value(b"99999999999999999999") == 99_999_999_999_999_999_999);
}

/// A value, the number of places, and the text.
const WRITTEN: &[(i64, u32, &str)] = &[
    (-5, 2, "-0.05"),
    (0, 2, "0.00"),
    (0, 0, "0"),
    (-7, 0, "-7"),
    (1_004_334, 6, "1.004334"),
    (i64::MIN, 6, "-9223372036854.775808"),
];

fn is_written(value: i64, places: u32, text: &str) -> bool {
    if places > 6 {
        return false;
    }
    let mut out = ArrayString::new();
    write(value, places, &mut out);
    out.as_str() == text
}

#[test]
fn decimals_are_written(rt: HostRuntime) {
    for (value, places, text) in WRITTEN {
        assert_holds(&rt, is_written(*value, *places, text), *text);
    }
}

#[test]
fn fractions_are_rounded(rt: HostRuntime) {
    assert!(rt; rounded(15, 10) == 2);
    assert!(rt; rounded(-15, 10) == -2);
    assert!(rt; rounded(-14, 10) == -1);
}
