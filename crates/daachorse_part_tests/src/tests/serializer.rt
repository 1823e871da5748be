//! Written forms, where no contract speaks: worked rows, and that calls succeed if memory is ample.

use super::expect;
use super::forms::{has_form, has_list_form, is_refused, lacks_bytes};
use daachorse_core::errors::{DaachorseError, Result};
use daachorse_core::{Empty, MatchKind, Output};
use daachorse_serializer::intpack::{U24, U24nU8};
use daachorse_serializer::mode::SearchMode;
use daachorse_serializer::serializer::{Serializable, Table};
use std::alloc::Global;
use std::num::NonZeroU32;
use std::test::Fail;

#[test]
fn a_word_keeps_both_parts(rt: HostRuntime) -> Result<(), Fail> {
    let mut packed = U24nU8::default();
    packed.set_b(98);
    packed.set_a(U24::try_from(2)?);
    let is_kept = (packed.a().get(), packed.b()) == (2, 98)
        && has_form(rt.alloc(), &packed, &[0x62, 0x02, 0x00, 0x00])?;
    expect(&rt, is_kept, "both");
    let refused = U24::try_from(16777216) == Err("value must be smaller than 2^24");
    expect(&rt, refused, "2^24");
    Ok(())
}

/// A number.
#[derive(Clone, Copy)]
enum Number {
    Byte(u8),
    Of16(u16),
    Of32(u32),
    Of64(u64),
    Of128(u128),
    SignedByte(i8),
    Signed16(i16),
    Signed32(i32),
    Signed64(i64),
    Signed128(i128),
    Size(usize),
}

const NUMBERS: &[(Number, &[u8])] = &[
    (Number::Byte(1), &[1]),
    (Number::Of16(1), &[1, 0]),
    (Number::Of16(0x0123), &[0x23, 0x01]),
    (Number::Of32(1), &[1, 0, 0, 0]),
    (Number::Of32(0x0123_4567), &[0x67, 0x45, 0x23, 0x01]),
    (Number::Of64(1), &[1, 0, 0, 0, 0, 0, 0, 0]),
    (
        Number::Of128(1),
        &[1, 0, 0, 0, 0, 0, 0, 0, 0, 0, 0, 0, 0, 0, 0, 0],
    ),
    (Number::SignedByte(1), &[1]),
    (Number::Signed16(1), &[1, 0]),
    (Number::Signed16(-2), &[0xfe, 0xff]),
    (Number::Signed32(1), &[1, 0, 0, 0]),
    (Number::Signed64(1), &[1, 0, 0, 0, 0, 0, 0, 0]),
    (
        Number::Signed128(1),
        &[1, 0, 0, 0, 0, 0, 0, 0, 0, 0, 0, 0, 0, 0, 0, 0],
    ),
    (
        Number::Size(0x0123_4567),
        &[0x67, 0x45, 0x23, 0x01, 0, 0, 0, 0],
    ),
];

/// Whether a number is written as these bytes.
fn is_number(alloc: Global, number: Number, form: &[u8]) -> Result<bool> {
    match number {
        Number::Byte(value) => has_form(alloc, &value, form),
        Number::Of16(value) => has_form(alloc, &value, form),
        Number::Of32(value) => has_form(alloc, &value, form),
        Number::Of64(value) => has_form(alloc, &value, form),
        Number::Of128(value) => has_form(alloc, &value, form),
        Number::SignedByte(value) => has_form(alloc, &value, form),
        Number::Signed16(value) => has_form(alloc, &value, form),
        Number::Signed32(value) => has_form(alloc, &value, form),
        Number::Signed64(value) => has_form(alloc, &value, form),
        Number::Signed128(value) => has_form(alloc, &value, form),
        Number::Size(value) => has_form(alloc, &value, form),
    }
}

#[test]
fn numbers_have_their_forms(rt: HostRuntime) -> Result<(), Fail> {
    for (number, form) in NUMBERS {
        expect(&rt, is_number(rt.alloc(), *number, form)?, "a number");
    }
    Ok(())
}

/// A value that is no number.
#[derive(Clone, Copy)]
enum Value {
    Truth(bool),
    Character(char),
    Pair(u16, i16),
    Triple(u8, bool, u16),
    Nested(Option<(char, (u8, u8))>),
    Number(Option<u32>),
    /// A position of 0 stands for none.
    Position(u32),
    Nothing,
    /// The value, the length and the position of the next.
    Output(u8, u32, u32),
    Mode(MatchKind, bool),
}

const VALUES: &[(Value, &[u8])] = &[
    (Value::Truth(true), &[1]),
    (Value::Truth(false), &[0]),
    (Value::Character('é'), &[0xe9, 0, 0, 0]),
    (Value::Character('\u{10ffff}'), &[0xff, 0xff, 0x10, 0]),
    (Value::Pair(0x0123, -2), &[0x23, 0x01, 0xfe, 0xff]),
    (Value::Triple(7, true, 0x0123), &[7, 1, 0x23, 0x01]),
    (Value::Nested(Some(('a', (1, 2)))), &[1, 97, 0, 0, 0, 1, 2]),
    (
        Value::Number(Some(0x0123_4567)),
        &[1, 0x67, 0x45, 0x23, 0x01],
    ),
    (Value::Number(None), &[0]),
    (Value::Position(1), &[1, 0, 0, 0]),
    (Value::Position(0), &[0, 0, 0, 0]),
    (Value::Nothing, &[]),
    (Value::Output(7, 2, 5), &[7, 2, 0, 0, 0, 5, 0, 0, 0]),
    (Value::Mode(MatchKind::Standard, false), &[0]),
    (Value::Mode(MatchKind::LeftmostFirst, false), &[2]),
    (Value::Mode(MatchKind::Standard, true), &[128]),
    (Value::Mode(MatchKind::LeftmostLongest, true), &[129]),
    (Value::Mode(MatchKind::LeftmostFirst, true), &[130]),
];

/// Whether a value is written as these bytes.
fn is_value(alloc: Global, value: Value, form: &[u8]) -> Result<bool> {
    match value {
        Value::Truth(value) => has_form(alloc, &value, form),
        Value::Character(value) => has_form(alloc, &value, form),
        Value::Pair(first, second) => has_form(alloc, &(first, second), form),
        Value::Triple(first, second, third) => has_form(alloc, &(first, second, third), form),
        Value::Nested(value) => has_form(alloc, &value, form),
        Value::Number(value) => has_form(alloc, &value, form),
        Value::Position(number) => has_form(alloc, &NonZeroU32::new(number), form),
        Value::Nothing => has_form(alloc, &Empty, form),
        Value::Output(value, length, next) => {
            has_form(
                alloc,
                &Output::new(value, length, NonZeroU32::new(next)),
                form,
            )
        }
        Value::Mode(kind, folds) => has_form(alloc, &SearchMode { kind, folds }, form),
    }
}

#[test]
fn values_of_parts_have_their_forms(rt: HostRuntime) -> Result<(), Fail> {
    for (value, form) in VALUES {
        expect(&rt, is_value(rt.alloc(), *value, form)?, "a value");
    }
    Ok(())
}

/// Bytes that are no value.
#[derive(Clone, Copy)]
enum NoValue {
    Truth,
    Pair,
    Character,
    Option,
}

const NO_VALUES: &[(NoValue, &[u8])] = &[
    (NoValue::Truth, &[2]),
    (NoValue::Pair, &[7, 2]),
    // A surrogate, and one past the last character.
    (NoValue::Character, &[0, 0xd8, 0, 0]),
    (NoValue::Character, &[0, 0, 0x11, 0]),
    (NoValue::Option, &[2, 0, 0, 0, 0]),
];

#[test]
fn other_bytes_are_no_values(rt: HostRuntime) {
    for (of, bytes) in NO_VALUES {
        let holds = match of {
            NoValue::Truth => lacks_bytes::<bool>(bytes),
            NoValue::Pair => lacks_bytes::<(u8, bool)>(bytes),
            NoValue::Character => lacks_bytes::<char>(bytes),
            NoValue::Option => lacks_bytes::<Option<u32>>(bytes),
        };
        expect(&rt, holds, "no value");
    }
}

/// Whether a byte with another behind it is read as the standard mode, and the other is left.
fn is_standard(byte: u8) -> Result<bool> {
    let bytes = [byte, 42];
    let (read, rest) = SearchMode::deserialize_from_slice(&bytes)?;
    let standard = SearchMode {
        kind: MatchKind::Standard,
        folds: false,
    };
    Ok(read == standard && rest.len() == 1)
}

#[test]
fn any_other_byte_is_the_standard_mode(rt: HostRuntime) -> Result<(), Fail> {
    for byte in 3..=255u8 {
        let is_mode = byte >= 128 && byte <= 130;
        expect(&rt, is_mode || is_standard(byte)?, "any other byte");
    }
    Ok(())
}

#[test]
fn a_list_has_its_form(rt: HostRuntime) -> Result<(), Fail> {
    let list = vec![in rt.alloc(); 0x0123_4567u32, 0x89ab_cdef, 0x0246_8ace]?;
    let form = [
        3, 0, 0, 0, 0x67, 0x45, 0x23, 0x01, 0xef, 0xcd, 0xab, 0x89, 0xce, 0x8a, 0x46, 0x02,
    ];
    expect(&rt, has_list_form(rt.alloc(), &list, &form)?, "a list");
    let hostile = is_refused::<Vec<u32>>(rt.alloc(), &[255, 255, 255, 255, 1]);
    expect(&rt, hostile, "a count alone");
    Ok(())
}

#[test]
fn a_table_has_its_form(rt: HostRuntime) -> Result<(), Fail> {
    let items = vec![in rt.alloc(); 1u16, 2, 3]?;
    assert!(rt; items.len() == 3);
    let table: Option<Table<u16, 3>> = Some(Table { items });
    let holds = has_list_form(rt.alloc(), &table, &[1, 1, 0, 2, 0, 3, 0])?;
    expect(&rt, holds, "a table");
    Ok(())
}
