//! The printed texts of the errors.

use super::expect;
use daachorse_core::errors::{
    AutomatonScaleError, DaachorseError, DuplicatePatternError, InvalidArgumentError,
    InvalidAutomatonError, InvalidConversionError, Limit, OutOfMemoryError,
};
use std::alloc::{AllocError, Global};
use std::fmt::Display;
use std::test::Fail;

/// Whether a value is printed as this text.
fn prints<E: Display>(alloc: Global, value: &E, text: &str) -> Result<bool, AllocError> {
    let printed = value.to_string(alloc)?;
    Ok(printed.as_str() == text)
}

/// What an error tells.
#[derive(Clone, Copy)]
enum Cause {
    Argument,
    Conversion,
    Automaton,
    Memory,
    Scale(Limit),
}

/// Causes, and the texts of their errors.
const CAUSES: [(Cause, &str); 9] = [
    (
        Cause::Argument,
        "InvalidArgumentError: pattern.len() must be <= 4294967295",
    ),
    (
        Cause::Conversion,
        "InvalidConversionError: index cannot be converted to V",
    ),
    (
        Cause::Automaton,
        "InvalidAutomatonError: invalid serialized automaton",
    ),
    (Cause::Memory, "OutOfMemoryError: memory allocation failed"),
    (
        Cause::Scale(Limit::PatternValues),
        "AutomatonScaleError: patvals.len() must be <= 16777215",
    ),
    (
        Cause::Scale(Limit::StateId),
        "AutomatonScaleError: state_id must be <= 4294967295",
    ),
    (
        Cause::Scale(Limit::NumElements),
        "AutomatonScaleError: num_elements must be <= 4294967295",
    ),
    (
        Cause::Scale(Limit::Outputs),
        "AutomatonScaleError: outputs.len() must be <= 4294967295",
    ),
    (
        Cause::Scale(Limit::OutputPos),
        "AutomatonScaleError: output_pos must be <= 16777215",
    ),
];

/// The error of a cause.
fn error_of(cause: Cause) -> DaachorseError {
    match cause {
        Cause::Argument => DaachorseError::invalid_argument(),
        Cause::Conversion => DaachorseError::invalid_conversion(),
        Cause::Automaton => DaachorseError::invalid_automaton(),
        Cause::Memory => DaachorseError::from(AllocError),
        Cause::Scale(limit) => DaachorseError::automaton_scale(limit),
    }
}

/// Whether the struct of a cause is printed as this text.
fn is_printed(alloc: Global, cause: Cause, text: &str) -> Result<bool, AllocError> {
    match cause {
        Cause::Argument => prints(alloc, &InvalidArgumentError, text),
        Cause::Conversion => prints(alloc, &InvalidConversionError, text),
        Cause::Automaton => prints(alloc, &InvalidAutomatonError, text),
        Cause::Memory => prints(alloc, &OutOfMemoryError, text),
        Cause::Scale(limit) => prints(alloc, &AutomatonScaleError { limit }, text),
    }
}

#[test]
fn each_error_and_its_struct_have_their_text(rt: HostRuntime) -> Result<(), Fail> {
    for (cause, text) in &CAUSES {
        let is_error = prints(rt.alloc(), &error_of(*cause), text)?;
        expect(&rt, is_error, text);
        let is_struct = is_printed(rt.alloc(), *cause, text)?;
        expect(&rt, is_struct, text);
    }
    Ok(())
}

#[test]
fn a_duplicate_pattern_has_its_text(rt: HostRuntime) -> Result<(), Fail> {
    let pattern = String::from_str(rt.alloc(), "ab")?;
    let duplicate = DuplicatePatternError { pattern };
    let text = "DuplicatePatternError: ab";
    expect(&rt, prints(rt.alloc(), &duplicate, text)?, text);
    Ok(())
}
