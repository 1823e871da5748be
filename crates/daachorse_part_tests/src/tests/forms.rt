//! Whether a value is written as exactly these bytes.

use daachorse_core::errors::{DaachorseError, Result};
use daachorse_serializer::serializer::{Serializable, SerializableVec};
use std::alloc::Global;

/// Whether these bytes are refused as no such value.
pub fn lacks_bytes<S: Serializable>(bytes: &[u8]) -> bool {
    match S::deserialize_from_slice(bytes) {
        Ok(_) => false,
        Err(error) => error == DaachorseError::invalid_automaton(),
    }
}

/// Whether each beginning that lacks a byte is refused as no such value.
fn lacks_each_byte<S: Serializable>(form: &[u8]) -> bool {
    for len in 0..form.len() {
        if !lacks_bytes::<S>(&form[..len]) {
            return false;
        }
    }
    true
}

/// Whether a value is read from these bytes, and a byte that follows is left.
fn is_read<S: Serializable + PartialEq>(value: &S, bytes: &[u8]) -> Result<bool> {
    let (read, rest) = S::deserialize_from_slice(bytes)?;
    Ok(read == *value && rest.len() == 1)
}

/// Whether a value is written as `form` and read back from it, whatever follows, and each beginning
/// that lacks a byte is refused.
pub fn has_form<S: Serializable + PartialEq>(
    alloc: Global,
    value: &S,
    form: &[u8],
) -> Result<bool> {
    value.in_range();
    let mut bytes = Vec::new(alloc);
    value.serialize_to_vec(&mut bytes)?;
    let is_written = bytes.as_slice() == form && form.len() <= S::serialized_bytes();
    bytes.push(42)?;
    Ok(is_written && is_read(value, &bytes)? && lacks_each_byte::<S>(form))
}

/// Whether these bytes are refused as no such value, for one that allocates.
pub fn is_refused<S: SerializableVec<Alloc = Global> + Drop>(alloc: Global, bytes: &[u8]) -> bool {
    match S::deserialize_from_slice(alloc, bytes) {
        Ok(_) => false,
        Err(error) => error == DaachorseError::invalid_automaton(),
    }
}

/// What [`lacks_each_byte`] says, for a value that allocates.
fn is_each_refused<S: SerializableVec<Alloc = Global> + Drop>(alloc: Global, form: &[u8]) -> bool {
    for len in 0..form.len() {
        if !is_refused::<S>(alloc, &form[..len]) {
            return false;
        }
    }
    true
}

/// What [`is_read`] says, for a value that allocates.
fn is_list_read<S: SerializableVec<Alloc = Global> + PartialEq + Drop>(
    alloc: Global,
    value: &S,
    bytes: &[u8],
) -> Result<bool> {
    let (read, rest) = S::deserialize_from_slice(alloc, bytes)?;
    Ok(read == *value && rest.len() == 1)
}

/// What [`has_form`] says, for a value that allocates.
pub fn has_list_form<S: SerializableVec<Alloc = Global> + PartialEq + Drop>(
    alloc: Global,
    value: &S,
    form: &[u8],
) -> Result<bool>
    requires { S.can_write (S.shape value.now) }
{
    value.in_range();
    let mut bytes = Vec::new(alloc);
    value.serialize_to_vec(&mut bytes)?;
    let is_written = bytes.as_slice() == form && value.serialized_bytes() == form.len();
    bytes.push(42)?;
    Ok(is_written && is_list_read(alloc, value, &bytes)? && is_each_refused::<S>(alloc, form))
}
