//! Automata with values of few bytes or none are written and read back.

use crate::expect;
use daachorse::{DoubleArrayAhoCorasick, Empty, Result, Serializable};
use std::alloc::Global;
use std::test::Fail;

/// Whether an automaton has `len` bytes, and each read returns it and leaves a byte that follows.
fn is_read_again<V: Serializable + Copy + PartialEq + Drop>(
    alloc: Global,
    automaton: &DoubleArrayAhoCorasick<V>,
    len: usize,
) -> Result<bool> {
    let mut bytes = automaton.serialize(alloc)?;
    let is_long = bytes.len() == len;
    bytes.push(42)?;
    let (checked, rest) = DoubleArrayAhoCorasick::deserialize(alloc, &bytes)?;
    let (unchecked, left) = DoubleArrayAhoCorasick::deserialize_unchecked(alloc, &bytes)?;
    let is_left = matches!(rest, [42]) && matches!(left, [42]);
    Ok(is_long && is_left && checked == *automaton && unchecked == *automaton)
}

const LETTERS: [&[u8]; 3] = [b"a", b"b", b"c"];

/// Whether automata with values of no byte, of one byte, and of one or nine bytes are read back.
fn are_read_again(alloc: Global) -> Result<bool> {
    let bytes = DoubleArrayAhoCorasick::<u8>::new(alloc, LETTERS)?;
    let nothing = DoubleArrayAhoCorasick::<Empty>::new(alloc, LETTERS)?;
    let patvals = [
        (b"a".as_slice(), Some(1u64)),
        (b"b".as_slice(), None),
        (b"c".as_slice(), Some(3u64)),
    ];
    let options = DoubleArrayAhoCorasick::with_values(alloc, patvals)?;
    Ok(
        is_read_again(alloc, &bytes, 3121)?
            && is_read_again(alloc, &nothing, 3118)?
            && is_read_again(alloc, &options, 3137)?,
    )
}

#[test]
fn values_take_their_bytes(rt: HostRuntime) -> Result<(), Fail> {
    expect(&rt, are_read_again(rt.alloc())?, "values of few bytes");
    Ok(())
}
