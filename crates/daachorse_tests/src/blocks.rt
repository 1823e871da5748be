//! What a reader gives is read by blocks, over whose ends matches and characters go.

use crate::automata::{Automaton, BUILT, Bytewise, Charwise, LONGEST, Way};
use crate::expect;
use std::alloc::Global;
use std::io;
use std::test::Fail;

/// A character, and at each thousandth place another.
fn long_text(alloc: Global, common: char, rare: char, count: u32) -> io::Result<String> {
    let mut text = String::new(alloc);
    for place in 0..count {
        text.push(if place % 1_000 == 0 { rare } else { common })?;
    }
    Ok(text)
}

/// Whether what a reader gives of a text comes out as the whole text does, of this length with each
/// match in brackets.
fn is_as_whole<S: Automaton<Alloc = Global>>(
    alloc: Global,
    way: Way,
    patvals: &[(&str, u32)],
    text: &str,
    len: usize,
) -> io::Result<bool> {
    let words = S::built(alloc, way, patvals)?;
    let mut streamed = Vec::new(alloc);
    words.brackets(alloc, text.as_bytes(), &mut streamed)?;
    let whole = words.bracketed(alloc, text)?;
    Ok(streamed == whole && streamed.len() == len)
}

#[test]
fn blocks_are_joined(rt: HostRuntime) -> Result<(), Fail> {
    let alloc = rt.alloc();
    let text = long_text(alloc, 'a', 'b', 1_048_576)?;
    let long = "a".repeat(alloc, 70_000)?;
    let short = [("aba", 0), ("aab", 1)];
    let long = [(long.as_str(), 0), ("ab", 1)];
    for way in [BUILT, LONGEST] {
        for patvals in [&short, &long] {
            let len = 1_048_576 + 2 * 1_048;
            let holds = is_as_whole::<Bytewise>(alloc, way, patvals, &text, len)?;
            expect(&rt, holds, patvals[1].0);
        }
    }
    Ok(())
}

#[test]
fn blocks_that_cut_characters_are_joined(rt: HostRuntime) -> Result<(), Fail> {
    let alloc = rt.alloc();
    // A byte before, so that blocks end within characters.
    let text = format!(in alloc; "x{}", long_text(alloc, 'é', 'ß', 100_000)?)?;
    let patvals = [("ééß", 0), ("éßé", 1)];
    for way in [BUILT, LONGEST] {
        let holds = is_as_whole::<Charwise>(alloc, way, &patvals, &text, 200_001 + 2 * 99)?;
        expect(&rt, holds, "cut characters");
    }
    Ok(())
}
