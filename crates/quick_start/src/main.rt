//! The program of the README, then that of the tokenizer's documentation.
#![tactic(auto)]

mod cut;

use daachorse::DoubleArrayAhoCorasick;
use std::io;

fn main(rt: HostRuntime) -> io::Result<()> {
    let words = [b"ab".as_slice(), b"abcd", b"bc", b"cd"];
    let automaton: DoubleArrayAhoCorasick<u32> = DoubleArrayAhoCorasick::new(rt.alloc(), words)?;
    for found in automaton.find_overlapping_iter(b"abcd") {
        println!(&rt; "{} {} {}", found.start(), found.end(), found.value())?;
    }
    cut::cut(&rt)
}
