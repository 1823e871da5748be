//! Texts as rows write them: the escapes, the words, and the numbers.

use crate::report::Stop;
use std::alloc::Global;
use std::str;

/// The text that a raw one stands for. The letter N in it stands for `number`.
pub fn expand(alloc: Global, raw: &str, number: usize) -> Result<Vec<u8>, Stop> {
    let mut text = Vec::new(alloc);
    let mut left = raw.as_bytes();
    for _ in 0..raw.len() {
        if left.is_empty() {
            break;
        }
        left = push_first(&mut text, left, number)?;
    }
    Ok(text)
}

/// The text that a word stands for, which is empty for two quotes.
pub fn expand_word(alloc: Global, word: &str) -> Result<Vec<u8>, Stop> {
    if word == "\"\"" {
        return Ok(Vec::new(alloc));
    }
    expand(alloc, word, 0)
}

/// Appends what stands first in a raw text, and returns what follows it.
fn push_first<'a>(text: &mut Vec<u8>, raw: &'a [u8], number: usize) -> Result<&'a [u8], Stop> {
    match raw {
        [b'\\', b'{', rest @ ..] => push_repeated(text, rest, number),
        [b'\\', b'[', rest @ ..] => push_range(text, rest),
        _ => push_simple(text, raw),
    }
}

/// Appends the character or the simple escape that stands first, and returns what follows it.
fn push_simple<'a>(text: &mut Vec<u8>, raw: &'a [u8]) -> Result<&'a [u8], Stop> {
    match raw {
        [b'\\', b'x', high, low, rest @ ..] => {
            text.push((digit(*high)? << 4) | digit(*low)?)?;
            Ok(rest)
        }
        [b'\\', letter, rest @ ..] => {
            text.push(escaped(*letter)?)?;
            Ok(rest)
        }
        [b'\\'] | [] => Err(Stop::Unreadable),
        [byte, rest @ ..] => {
            text.push(*byte)?;
            Ok(rest)
        }
    }
}

/// The byte that a letter behind a backslash stands for.
fn escaped(letter: u8) -> Result<u8, Stop> {
    match letter {
        b'\\' => Ok(b'\\'),
        b's' => Ok(b' '),
        b'p' => Ok(b'|'),
        b'e' => Ok(b'='),
        b'c' => Ok(b','),
        b'l' => Ok(b'<'),
        b'h' => Ok(b'#'),
        _ => Err(Stop::Unreadable),
    }
}

/// The number that a hexadecimal digit stands for.
fn digit(letter: u8) -> Result<u8, Stop> {
    match letter {
        b'0'..=b'9' => Ok(letter - b'0'),
        b'a'..=b'f' => Ok(letter - b'a' + 10),
        b'A'..=b'F' => Ok(letter - b'A' + 10),
        _ => Err(Stop::Unreadable),
    }
}

/// What stands before the first such byte and what stands behind it.
fn split_at_byte(raw: &[u8], mark: u8) -> Option<(&[u8], &[u8])> {
    let place = raw.iter().position(|byte| *byte == mark)?;
    let (before, from) = raw.split_at_checked(place)?;
    let (_, behind) = from.split_first()?;
    Some((before, behind))
}

/// The text that a raw one with simple escapes stands for.
fn expand_simple(alloc: Global, raw: &[u8]) -> Result<Vec<u8>, Stop> {
    let mut text = Vec::new(alloc);
    let mut left = raw;
    for _ in 0..raw.len() {
        if left.is_empty() {
            break;
        }
        left = push_simple(&mut text, left)?;
    }
    Ok(text)
}

/// Appends the first characters of a filling that is repeated without end, and returns what follows
/// the brace behind it.
fn push_repeated<'a>(text: &mut Vec<u8>, raw: &'a [u8], number: usize) -> Result<&'a [u8], Stop> {
    let Some((count, behind)) = split_at_byte(raw, b':') else {
        return Err(Stop::Unreadable);
    };
    let Some((filling, rest)) = split_at_byte(behind, b'}') else {
        return Err(Stop::Unreadable);
    };
    let count = count_of(count, number)?;
    let filling = expand_simple(*text.allocator(), filling)?;
    push_cycled(text, &filling, count)?;
    Ok(rest)
}

/// The number that is written before a filling.
fn count_of(raw: &[u8], number: usize) -> Result<usize, Stop> {
    if raw == b"N".as_slice() {
        return Ok(number);
    }
    match str::from_utf8(raw) {
        Ok(digits) => number_of(digits),
        Err(_) => Err(Stop::Unreadable),
    }
}

/// Appends the first characters of a filling that is repeated without end, or its first bytes if it
/// is no text.
fn push_cycled(text: &mut Vec<u8>, filling: &[u8], count: usize) -> Result<(), Stop> {
    let Ok(characters) = str::from_utf8(filling) else {
        for byte in filling.iter().copied().cycle().take(count) {
            text.push(byte)?;
        }
        return Ok(());
    };
    for character in characters.chars().cycle().take(count) {
        push_character(text, character)?;
    }
    Ok(())
}

/// Appends the bytes of a character.
pub fn push_character(text: &mut Vec<u8>, character: char) -> Result<(), Stop> {
    let mut buffer = [0; 4];
    text.extend_from_slice(character.encode_utf8(&mut buffer).as_bytes())?;
    Ok(())
}

/// Appends the characters of a range, and returns what follows the bracket behind it.
fn push_range<'a>(text: &mut Vec<u8>, raw: &'a [u8]) -> Result<&'a [u8], Stop> {
    let Some((range, rest)) = split_at_byte(raw, b']') else {
        return Err(Stop::Unreadable);
    };
    let range = expand_simple(*text.allocator(), range)?;
    let (first, last) = ends_of(&range)?;
    for character in (first..=last).into_iter() {
        push_character(text, character)?;
    }
    Ok(rest)
}

/// The first and the last character of a range, which stand round a hyphen.
fn ends_of(range: &[u8]) -> Result<(char, char), Stop> {
    let Ok(range) = str::from_utf8(range) else {
        return Err(Stop::Unreadable);
    };
    let mut characters = range.chars();
    match (
        characters.next(),
        characters.next(),
        characters.next(),
        characters.next(),
    ) {
        (Some(first), Some('-'), Some(last), None) => Ok((first, last)),
        _ => Err(Stop::Unreadable),
    }
}

/// The first and the last character of a range in a word.
pub fn range_of(alloc: Global, raw: &str) -> Result<(char, char), Stop> {
    let range = expand(alloc, raw, 0)?;
    ends_of(&range)
}

/// The number that decimal digits stand for.
pub fn number_of(digits: &str) -> Result<usize, Stop> {
    digits.parse::<usize>().map_err(|_| Stop::Unreadable)
}

/// The number of 32 bits that decimal digits stand for.
pub fn small_number_of(digits: &str) -> Result<u32, Stop> {
    digits.parse::<u32>().map_err(|_| Stop::Unreadable)
}

/// The byte that decimal digits stand for.
pub fn byte_of(digits: &str) -> Result<u8, Stop> {
    digits.parse::<u8>().map_err(|_| Stop::Unreadable)
}
