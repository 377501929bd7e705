//! How pieces spell bytes, and numbers and texts stand in a line of a case.
use std::alloc::{AllocError, Global};

/// The words of a command line.
pub fn words_of(alloc: Global, line: &str) -> Result<Vec<String>, AllocError> {
    let mut words = Vec::new(alloc);
    for word in line.split_whitespace() {
        words.push(String::from_str(alloc, word)?)?;
    }
    Ok(words)
}

/// A text so many times, each time with its number in place of the `#` in it, and with this end.
pub fn numbered(alloc: Global, rest: &str, end: &str) -> anyhow::Result<String> {
    let (count, text) = rest.split_once(' ').unwrap_or((rest, ""));
    let (front, back) = text.split_once('#').unwrap_or((text, ""));
    let mut all = String::new(alloc);
    for number in 0..count.parse::<u32>()? {
        let one = format!(in alloc; "{front}{number}{back}{end}")?;
        all.push_str(one.as_str())?;
    }
    Ok(all)
}

/// Adds the bytes of a piece.
pub fn put_piece(alloc: Global, piece: &str, bytes: &mut Vec<u8>) -> anyhow::Result<()> {
    match piece.strip_prefix('\'') {
        Some(text) => {
            bytes.extend_from_slice(&u16::try_from(text.len())?.to_be_bytes())?;
            bytes.extend_from_slice(text.as_bytes())?;
        }
        None => bytes.extend_from_slice(hex::decode(alloc, piece)?.as_slice())?,
    }
    Ok(())
}

/// Adds the numbers of a line.
pub fn put_numbers(line: &str, numbers: &mut Vec<u64>) -> anyhow::Result<()> {
    for number in line.split_whitespace() {
        numbers.push(number.parse::<u64>()?)?;
    }
    Ok(())
}
