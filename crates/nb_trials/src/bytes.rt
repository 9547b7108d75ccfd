// Bytes as a text of trials has them: a number in hex for each, and `00*12` for twelve zeros.
use crate::line::number_in;
use anyhow::{Context, Result};
use std::alloc::{AllocError, Global};

/// From so many equal bytes on they are written once, with their number.
const MANY: usize = 4;

/// Appends them.
pub fn write_bytes(text: &mut String, bytes: &[u8]) -> Result<(), AllocError> {
    for equal in bytes.chunk_by(|one, next| one == next) {
        write_equal(text, equal)?;
    }
    Ok(())
}

fn write_equal(text: &mut String, equal: &[u8]) -> Result<(), AllocError> {
    match equal {
        [byte, ..] if equal.len() >= MANY => write!(text, " {byte:02x}*{}", equal.len()),
        _ => write_each(text, equal),
    }
}

fn write_each(text: &mut String, bytes: &[u8]) -> Result<(), AllocError> {
    for byte in bytes {
        write!(text, " {byte:02x}")?;
    }
    Ok(())
}

/// A byte, and how often it stands there.
fn read_equal(word: &str) -> Option<(u8, usize)> {
    let (byte, count) = word.split_once('*').unwrap_or((word, "1"));
    let byte = u8::from_str_radix(byte, 16).ok()?;
    Some((byte, number_in(count)?))
}

/// The bytes of such a text.
pub fn read_bytes(alloc: Global, text: &str) -> Result<Vec<u8>> {
    let mut bytes = Vec::new(alloc);
    for word in text.split_whitespace() {
        let (byte, count) = read_equal(word).context("no byte")?;
        let len = bytes.len().checked_add(count).context("too many bytes")?;
        bytes.resize(len, byte)?;
    }
    Ok(bytes)
}
