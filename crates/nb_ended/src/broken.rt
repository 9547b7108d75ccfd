// The line of a script, or of a list of names, that breaks its form, for a reader.
ghost use Rattle.std.specs.Prelude.{◌≡◌, ◌+◌, ◌-◌, ◌<◌, ◌≤◌, [], ◌∷◌, ◌++◌, ◌/◌, length, take, flat_map, string_bytes, IfOk, OnOk, IfSome};
ghost use Rattle.nb_ended.specs.Shown.{ArePrintable, Names, after_line, digit_of, is_printable, line_after, line_len, shown_byte, shown_line, text_of};

use nb_host::Refusal;
use std::alloc::{AllocError, Global};

/// How many bytes of a line are shown at most.
const MOST_SHOWN: usize = 200;

/// A line that breaks the form of its file.
#[derive(Drop)]
pub struct Broken {
    /// Its number, from 1.
    pub line: u32,
    /// What is shown of it.
    pub text: String,
}

/// Whether a terminal shows a byte as it is.
fn is_printable(byte: u8) -> bool
    ensures { result ≡ is_printable byte }
{
    b' ' <= byte && byte <= b'~'
}

/// The last digit of a number to the base 16.
fn digit(value: u8) -> u8
    ensures { result ≡ digit_of value }
{
    let last = value % 16;
    if last < 10 {
        b'0' + last
    } else {
        b'a' - 10 + last
    }
}

/// One more character, which is one byte.
fn push_ascii(text: &mut String, byte: u8) -> Result<(), AllocError>
    requires { byte < 128 }
    ensures { OnOk result (string_bytes text.new ≡ string_bytes text.old ++ byte ∷ []) }
{
    text.push(char::from(byte))
}

/// The number of a byte, for one that a terminal may take for more than a character.
fn push_number(text: &mut String, byte: u8) -> Result<(), AllocError>
    ensures { OnOk result (string_bytes text.new ≡ string_bytes text.old ++ 92 ∷ 120 ∷ digit_of (byte / 16) ∷ digit_of byte ∷ []) }
{
    text.push_str("\\x")?;
    push_ascii(text, digit(byte / 16))?;
    push_ascii(text, digit(byte))
}

/// One more byte for a reader: what isn't printable as its number.
fn push_byte(text: &mut String, byte: u8) -> Result<(), AllocError>
    ensures { OnOk result (string_bytes text.new ≡ string_bytes text.old ++ shown_byte byte) }
{
    if is_printable(byte) {
        push_ascii(text, byte)
    } else {
        push_number(text, byte)
    }
}

fn push_bytes(text: &mut String, bytes: &[u8]) -> Result<(), AllocError>
    ensures { OnOk result (string_bytes text.new ≡ string_bytes text.old ++ flat_map shown_byte bytes.now) }
{
    for byte in bytes {
        push_byte(text, *byte)?;
    }
    Ok(())
}

/// The first bytes of a long line.
fn first_bytes(line: &[u8]) -> &[u8]
    requires { 200 < length line.now }
    ensures { result.now ≡ take 200 line.now }
{
    &line[..MOST_SHOWN]
}

/// The bytes of a line for a reader, at most 200 of them, after which dots stand for the rest.
fn shown(alloc: Global, line: &[u8]) -> Result<String, AllocError>
    ensures { IfOk result (λ text. string_bytes text ≡ shown_line line.now) }
{
    let mut text = String::new(alloc);
    if line.len() > MOST_SHOWN {
        push_bytes(&mut text, first_bytes(line))?;
        text.push_str("...")?;
    } else {
        push_bytes(&mut text, line)?;
    }
    Ok(text)
}

/// How long the first line is.
fn line_len(bytes: &[u8]) -> usize
    ensures count { result ≡ line_len bytes.now }
    ensures within { result ≤ length bytes.now }
{
    bytes.iter().take_while(|byte| **byte != b'\n').count()
}

/// The bytes after the first line.
fn after_line(bytes: &[u8]) -> &[u8]
    ensures { result.now ≡ after_line bytes.now }
{
    let count = line_len(bytes);
    if count < bytes.len() {
        &bytes[count + 1..]
    } else {
        &[]
    }
}

/// The line before which so many others stand, empty where the bytes end before it.
fn line_after(bytes: &[u8], count: u32) -> &[u8]
    ensures { result.now ≡ line_after count bytes.now }
{
    let mut rest = bytes;
    for _passed in 0..count {
        rest = after_line(rest);
    }
    &rest[..line_len(rest)]
}

/// What is shown of the line of that number, from 1, of these bytes, or what is wanted where they end before it.
fn text_of(alloc: Global, bytes: &[u8], number: u32, wanted: &str) -> Result<String, AllocError>
    ensures { IfOk result (λ text. string_bytes text ≡ text_of bytes.now number wanted.now) }
{
    let line = line_after(bytes, number.saturating_sub(1));
    if line.is_empty() {
        // A line without bytes is skipped, so only one after the last breaks the form.
        String::from_str(alloc, wanted)
    } else {
        shown(alloc, line)
    }
}

/// The line that the refusal of these bytes names, where they are refused for their form. Where they end before it the text says what is `wanted`.
pub fn broken_by(
    alloc: Global,
    bytes: &[u8],
    refusal: &Refusal,
    wanted: &str,
) -> Result<Option<Broken>, AllocError>
    ensures names { IfOk result (λ found. Names found refusal.now) }
    ensures text { IfOk result (λ found. IfSome found (λ broken. string_bytes broken.text ≡ text_of bytes.now broken.line wanted.now)) }
    ensures printable { ArePrintable wanted.now → IfOk result (λ found. IfSome found (λ broken. ArePrintable (string_bytes broken.text))) }
{
    match refusal {
        Refusal::BadScript { line } => {
            let text = text_of(alloc, bytes, *line, wanted)?;
            Ok(Some(Broken { line: *line, text }))
        }
        _ => Ok(None),
    }
}
