// The words of a reply's line.
ghost use Rattle.std.specs.Prelude.{◌≡◌, ◌++◌, ◌∷◌, [], ◌+◌, ◌≤◌, map, flat_map, codes, IsOk, OnOk};
ghost use Rattle.std.specs.Vec.{vec_capacity, vec_len};
ghost use Rattle.std.specs.Fmt.{decimal};
ghost use Rattle.uuid.specs.Text.{hyphenated_text, lower};
ghost use Rattle.hex.specs.Hex.{encode_lower};
ghost use Rattle.nb_model.specs.Lines.{is, number, word_text, spaced};
ghost use Rattle.nb_lines.specs.Words.{seen, named};

use nb_host::Name;
use std::alloc::AllocError;
use uuid::Uuid;

/// A word as the line shows it.
#[derive(Clone, Copy)]
pub enum Word<'a> {
    /// As it stands.
    Is(&'a str),
    Name(&'a Name),
    /// In decimal.
    Number(u64),
    /// Hyphenated, in lower case.
    Guid(&'a [u8; 16]),
    /// As lower-case hexadecimal digits.
    Digest(&'a [u8; 32]),
    /// In quotes.
    Quoted(&'a [u8]),
}

/// Appends a number in decimal.
pub fn push_number(line: &mut Vec<u8>, number: u64) -> Result<(), AllocError>
    ensures digits { OnOk result (line.new.items ≡ line.old.items ++ decimal number) }
    ensures grows { vec_capacity line.old ≤ vec_capacity line.new }
    ensures room { vec_len line.old + 20 ≤ vec_capacity line.old → IsOk result }
    ensures long { OnOk result (vec_len line.new ≤ vec_len line.old + 20) }
{
    let mut buffer = itoa::Buffer::new();
    line.extend_from_slice(buffer.format(number).as_bytes())
}

/// Appends a GUID, hyphenated, in lower case.
pub fn push_guid(line: &mut Vec<u8>, guid: &[u8; 16]) -> Result<(), AllocError>
    ensures text { OnOk result (line.new.items ≡ line.old.items ++ hyphenated_text lower guid.now) }
    ensures grows { vec_capacity line.old ≤ vec_capacity line.new }
    ensures room { vec_len line.old + 36 ≤ vec_capacity line.old → IsOk result }
    ensures long { OnOk result (vec_len line.new ≤ vec_len line.old + 36) }
{
    let mut buffer = Uuid::encode_buffer();
    let id = Uuid::from_bytes(*guid);
    let text = id.hyphenated().encode_lower(&mut buffer);
    line.extend_from_slice(text.as_bytes())?;
    Ok(())
}

fn push_digest(line: &mut Vec<u8>, digest: &[u8; 32]) -> Result<(), AllocError>
    ensures { OnOk result (line.new.items ≡ line.old.items ++ encode_lower digest.now) }
{
    let mut text = [0u8; 64];
    let _ = hex::encode_to_slice(digest.as_slice(), &mut text);
    line.extend_from_slice(&text)
}

fn push_quoted(line: &mut Vec<u8>, text: &[u8]) -> Result<(), AllocError>
    ensures { OnOk result (line.new.items ≡ line.old.items ++ (39 ∷ (text.now ++ 39 ∷ []))) }
{
    line.push(b'\'')?;
    line.extend_from_slice(text)?;
    line.push(b'\'')?;
    Ok(())
}

#[tactic(auto, unfolding(nb_model::specs::Lines::word_text))]
fn push_word(line: &mut Vec<u8>, word: Word<'_>) -> Result<(), AllocError>
    ensures { OnOk result (line.new.items ≡ line.old.items ++ word_text (seen word.entry)) }
{
    match word {
        Word::Is(text) => line.extend_from_slice(text.as_bytes()),
        Word::Name(name) => line.extend_from_slice(name.as_str().as_bytes()),
        Word::Number(number) => push_number(line, number),
        Word::Guid(guid) => push_guid(line, guid),
        Word::Digest(digest) => push_digest(line, digest),
        Word::Quoted(text) => push_quoted(line, text),
    }
}

/// Appends each word with a space before it.
pub fn push_words(line: &mut Vec<u8>, words: &[Word<'_>]) -> Result<(), AllocError>
    ensures { OnOk result (line.new.items ≡ line.old.items ++ spaced (map seen words.now)) }
{
    for word in words {
        line.push(b' ')?;
        push_word(line, *word)?;
    }
    Ok(())
}

/// Appends `ok`, and then the name and the value of each field.
pub fn push_ok(line: &mut Vec<u8>, fields: &[(&str, Word<'_>)]) -> Result<(), AllocError>
    ensures { OnOk result (line.new.items ≡ line.old.items ++ spaced (is (codes "ok") ∷ flat_map named fields.now)) }
{
    push_words(line, &[Word::Is("ok")])?;
    for (name, value) in fields {
        push_words(line, &[Word::Is(*name), *value])?;
    }
    Ok(())
}

/// Appends `ok` and two numbers, each by its name.
pub fn push_two(line: &mut Vec<u8>, one: (&str, u64), other: (&str, u64)) -> Result<(), AllocError>
    ensures { OnOk result (line.new.items ≡ line.old.items ++ spaced (is (codes "ok") ∷ is one.entry.0.now ∷ number one.entry.1 ∷ is other.entry.0.now ∷ number other.entry.1 ∷ [])) }
{
    push_ok(
        line,
        &[
            (one.0, Word::Number(one.1)),
            (other.0, Word::Number(other.1)),
        ],
    )
}
