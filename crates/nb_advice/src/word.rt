// What is wrong with one word of the command line.
use nb_host::{DELTA_SUFFIX, MOST_BASE_NAME, MOST_NAME};
use std::alloc::{AllocError, Global};

/// How many characters of a word are shown at most.
const MOST_SHOWN: usize = 60;

/// A word for a reader: in quotes, what isn't printable as its number, and dots for what is left out.
pub(crate) fn shown(alloc: Global, word: &str) -> Result<String, AllocError> {
    let mut front = String::new(alloc);
    for letter in word.chars().take(MOST_SHOWN) {
        front.push(letter)?;
    }
    let dots = if front.len() < word.len() { ".." } else { "" };
    format!(in alloc; "{:?}{dots}", front.as_str())
}

/// What kind of file a name is to be of.
#[derive(Clone, Copy)]
pub(crate) enum Kind {
    Database,
    File,
}

impl Kind {
    /// How many bytes its name has at most.
    fn most(self) -> usize {
        match self {
            Kind::Database => MOST_BASE_NAME,
            Kind::File => MOST_NAME,
        }
    }

    fn text(self) -> &'static str {
        match self {
            Kind::Database => "a database",
            Kind::File => "a file",
        }
    }
}

/// Why a name of the right length is none.
fn strange_byte(word: &str) -> Option<char> {
    word.chars().find(|letter| !letter.is_ascii_alphanumeric() && !"._-/".contains(*letter))
}

/// Why a word names no such file, and none where it does.
pub(crate) fn wrong_name(
    alloc: Global,
    word: &str,
    kind: Kind,
) -> Result<Option<String>, AllocError> {
    let (name, what, most) = (shown(alloc, word)?, kind.text(), kind.most());
    if word.is_empty() {
        return Ok(Some(format!(in alloc; "the name of {what} is empty")?));
    }
    if let Some(letter) = strange_byte(word) {
        let why = if letter == ' ' {
            String::from_str(alloc, "a space")?
        } else {
            format!(in alloc; "the character {letter:?}")?
        };
        return Ok(Some(format!(in alloc; "{name} is no name of {what}: no name has {why}")?));
    }
    if word.len() > most {
        let length = word.len();
        return Ok(Some(format!(in alloc;
            "{name} is no name of {what}: it has {length} bytes, and {most} at most are allowed"
        )?));
    }
    if word.ends_with(DELTA_SUFFIX) {
        return Ok(Some(format!(in alloc;
            "{name} is no name of {what}: names that end in {DELTA_SUFFIX} are those of difference files"
        )?));
    }
    Ok(None)
}

/// Why a word is neither a level nor a GUID, and none where it is one.
pub(crate) fn wrong_since(alloc: Global, word: &str) -> Result<Option<String>, AllocError> {
    let digits = word.bytes().all(|byte| byte.is_ascii_digit());
    if digits && word.len() == 1 {
        return Ok(None);
    }
    let name = shown(alloc, word)?;
    let text = if digits && !word.is_empty() {
        format!(in alloc; "{name} is no level: levels are 0 to 9")?
    } else if is_guid(word) {
        return Ok(None);
    } else {
        format!(in alloc;
            "{name} is neither a level, 0 to 9, nor a GUID, 32 hexadecimal digits in groups of 8, 4, 4, 4 and 12"
        )?
    };
    Ok(Some(text))
}

/// Whether a word is a GUID in the hyphenated form.
fn is_guid(word: &str) -> bool {
    word.len() == 36
        && word.bytes().enumerate().all(|(at, byte)| {
            if at == 8 || at == 13 || at == 18 || at == 23 {
                byte == b'-'
            } else {
                byte.is_ascii_hexdigit()
            }
        })
}

/// Whether a word is digits, without a needless zero in front.
fn is_plain_number(word: &str) -> bool {
    !word.is_empty()
        && word.bytes().all(|byte| byte.is_ascii_digit())
        && (word.len() == 1 || !word.starts_with('0'))
}

/// Why a word is no number of a script, and none where it is one.
pub(crate) fn wrong_number(alloc: Global, word: &str) -> Result<Option<String>, AllocError> {
    if is_plain_number(word) && word.parse::<u64>().is_ok() {
        return Ok(None);
    }
    let name = shown(alloc, word)?;
    Ok(Some(format!(in alloc; "{name} is no number of 0 to 18446744073709551615")?))
}

/// Why a word is no number of restore points, and none where it is one.
pub(crate) fn wrong_keep(alloc: Global, word: &str) -> Result<Option<String>, AllocError> {
    if is_plain_number(word) && word.parse::<u32>().is_ok() {
        return Ok(None);
    }
    let name = shown(alloc, word)?;
    Ok(Some(format!(in alloc; "{name} is no number of 0 to 4294967295")?))
}
