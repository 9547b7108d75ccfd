// What one plain word stands for.
ghost use Rattle.std.specs.Prelude.{◌≡◌, ◌==◌, ◌&&◌, ◌-◌, nat_le, slice_index, Some, None, cond};
ghost use Rattle.std.specs.List.{list_all};
ghost use Rattle.uuid.specs.Text.{parsed_hyphenated};
ghost use Rattle.nb_model.specs.Words.{is_file, is_database, number_in_word, count_in_word};
ghost use Rattle.nb_words.specs.Parts.{is_level, is_plain_number, named};

use nb_host::{MOST_BASE_NAME, Name};
use uuid::Uuid;

/// The name of a file that a user may give: none that ends in `.delta`.
pub(crate) fn file(word: &str) -> Option<Name>
    ensures { result ≡ cond (is_file word.now) (Some word.now) None }
{
    let name = Name::read(word)?;
    if name.is_delta() { None } else { Some(name) }
}

/// The name of a database: its difference file has to have a name too.
pub(crate) fn database(word: &str) -> Option<Name>
    ensures { result ≡ cond (is_database word.now) (Some word.now) None }
{
    let name = file(word)?;
    if word.len() <= MOST_BASE_NAME {
        Some(name)
    } else {
        None
    }
}

/// The names of a database and of a file.
pub(crate) fn database_and_file(db: &str, file: &str) -> Option<(Name, Name)>
    ensures { result ≡ named db.now file.now }
{
    let db = database(db)?;
    let file = self::file(file)?;
    Some((db, file))
}

fn are_digits(word: &[u8]) -> bool
    ensures { result ≡ list_all (λ b. nat_le 48 b && nat_le b 57) word.now }
{
    word.iter().all(|b| b.is_ascii_digit())
}

/// One digit or more, without a needless zero in front.
fn is_plain_number(word: &[u8]) -> bool
    ensures { result ≡ is_plain_number word.now }
{
    !word.is_empty() && are_digits(word) && (word.len() == 1 || word[0] != b'0')
}

/// The decimal number, where it is written plainly and fits.
pub(crate) fn number(word: &str) -> Option<u64>
    ensures { result ≡ number_in_word word.now }
{
    if !is_plain_number(word.as_bytes()) {
        return None;
    }
    word.parse::<u64>().ok()
}

/// The decimal number, where it is written plainly and has 32 bits.
pub(crate) fn count(word: &str) -> Option<u32>
    ensures { result ≡ count_in_word word.now }
{
    let number = number(word)?;
    if number <= 4_294_967_295 {
        Some(number as u32)
    } else {
        None
    }
}

/// The level of one digit.
pub(crate) fn level(word: &str) -> Option<u8>
    ensures { result ≡ cond (is_level word.now) (Some (slice_index word.now 0 - 48)) None }
{
    let bytes = word.as_bytes();
    if bytes.len() == 1 && bytes[0].is_ascii_digit() {
        Some(bytes[0] - b'0')
    } else {
        None
    }
}

/// The GUID in the hyphenated form, in either case.
pub(crate) fn guid(word: &str) -> Option<[u8; 16]>
    ensures { result ≡ parsed_hyphenated word.now }
{
    if word.len() != 36 {
        return None;
    }
    match Uuid::try_parse(word) {
        Ok(guid) => Some(guid.into_bytes()),
        Err(_) => None,
    }
}
