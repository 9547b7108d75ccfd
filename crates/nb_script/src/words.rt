ghost use Rattle.std.specs.Prelude.{◌≡◌, ◌<◌, ◌≤◌, length, take, option_map, is_some, IfSome};
ghost use Rattle.std.specs.List.{AllPass, prefix_len};
ghost use Rattle.nb_model.specs.TableNames.{is_table_byte};
ghost use Rattle.nb_script.specs.Words.{after, is_digit, digit_count, is_plain, value_of, number_at, within, is_text_byte, closed, text_at, name_len, is_given, named, name_at, table_at};

use nb_host::Name;
use nb_model::TableName;

/// The rest, where the bytes begin with this word.
#[tactic(auto, unfolding(crate::specs::Words::after))]
pub(crate) fn after<'a>(bytes: &'a [u8], word: &[u8]) -> Option<&'a [u8]>
    ensures { option_map (λ rest. rest.now) result ≡ after word.now bytes.now }
{
    bytes.strip_prefix(word)
}

fn digits(bytes: &[u8]) -> usize
    ensures count { result ≡ digit_count bytes.now }
    ensures within { result ≤ length bytes.now }
    ensures each { AllPass is_digit (take result bytes.now) }
{
    bytes.iter().take_while(|b| b.is_ascii_digit()).count()
}

fn is_plain(digits: &[u8]) -> bool
    ensures { result ≡ is_plain digits.now }
{
    !digits.is_empty() && (digits[0] != b'0' || digits.len() == 1)
}

fn value(digits: &[u8]) -> Option<u64>
    requires { AllPass is_digit digits.now }
    ensures { result ≡ value_of digits.now }
{
    let mut value: u64 = 0;
    for b in digits {
        value = value.checked_mul(10)?.checked_add(u64::from(*b - b'0'))?;
    }
    Some(value)
}

/// The number that the bytes begin with, and the rest.
#[tactic(auto, unfolding(crate::specs::Words::number_at))]
pub(crate) fn number(bytes: &[u8]) -> Option<(u64, &[u8])>
    ensures { option_map (λ x. (x.0, x.1.now)) result ≡ number_at bytes.now }
{
    let (front, rest) = bytes.split_at(digits(bytes));
    if !is_plain(front) {
        return None;
    }
    let value = value(front)?;
    Some((value, rest))
}

/// The number from `least` to `most` that the bytes begin with, and the rest.
#[tactic(auto, unfolding(crate::specs::Words::within))]
pub(crate) fn within(bytes: &[u8], least: u32, most: u32) -> Option<(u32, &[u8])>
    ensures exact { option_map (λ x. (x.0, x.1.now)) result ≡ within least most bytes.now }
    ensures range { IfSome result (λ x. (least ≤ x.0) × (x.0 ≤ most)) }
{
    let (value, rest) = number(bytes)?;
    if u64::from(least) <= value && value <= u64::from(most) {
        Some((value as u32, rest))
    } else {
        None
    }
}

fn text_len(bytes: &[u8]) -> usize
    ensures count { result ≡ prefix_len is_text_byte bytes.now }
    ensures within { result ≤ length bytes.now }
{
    bytes
        .iter()
        .take_while(|b| **b >= 32 && **b <= 126 && **b != b'\'')
        .count()
}

/// The text before a quote that ends the line.
#[tactic(auto, unfolding(crate::specs::Words::closed))]
fn closed(bytes: &[u8]) -> Option<&[u8]>
    ensures { option_map (λ text. text.now) result ≡ closed bytes.now }
{
    let n = text_len(bytes);
    if bytes.len() == n + 1 && bytes[n] == b'\'' {
        Some(&bytes[..n])
    } else {
        None
    }
}

/// The text of `'TEXT'` at the end of the line.
pub(crate) fn text(bytes: &[u8]) -> Option<&[u8]>
    ensures { option_map (λ text. text.now) result ≡ text_at bytes.now }
{
    let rest = after(bytes, b"'")?;
    closed(rest)
}

fn name_len(bytes: &[u8]) -> usize
    ensures count { result ≡ name_len bytes.now }
    ensures within { result ≤ length bytes.now }
{
    bytes
        .iter()
        .take_while(|b| b.is_ascii_alphanumeric()
            || **b == b'.'
            || **b == b'_'
            || **b == b'-'
            || **b == b'/')
        .count()
}

/// The name that these bytes spell, where a user may give it to a file and it has at most `most` bytes.
fn given(bytes: &[u8], most: usize) -> Option<Name>
    ensures exact { is_some result ≡ is_given most bytes.now }
    ensures same { IfSome result (λ name. name ≡ bytes.now) }
{
    let name = Name::read_bytes(bytes)?;
    if bytes.len() <= most && !name.is_delta() {
        Some(name)
    } else {
        None
    }
}

/// The name before a quote that the bytes begin with, and the rest.
#[tactic(auto, unfolding(crate::specs::Words::named))]
fn named(bytes: &[u8], most: usize) -> Option<(Name, &[u8])>
    ensures { option_map (λ x. (x.0, x.1.now)) result ≡ named most bytes.now }
{
    let (front, rest) = bytes.split_at(name_len(bytes));
    let name = given(front, most)?;
    let rest = after(rest, b"'")?;
    Some((name, rest))
}

/// The name of `'NAME'` that the bytes begin with, of at most `most` bytes, and the rest.
#[tactic(auto, unfolding(crate::specs::Words::name_at))]
pub(crate) fn name(bytes: &[u8], most: usize) -> Option<(Name, &[u8])>
    ensures { option_map (λ x. (x.0, x.1.now)) result ≡ name_at most bytes.now }
{
    let rest = after(bytes, b"'")?;
    named(rest, most)
}

fn table_len(bytes: &[u8]) -> usize
    ensures count { result ≡ prefix_len is_table_byte bytes.now }
    ensures within { result ≤ length bytes.now }
{
    bytes
        .iter()
        .take_while(|b| b.is_ascii_alphanumeric() || **b == b'_')
        .count()
}

/// The name of a table that the bytes begin with, and the rest.
#[tactic(auto, unfolding(crate::specs::Words::table_at))]
pub(crate) fn table(bytes: &[u8]) -> Option<(TableName, &[u8])>
    ensures { option_map (λ x. (x.0, x.1.now)) result ≡ table_at bytes.now }
{
    let (front, rest) = bytes.split_at(table_len(bytes));
    let name = TableName::read_bytes(front)?;
    Some((name, rest))
}
