// Pages of a database that are in danger.
ghost use Rattle.std.specs.Prelude.{◌≡◌, ◌++◌, string_bytes, OnOk, IfOk};
ghost use Rattle.std.specs.Fmt.{decimal};
ghost use Rattle.nb_advice.specs.Dangers.{Tells, dots, first_of, numbers, spaced};

use nb_host::Name;
use std::alloc::{AllocError, Global};

/// How many pages are named at most.
const MOST_NAMED: usize = 10;

/// Appends a number in decimal.
fn push_number(text: &mut String, number: u64) -> Result<(), AllocError>
    ensures { OnOk result (string_bytes text.new ≡ string_bytes text.old ++ decimal number) }
{
    let mut buffer = itoa::Buffer::new();
    text.push_str(buffer.format(number))
}

/// Appends a number in decimal, after a space.
fn push_spaced(text: &mut String, number: u32) -> Result<(), AllocError>
    ensures { OnOk result (string_bytes text.new ≡ string_bytes text.old ++ spaced number) }
{
    text.push_str(" ")?;
    push_number(text, u64::from(number))
}

/// Appends each number, after a space.
fn push_numbers(text: &mut String, pages: &[u32]) -> Result<(), AllocError>
    ensures { OnOk result (string_bytes text.new ≡ string_bytes text.old ++ numbers pages.now) }
{
    for page in pages {
        push_spaced(text, *page)?;
    }
    Ok(())
}

/// The first pages of these, ten at most.
fn first_of(pages: &[u32]) -> &[u32]
    ensures { result.now ≡ first_of pages.now }
{
    if pages.len() > MOST_NAMED {
        &pages[..MOST_NAMED]
    } else {
        pages
    }
}

/// What stands for the pages that aren't named.
fn dots(pages: &[u32]) -> &'static str
    ensures { result.now ≡ dots pages.now }
{
    if pages.len() > MOST_NAMED { " .." } else { "" }
}

/// What is to be said of a database with these pages in danger: how many there are, and the first ten of them. None where there is none.
pub fn in_danger(alloc: Global, db: &Name, pages: &[u32]) -> Result<Option<String>, AllocError>
    ensures { IfOk result (λ text. Tells db.now pages.now text) }
{
    if pages.is_empty() {
        return Ok(None);
    }
    let mut text = String::from_str(alloc, db.as_str())?;
    text.push_str(" has pages in danger, ")?;
    push_number(&mut text, pages.len() as u64)?;
    text.push_str(" in all:")?;
    push_numbers(&mut text, first_of(pages))?;
    text.push_str(dots(pages))?;
    text.push_str(
        ": each is in use and counts as free, or is in use twice, so a change may write over it: copy its rows to a new database, or restore a chain: nehumiro -R NEW FILE..",
    )?;
    Ok(Some(text))
}
