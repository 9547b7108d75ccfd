ghost use Rattle.std.specs.Prelude.{◌≡◌, ◌≤◌, [], length, is_some, IfSome, IfOk};
ghost use Rattle.nb_host.specs.declared.faults.Fault.TheVariants.{Refused};
ghost use Rattle.nb_host.specs.declared.refusals.Refusal.TheVariants.{BadScript};
ghost use Rattle.nb_host.specs.Causes.{CountsDevice, FaultCount};
ghost use Rattle.nb_model.specs.Words.{is_file};
ghost use Rattle.nb_script.specs.Lines.{left};
ghost use Rattle.nb_catalog.specs.Answers.{Says};
ghost use Rattle.nb_catalog.specs.NameLists.{AreDistinct, is_listed, is_next, names_on, list_of};

use nb_host::{Fault, Name, Refusal};
use nb_model::NameList;
use nb_script::{Lines, MOST_BYTES};
use std::alloc::Global;

/// How many names a list has at most.
pub const MOST_NAMES: usize = 1000;

/// The name that a line spells, where a user may give it.
fn name_on(line: &[u8]) -> Option<Name>
    ensures exact { is_some result ≡ is_file line.now }
    ensures same { IfSome result (λ name. name ≡ line.now) }
{
    let name = Name::read_bytes(line)?;
    if name.is_delta() { None } else { Some(name) }
}

/// Whether a name is one of these.
fn is_listed(names: &[Name], name: &Name) -> bool
    ensures { result ≡ is_listed names.now name.now }
{
    names.contains(name)
}

/// The name that a line spells, where a user may give it and it is none of those before.
fn next_name(before: &[Name], line: &[u8]) -> Option<Name>
    ensures exact { is_some result ≡ is_next before.now line.now }
    ensures same { IfSome result (λ name. name ≡ line.now) }
{
    let name = name_on(line)?;
    if is_listed(before, &name) {
        None
    } else {
        Some(name)
    }
}

fn bad(line: u32) -> Fault
    ensures { result ≡ Refused (BadScript line) }
{
    Fault::Refused(Refusal::BadScript { line })
}

/// The names on these lines, 1,000 at most, and each once.
fn names_on(alloc: Global, mut lines: Lines<'_>) -> Result<NameList, Fault>
    ensures exact { Says (names_on 1000 [] (left lines.entry.passed lines.entry.rest.now)) result }
    ensures most { IfOk result (λ names. length names ≤ 1000) }
    ensures cause { (faults : FaultCount) → CountsDevice result faults faults }
{
    let mut names = NameList::new(alloc);
    while let Some(line) = lines.next() {
        if names.len() == MOST_NAMES {
            return Err(bad(lines.passed()));
        }
        let Some(name) = next_name(names.as_slice(), line) else {
            return Err(bad(lines.passed()));
        };
        names.push(name)?;
    }
    Ok(names)
}

/// The list of names that the bytes spell, one name a line. Empty lines and lines that begin with `#` are skipped.
///
/// `ScriptLong` where there are more than 1,048,576 bytes, and `BadScript` otherwise: with the first line, from 1, that is no name
/// which a user may give, has a name that stood on a line before, or the 1,001st name; or, where no line has a name, with the number
/// of lines plus 1. Want of memory is the only other fault.
#[tactic(auto, unfolding(crate::specs::NameLists::list_of, crate::specs::NameLists::some_names_on))]
pub fn read_list(alloc: Global, bytes: &[u8]) -> Result<NameList, Fault>
    ensures exact { Says (list_of bytes.now) result }
    ensures some { IfOk result (λ names. 1 ≤ length names) }
    ensures most { IfOk result (λ names. length names ≤ 1000) }
    ensures distinct { IfOk result AreDistinct }
    ensures cause { (faults : FaultCount) → CountsDevice result faults faults }
{
    if bytes.len() > MOST_BYTES {
        let bytes = bytes.len() as u64;
        return Err(Fault::Refused(Refusal::ScriptLong { bytes }));
    }
    let lines = Lines::new(bytes);
    let mut ahead = lines;
    let Some(_) = ahead.next() else {
        return Err(bad(ahead.passed() + 1));
    };
    let names = names_on(alloc, lines)?;
    Ok(names)
}
