ghost use Rattle.std.specs.Prelude.{◌≡◌, ◌∷◌, List, reverse, MatchOption, IfOk, OnOk};
ghost use Rattle.std.specs.Option.{option_copied};
ghost use Rattle.nb_mem.specs.declared.entry.Entry.{Entry as Call};
ghost use Rattle.nb_mem.specs.Histories.{files_of};
ghost use Rattle.nb_mem.specs.Outcomes.{IsOther};
ghost use Rattle.nb_mem.specs.Chosen.{outcome_by, left_by};

use crate::bytes::Bytes;
use crate::choices::Choices;
use crate::entry::{Change, Entry};
use crate::outcome::{Outcome, length_of};
use crate::slots::change_file;
use nb_host::Name;
use std::alloc::{AllocError, Global};

/// The change of the file of that name, if the call made one.
fn change_of<'a>(entry: &'a Entry, name: &Name) -> Option<&'a Change>
    ensures { MatchOption (option_copied result) (IsOther entry.now name.now) (λ change. entry.now ≡ Call.Changed name.now change) }
{
    match entry {
        Entry::Changed(changed, change) => if *name == *changed {
            Some(change)
        } else {
            None
        },
        Entry::Said(_) => None,
        Entry::Asked(_) => None,
    }
}

/// The file, an outcome and the choices go on by one call.
fn follow_call(
    alloc: Global,
    file: &mut Option<Bytes>,
    outcome: &mut Outcome,
    entry: &Entry,
    name: &Name,
    first: Choices,
    choices: &mut Choices,
) -> Result<(), AllocError>
    ensures file { OnOk result ((es : List Call) → file.old ≡ files_of es name.now → file.new ≡ files_of (entry.now ∷ es) name.now) }
    ensures outcome { OnOk result ((es : List Call) → file.old ≡ files_of es name.now → (outcome.old, choices.old) ≡ outcome_by first es name.now
        → (outcome.new, choices.new) ≡ outcome_by first (entry.now ∷ es) name.now) }
{
    match change_of(entry, name) {
        Some(change) => {
            let len = length_of(file);
            change_file(alloc, file, change)?;
            outcome.follow(alloc, change, len, file, first, choices)?;
            Ok(())
        }
        None => Ok(()),
    }
}

/// What a crash after these calls leaves of the file, by the choices.
#[tactic(auto, unfolding(crate::specs::Chosen::outcome_by))]
pub fn left_of(
    alloc: Global,
    calls: &[Entry],
    name: &Name,
    choices: &mut Choices,
) -> Result<Option<Bytes>, AllocError>
    ensures exact { IfOk result (λ left. left ≡ left_by choices.old (reverse calls.now) name.now) }
    ensures choices { OnOk result (choices.new ≡ (outcome_by choices.old (reverse calls.now) name.now).1) }
{
    let first = *choices;
    let mut file = None;
    let mut outcome = Outcome {
        left: None,
        is_back: false,
    };
    for entry in calls {
        follow_call(alloc, &mut file, &mut outcome, entry, name, first, choices)?;
    }
    Ok(outcome.left)
}
