ghost use Rattle.std.specs.Prelude.{◌≡◌, Option, None, Some, OnOk, OnErr};
ghost use Rattle.std.specs.List.{position};
ghost use Rattle.std.specs.Option.{option_copied};
ghost use Rattle.nb_host.specs.Files.{with_file, with_page, with_bytes};
ghost use Rattle.nb_host.specs.Names.{same_name};
ghost use Rattle.nb_mem.specs.Changes.{file_after};
ghost use Rattle.nb_mem.specs.Slots.{files_in, names_in};
ghost use Rattle.nb_mem.specs.Chosen.{with_name};

use crate::bytes::Bytes;
use crate::entry::Change;
use nb_host::Name;
use std::alloc::{AllocError, Global};

/// A file under its name, or that there is none.
#[derive(Drop)]
pub struct Slot {
    pub name: Name,
    pub file: Option<Bytes>,
}

pub fn write(
    alloc: Global,
    file: &mut Option<Bytes>,
    at: usize,
    page: &[u8],
) -> Result<(), AllocError>
    ensures ok { OnOk result (file.new ≡ with_page file.old at page.now) }
    ensures err { OnErr result (file.new ≡ file.old) }
{
    match file {
        Some(bytes) => bytes.put(at, page)?,
        None => {
            let mut bytes = Bytes::new(alloc);
            bytes.put(at, page)?;
            *file = Some(bytes);
        }
    }
    Ok(())
}

pub fn extend(alloc: Global, file: &mut Option<Bytes>, more: &[u8]) -> Result<(), AllocError>
    ensures ok { OnOk result (file.new ≡ with_bytes file.old more.now) }
    ensures err { OnErr result (file.new ≡ file.old) }
{
    match file {
        Some(bytes) => bytes.append(more)?,
        None => *file = Some(Bytes::copy(alloc, more)?),
    }
    Ok(())
}

/// Does a change to one file. Where memory runs out the file stays.
pub fn change_file(
    alloc: Global,
    file: &mut Option<Bytes>,
    change: &Change,
) -> Result<(), AllocError>
    ensures ok { OnOk result (file.new ≡ file_after change.now file.old) }
    ensures err { OnErr result (file.new ≡ file.old) }
{
    match change {
        Change::Placed(bytes) => *file = Some(Bytes::copy(alloc, bytes.as_slice())?),
        Change::Made => *file = Some(Bytes::new(alloc)),
        Change::Removed => *file = None,
        Change::Paged(at, page) => write(alloc, file, *at, page.as_slice())?,
        Change::Appended(more) => extend(alloc, file, more.as_slice())?,
        Change::Synced => {}
    }
    Ok(())
}

/// The place of the file of that name.
fn place(slots: &[Slot], name: &Name) -> Option<usize>
    ensures { result ≡ position (λ s. same_name name.now s.name) slots.now }
{
    slots.iter().position(|slot| *name == slot.name)
}

pub fn file_of<'a>(slots: &'a [Slot], name: &Name) -> Option<&'a Bytes>
    ensures { option_copied result ≡ files_in slots.now name.now }
{
    match place(slots, name) {
        Some(at) => slots[at].file.as_ref(),
        None => None,
    }
}

pub fn change_slot(
    alloc: Global,
    slots: &mut Vec<Slot>,
    name: &Name,
    change: &Change,
) -> Result<(), AllocError>
    ensures ok { OnOk result (files_in slots.new.items ≡ with_file (files_in slots.old.items) name.now (file_after change.now (files_in slots.old.items name.now))) }
    ensures names { OnOk result (names_in slots.new.items ≡ with_name name.now (names_in slots.old.items)) }
    ensures err { OnErr result (files_in slots.new.items ≡ files_in slots.old.items) }
    ensures same_names { OnErr result (names_in slots.new.items ≡ names_in slots.old.items) }
{
    match place(slots, name) {
        Some(at) => {
            let slot = &mut slots[at];
            change_file(alloc, &mut slot.file, change)?;
        }
        None => {
            let mut file = None;
            change_file(alloc, &mut file, change)?;
            let name = name.copied();
            slots.push(Slot { name, file })?;
        }
    }
    Ok(())
}
