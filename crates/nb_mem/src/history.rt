ghost use Rattle.std.specs.Prelude.{◌≡◌, ◌<◌, ◌^◌, [], ◌∷◌, length, IfOk, OnOk, OnErr};
ghost use Rattle.std.specs.Option.{option_copied};
ghost use Rattle.nb_mem.specs.declared.entry.Entry.{Entry as Call};
ghost use Rattle.nb_mem.specs.Histories.{files_of, said_of, reads_of, guids_of, times_of, with_guids};
ghost use Rattle.nb_mem.specs.Outcomes.{placed, IsLeft};
ghost use Rattle.nb_mem.specs.Chosen.{picked};

use crate::bytes::Bytes;
use crate::choices::Choices;
use crate::entry::{Change, Entry, Question};
use crate::left::left_of;
use crate::slots::{Slot, change_slot, file_of};
use nb_host::Name;
use std::alloc::{AllocError, Global};
use std::marker::Model;

/// The calls that were answered with no fault, and what they come to, so that no question goes through
/// them again. Contracts see it as the list of the calls, the newest first.
///
/// Where memory runs out, nothing changes.
#[derive(Drop)]
pub struct History {
    alloc: Global,
    calls: Vec<Entry>,
    slots: Vec<Slot>,
    said: Vec<u8>,
    reads: u64,
    guids: u64,
    times: u64,
}

impl Model for History {
    ghost use Rattle.std.specs.Prelude.{List, reverse};
    ghost use Rattle.nb_mem.specs.declared.entry.Entry.{Entry as Call};

    ghost Value = { List Call };

    ghost use Rattle.nb_mem.specs.Current.{IsCurrent};

    ghost view = { λ h. reverse h.calls.items };

    ghost invariant = { IsCurrent };
}

impl History {
    pub fn new(alloc: Global) -> History
        ensures { result ≡ [] }
    {
        History {
            alloc,
            calls: Vec::new(alloc),
            slots: Vec::new(alloc),
            said: Vec::new(alloc),
            reads: 0,
            guids: 0,
            times: 0,
        }
    }

    pub fn change(&mut self, name: &Name, change: Change) -> Result<(), AllocError>
        ensures ok { OnOk result (self.new ≡ Call.Changed name.now change ∷ self.old) }
        ensures err { OnErr result (self.new ≡ self.old) }
    {
        self.calls.reserve(1)?;
        change_slot(self.alloc, &mut self.slots, name, &change)?;
        self.calls
            .push_reserved(Entry::Changed(name.copied(), change));
        Ok(())
    }

    /// Puts a page at that byte of a file.
    pub fn write(&mut self, name: &Name, at: usize, page: &[u8]) -> Result<(), AllocError>
        ensures ok { OnOk result (self.new ≡ Call.Changed name.now (Change.Paged at page.now) ∷ self.old) }
        ensures err { OnErr result (self.new ≡ self.old) }
    {
        let page = Bytes::copy(self.alloc, page)?;
        self.change(name, Change::Paged(at, page))?;
        Ok(())
    }

    pub fn append(&mut self, name: &Name, bytes: &[u8]) -> Result<(), AllocError>
        ensures ok { OnOk result (self.new ≡ Call.Changed name.now (Change.Appended bytes.now) ∷ self.old) }
        ensures err { OnErr result (self.new ≡ self.old) }
    {
        let bytes = Bytes::copy(self.alloc, bytes)?;
        self.change(name, Change::Appended(bytes))?;
        Ok(())
    }

    pub fn place(&mut self, name: &Name, bytes: &[u8]) -> Result<(), AllocError>
        ensures ok { OnOk result (self.new ≡ Call.Changed name.now (Change.Placed bytes.now) ∷ self.old) }
        ensures err { OnErr result (self.new ≡ self.old) }
    {
        let bytes = Bytes::copy(self.alloc, bytes)?;
        self.change(name, Change::Placed(bytes))?;
        Ok(())
    }

    pub fn say(&mut self, bytes: &[u8]) -> Result<(), AllocError>
        ensures ok { OnOk result (self.new ≡ Call.Said bytes.now ∷ self.old) }
        ensures err { OnErr result (self.new ≡ self.old) }
    {
        let copy = Bytes::copy(self.alloc, bytes)?;
        self.calls.reserve(1)?;
        self.said.extend_from_slice(bytes)?;
        self.calls.push_reserved(Entry::Said(copy));
        Ok(())
    }

    pub fn ask_size(&mut self) -> Result<(), AllocError>
        ensures ok { OnOk result (self.new ≡ Call.Asked Question.Size ∷ self.old) }
        ensures err { OnErr result (self.new ≡ self.old) }
    {
        self.calls.push(Entry::Asked(Question::Size))?;
        Ok(())
    }

    pub fn ask_read(&mut self) -> Result<(), AllocError>
        ensures ok { OnOk result (self.new ≡ Call.Asked Question.Read ∷ self.old) }
        ensures err { OnErr result (self.new ≡ self.old) }
    {
        self.calls.push(Entry::Asked(Question::Read))?;
        self.reads += 1;
        Ok(())
    }

    pub fn ask_guid(&mut self) -> Result<(), AllocError>
        ensures ok { OnOk result (self.new ≡ Call.Asked Question.Guid ∷ self.old) }
        ensures err { OnErr result (self.new ≡ self.old) }
    {
        self.calls.push(Entry::Asked(Question::Guid))?;
        self.guids += 1;
        Ok(())
    }

    /// Gives so many GUIDs, which nobody asked for.
    pub fn give_guids(&mut self, count: u64) -> Result<(), AllocError>
        ensures { OnOk result (self.new ≡ with_guids count self.old) }
    {
        for _ in 0..count {
            self.ask_guid()?;
        }
        Ok(())
    }

    pub fn ask_time(&mut self) -> Result<(), AllocError>
        ensures ok { OnOk result (self.new ≡ Call.Asked Question.Time ∷ self.old) }
        ensures err { OnErr result (self.new ≡ self.old) }
    {
        self.calls.push(Entry::Asked(Question::Time))?;
        self.times += 1;
        Ok(())
    }

    /// Places a file where there is one.
    fn place_left(&mut self, name: &Name, file: Option<Bytes>) -> Result<(), AllocError>
        ensures { OnOk result (self.new ≡ placed name.now file self.old) }
    {
        match file {
            Some(bytes) => {
                self.place(name, bytes.as_slice())?;
                Ok(())
            }
            None => Ok(()),
        }
    }

    /// What a crash now leaves, by the pick, as if it had just been placed.
    pub fn left(&self, pick: u64) -> Result<History, AllocError>
        ensures left { IfOk result (λ left. IsLeft self.now left) }
        ensures picked { IfOk result (λ left. left ≡ picked pick self.now) }
    {
        let mut left = History::new(self.alloc);
        let mut choices = Choices::new(pick);
        for slot in &self.slots {
            let file = left_of(self.alloc, &self.calls, &slot.name, &mut choices)?;
            left.place_left(&slot.name, file)?;
        }
        Ok(left)
    }

    pub fn file(&self, name: &Name) -> Option<&[u8]>
        ensures { option_copied result ≡ files_of self.now name.now }
    {
        match file_of(&self.slots, name) {
            Some(bytes) => Some(bytes.as_slice()),
            None => None,
        }
    }

    pub fn said(&self) -> &[u8]
        ensures { result.now ≡ said_of self.now }
    {
        self.said.as_slice()
    }

    pub fn reads(&self) -> u64
        ensures { result ≡ reads_of self.now }
    {
        self.reads
    }

    pub fn guids(&self) -> u64
        ensures { result ≡ length (guids_of self.now) }
    {
        self.guids
    }

    pub fn times(&self) -> u64
        ensures count { result ≡ length (times_of self.now) }
        ensures bound { result < 2 ^ 63 }
    {
        self.times
    }
}
