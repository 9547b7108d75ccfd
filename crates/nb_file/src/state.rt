// What is known of one open file.
ghost use Rattle.std.specs.Prelude.{◌≡◌, true, false, max, if◌then◌else◌, OnOk, OnErr};

use std::io;

/// What is known of one open file. Each change of it is told whether the system did what was asked.
#[derive(Clone, Copy)]
pub struct State {
    /// In bytes, as the system has it. Nobody asks it of a lost file.
    pub len: u64,
    /// It was written since its last sync.
    pub is_dirty: bool,
    /// Its folder was synced since the name was made, and in this process.
    pub is_kept: bool,
    /// A write or a sync of it failed, so nothing that was written is sure: each call on it fails, until it is made anew
    /// or removed.
    pub is_lost: bool,
}

impl State {
    /// Of a file that was just opened, with so many bytes. One that was just made must be synced.
    pub fn opened(len: u64, is_new: bool) -> State
        ensures len { result.len ≡ len }
        ensures dirty { result.is_dirty ≡ is_new }
        ensures unsure { (result.is_kept ≡ false) × (result.is_lost ≡ false) }
    {
        State {
            len,
            is_dirty: is_new,
            is_kept: false,
            is_lost: false,
        }
    }

    /// Fails where the file is lost.
    pub fn check(&self) -> io::Result<()>
        ensures sure { OnOk result (self.now.is_lost ≡ false) }
        ensures lost { OnErr result (self.now.is_lost ≡ true) }
    {
        if self.is_lost {
            Err(io::Error::other("an earlier write or sync of it failed"))
        } else {
            Ok(())
        }
    }

    /// Bytes were put that end there.
    pub fn wrote(&mut self, end: u64, is_done: bool)
        ensures len { self.new.len ≡ max self.old.len end }
        ensures dirty { self.new.is_dirty ≡ true }
        ensures lost { self.new.is_lost ≡ if is_done then self.old.is_lost else true }
        ensures same { self.new.is_kept ≡ self.old.is_kept }
    {
        self.len = self.len.max(end);
        self.is_dirty = true;
        self.is_lost |= !is_done;
    }

    /// All its bytes were taken away. A file that was lost is so no longer, since nothing of it is left that is unsure.
    pub fn emptied(&mut self, is_done: bool)
        ensures len { self.new.len ≡ 0 }
        ensures dirty { self.new.is_dirty ≡ true }
        ensures lost { self.new.is_lost ≡ if is_done then false else true }
        ensures kept { self.new.is_kept ≡ false }
    {
        self.len = 0;
        self.is_dirty = true;
        self.is_kept = false;
        self.is_lost = !is_done;
    }

    /// Its bytes were synced.
    pub fn synced(&mut self, is_done: bool)
        ensures dirty { self.new.is_dirty ≡ if is_done then false else self.old.is_dirty }
        ensures lost { self.new.is_lost ≡ if is_done then self.old.is_lost else true }
        ensures same { (self.new.len ≡ self.old.len) × (self.new.is_kept ≡ self.old.is_kept) }
    {
        self.is_dirty &= !is_done;
        self.is_lost |= !is_done;
    }

    /// Its folder was synced.
    pub fn folder_synced(&mut self, is_done: bool)
        ensures kept { self.new.is_kept ≡ if is_done then true else self.old.is_kept }
        ensures lost { self.new.is_lost ≡ if is_done then self.old.is_lost else true }
        ensures same { (self.new.len ≡ self.old.len) × (self.new.is_dirty ≡ self.old.is_dirty) }
    {
        self.is_kept |= is_done;
        self.is_lost |= !is_done;
    }
}
