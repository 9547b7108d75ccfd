// One open file: what is written to it, read of it and kept of it.
ghost use Rattle.std.specs.Prelude.{◌≡◌, ◌++◌, ◌+◌, ◌*◌, ◌<◌, ◌≤◌, ℕ, [], IsTrue, true, false, length, take, drop, Some, None, IsErr, IfOk, OnOk, OnErr};
ghost use Rattle.nb_host.specs.Files.{put_at};
ghost use Rattle.nb_host.specs.Calls.{ReadsBytes, ReadsPage};
ghost use Rattle.nb_file.specs.Fetched.{IsPart};
ghost use Rattle.nb_file.specs.Contents.{with_waiting};
ghost use Rattle.nb_file.specs.Gathered.{IsFreeFor, IsNext};
ghost use Rattle.nb_file.specs.Resized.{IsSameUpTo};
ghost use Rattle.nb_file.specs.Whole.{IsWhole, AreOf};

use crate::ahead::Ahead;
use crate::disk::Disk;
use crate::folder::sync_folder;
use crate::growth::put_whole;
use crate::stamp::Stamp;
use crate::state::State;
use crate::waiting::Waiting;
use nb_host::Name;
use std::alloc::Global;
use std::io::{self, ErrorKind};
use std::rt::Files;

/// A file that is open under its name.
///
/// What it holds is what the system has of it, and over it what waits for it, which the table keeps.
#[derive(Drop)]
pub struct Held<F: Disk + Drop> {
    pub name: Name,
    /// It was opened to write, so that nobody else has it.
    pub can_write: bool,
    /// Which file it is, and how it stood when it was opened.
    pub stamp: Stamp,
    file: F,
    pub state: State,
    ahead: Ahead,
    ghost measured: { IsTrue F.tells → state.is_lost ≡ false → state.len ≡ length (F.bytes file) },
    ghost fetched: { IsTrue F.tells → IsPart ahead.at (take ahead.count ahead.bytes.items) (F.bytes file) },
}

impl<F: Disk + Drop> Held<F> {
    /// Takes a file that was just opened and locked. What is no file is an error.
    pub fn new(
        alloc: Global,
        name: Name,
        file: F,
        can_write: bool,
        is_new: bool,
    ) -> io::Result<Held<F>>
        ensures name { IfOk result (λ held. held.name ≡ name) }
        ensures fresh { IfOk result (λ held. (held.state.is_dirty ≡ is_new) × (held.state.is_kept ≡ false) × (held.state.is_lost ≡ false)) }
        ensures file { IfOk result (λ held. (held.file ≡ file) × (held.can_write ≡ can_write)) }
    {
        let len = file.measure()?;
        let stamp = file.stamp()?;
        Ok(Held {
            name,
            can_write,
            stamp,
            file,
            state: State::opened(len, is_new),
            ahead: Ahead::new(alloc),
        })
    }

    /// In bytes, with what waits for it.
    pub fn length(&self, waiting: &Waiting) -> io::Result<u64>
        ensures lost { self.now.state.is_lost ≡ true → IsErr result }
        ensures len { IsTrue F.tells → IfOk result (λ len. len ≡ length (with_waiting waiting.now self.now.name (F.bytes self.now.file))) }
    {
        self.state.check()?;
        if !waiting.is_for(&self.name) {
            return Ok(self.state.len);
        }
        match waiting.end() {
            Some(end) => Ok(self.state.len.max(end)),
            None => Err(ErrorKind::FileTooLarge.into()),
        }
    }

    /// Puts the bytes into the file, in pieces of that length. Where that fails the file is lost.
    fn put(&mut self, at: u64, bytes: &[u8], piece: u64) -> io::Result<()>
        requires some { 0 < piece }
        requires whole { IsWhole piece (at + length bytes.now) }
        ensures bytes { IsTrue F.tells → OnOk result (F.bytes self.new.file ≡ put_at (F.bytes self.old.file) at bytes.now) }
        ensures whole { IsTrue F.tells → IsWhole piece (length (F.bytes self.old.file)) → IsWhole piece (length (F.bytes self.new.file)) }
        ensures undone { IsTrue F.tells → 1 < piece → OnErr result (F.failed self.new.file ≡ F.failed self.old.file + 1 → IsSameUpTo at (F.bytes self.old.file) (F.bytes self.new.file)) }
        ensures dirty { OnOk result (self.new.state.is_dirty ≡ true) }
        ensures sure { OnOk result (self.new.state.is_lost ≡ self.old.state.is_lost) }
        ensures lost { OnErr result (self.new.state.is_lost ≡ true) }
        ensures same { (self.new.name ≡ self.old.name) × (self.new.can_write ≡ self.old.can_write) × (self.new.state.is_kept ≡ self.old.state.is_kept) }
    {
        self.state.check()?;
        let Some(end) = at.checked_add(bytes.len() as u64) else {
            self.state.wrote(at, false);
            return Err(ErrorKind::FileTooLarge.into());
        };
        self.ahead.forget();
        let outcome = put_whole(&mut self.file, self.state.len, at, bytes, piece);
        self.state.wrote(end, outcome.is_ok());
        outcome
    }

    /// Writes what waits for it. Nothing waits after it, and where it fails the file is lost.
    pub fn flush(&mut self, waiting: &mut Waiting) -> io::Result<()>
        requires mine { IsFreeFor waiting.old.name self.old.name }
        ensures none { waiting.new.name ≡ None }
        ensures bytes { IsTrue F.tells → OnOk result (F.bytes self.new.file ≡ with_waiting waiting.old self.old.name (F.bytes self.old.file)) }
        ensures whole { IsTrue F.tells → (page : ℕ) → AreOf page waiting.old.name waiting.old.piece → IsWhole page (length (F.bytes self.old.file)) → IsWhole page (length (F.bytes self.new.file)) }
        ensures undone { IsTrue F.tells → 1 < waiting.old.piece → OnErr result (F.failed self.new.file ≡ F.failed self.old.file + 1 → IsSameUpTo waiting.old.at (F.bytes self.old.file) (F.bytes self.new.file)) }
        ensures sure { OnOk result (self.new.state.is_lost ≡ self.old.state.is_lost) }
        ensures lost { OnErr result (self.new.state.is_lost ≡ true) }
        ensures same { (self.new.name ≡ self.old.name) × (self.new.can_write ≡ self.old.can_write) × (self.new.state.is_kept ≡ self.old.state.is_kept) }
    {
        if waiting.is_empty() {
            return Ok(());
        }
        let outcome = self.put(waiting.at, &waiting.bytes, waiting.piece);
        waiting.clear();
        outcome
    }

    /// Writes what waits for it, unless pieces of that length at that place follow that.
    fn make_way(&mut self, waiting: &mut Waiting, at: u64, piece: u64) -> io::Result<()>
        requires mine { IsFreeFor waiting.old.name self.old.name }
        ensures next { OnOk result (IsNext waiting.new.name waiting.new.at (length waiting.new.bytes.items) at) }
        ensures mine { IsFreeFor waiting.new.name self.new.name }
        ensures lost { self.old.state.is_lost ≡ true → IsErr result }
        ensures bytes { IsTrue F.tells → OnOk result (with_waiting waiting.new self.new.name (F.bytes self.new.file) ≡ with_waiting waiting.old self.old.name (F.bytes self.old.file)) }
        ensures whole { IsTrue F.tells → AreOf piece waiting.old.name waiting.old.piece → IsWhole piece (length (F.bytes self.old.file)) → IsWhole piece (length (F.bytes self.new.file)) }
        ensures follow { OnOk result (AreOf piece waiting.new.name waiting.new.piece) }
        ensures pieces { AreOf piece waiting.old.name waiting.old.piece → AreOf piece waiting.new.name waiting.new.piece }
        ensures same { (self.new.name ≡ self.old.name) × (self.new.can_write ≡ self.old.can_write) × (self.new.state.is_kept ≡ self.old.state.is_kept) }
    {
        self.state.check()?;
        if waiting.takes(at, piece) {
            return Ok(());
        }
        self.flush(waiting)
    }

    /// Writes all the bytes at that place, in pieces of that length, or lets them wait. Where the file is shorter, zeros stand between.
    fn write(&mut self, waiting: &mut Waiting, at: u64, bytes: &[u8], piece: u64) -> io::Result<()>
        requires mine { IsFreeFor waiting.old.name self.old.name }
        requires some { 0 < piece }
        requires whole { IsWhole piece (at + length bytes.now) }
        ensures mine { IsFreeFor waiting.new.name self.new.name }
        ensures lost { self.old.state.is_lost ≡ true → IsErr result }
        ensures bytes { IsTrue F.tells → OnOk result (
            with_waiting waiting.new self.new.name (F.bytes self.new.file)
            ≡ put_at (with_waiting waiting.old self.old.name (F.bytes self.old.file)) at bytes.now) }
        ensures whole { IsTrue F.tells → AreOf piece waiting.old.name waiting.old.piece → IsWhole piece (length (F.bytes self.old.file)) → IsWhole piece (length (F.bytes self.new.file)) }
        ensures pieces { AreOf piece waiting.old.name waiting.old.piece → AreOf piece waiting.new.name waiting.new.piece }
        ensures same { (self.new.name ≡ self.old.name) × (self.new.can_write ≡ self.old.can_write) × (self.new.state.is_kept ≡ self.old.state.is_kept) }
    {
        self.make_way(waiting, at, piece)?;
        if waiting.gather(&self.name, at, bytes, piece) {
            return Ok(());
        }
        self.flush(waiting)?;
        self.put(at, bytes, piece)
    }

    /// Writes a page at place `index`, counted in pages of its length, or lets it wait. Where the file is shorter, zeros stand between.
    ///
    /// A file that is a whole number of such pages long stays so, also where this fails.
    pub fn write_page(&mut self, waiting: &mut Waiting, index: u32, page: &[u8]) -> io::Result<()>
        requires mine { IsFreeFor waiting.old.name self.old.name }
        requires some { 0 < length page.now }
        requires short { length page.now ≤ 32768 }
        ensures mine { IsFreeFor waiting.new.name self.new.name }
        ensures lost { self.old.state.is_lost ≡ true → IsErr result }
        ensures bytes { IsTrue F.tells → OnOk result (
            with_waiting waiting.new self.new.name (F.bytes self.new.file)
            ≡ put_at (with_waiting waiting.old self.old.name (F.bytes self.old.file)) (index * length page.now) page.now) }
        ensures whole { IsTrue F.tells → AreOf (length page.now) waiting.old.name waiting.old.piece → IsWhole (length page.now) (length (F.bytes self.old.file)) → IsWhole (length page.now) (length (F.bytes self.new.file)) }
        ensures pieces { AreOf (length page.now) waiting.old.name waiting.old.piece → AreOf (length page.now) waiting.new.name waiting.new.piece }
        ensures same { (self.new.name ≡ self.old.name) × (self.new.can_write ≡ self.old.can_write) × (self.new.state.is_kept ≡ self.old.state.is_kept) }
    {
        self.write(waiting, place_of(index, page), page, page.len() as u64)
    }

    /// Adds the bytes at its end.
    pub fn append(&mut self, waiting: &mut Waiting, bytes: &[u8]) -> io::Result<()>
        requires mine { IsFreeFor waiting.old.name self.old.name }
        ensures mine { IsFreeFor waiting.new.name self.new.name }
        ensures lost { self.old.state.is_lost ≡ true → IsErr result }
        ensures bytes { IsTrue F.tells → OnOk result (
            with_waiting waiting.new self.new.name (F.bytes self.new.file)
            ≡ with_waiting waiting.old self.old.name (F.bytes self.old.file) ++ bytes.now) }
        ensures same { (self.new.name ≡ self.old.name) × (self.new.can_write ≡ self.old.can_write) × (self.new.state.is_kept ≡ self.old.state.is_kept) }
    {
        let at = self.length(waiting)?;
        self.write(waiting, at, bytes, 1)
    }

    /// Fetches more than so many bytes from `at` on, where the file is read in sequence.
    fn look_ahead(&mut self, at: u64, count: usize)
        ensures same { (self.new.name ≡ self.old.name) × (self.new.can_write ≡ self.old.can_write) × (self.new.state ≡ self.old.state) × (self.new.file ≡ self.old.file) }
    {
        if self.ahead.is_due(at, count) && !self.ahead.has(at, count) {
            // Where more can't be fetched, what was asked for still may be.
            let _ = self.ahead.fill(&self.file, at, self.state.len);
        }
    }

    /// Fills `into` from `at` on, from what was fetched or from the file.
    fn copy_to(&self, at: u64, into: &mut [u8]) -> io::Result<()>
        ensures { IsTrue F.tells → OnOk result (into.new ≡ take (length into.old) (drop at (F.bytes self.now.file))) }
    {
        if self.ahead.give(at, into) {
            return Ok(());
        }
        self.file.fetch(at, into)
    }

    /// Fills `into` from `at` on.
    fn fill(&mut self, at: u64, into: &mut [u8]) -> io::Result<()>
        ensures bytes { IsTrue F.tells → OnOk result (into.new ≡ take (length into.old) (drop at (F.bytes self.old.file))) }
        ensures same { (self.new.name ≡ self.old.name) × (self.new.can_write ≡ self.old.can_write) × (self.new.state ≡ self.old.state) × (self.new.file ≡ self.old.file) }
    {
        self.look_ahead(at, into.len());
        self.copy_to(at, into)?;
        self.ahead.note(at, into.len());
        Ok(())
    }

    /// Fills `into` from `at` on, and answers whether the file has so many bytes. Where it has not, nothing is read.
    pub fn read_whole(
        &mut self,
        waiting: &mut Waiting,
        at: u64,
        into: &mut [u8],
    ) -> io::Result<bool>
        ensures lost { self.old.state.is_lost ≡ true → IsErr result }
        ensures whole { IsTrue F.tells → (page : ℕ) → AreOf page waiting.old.name waiting.old.piece → IsWhole page (length (F.bytes self.old.file)) → IsWhole page (length (F.bytes self.new.file)) }
        ensures answer { IsTrue F.tells → IfOk result (ReadsPage (Some (with_waiting waiting.old self.old.name (F.bytes self.old.file))) at into.old into.new) }
    {
        self.settle(waiting)?;
        if self.state.len < at || self.state.len - at < into.len() as u64 {
            return Ok(false);
        }
        self.fill(at, into)?;
        Ok(true)
    }

    /// Fills `into` from `at` on, as far as the file goes, and answers how many bytes there were.
    pub fn read_some(
        &mut self,
        waiting: &mut Waiting,
        at: u64,
        into: &mut [u8],
    ) -> io::Result<usize>
        ensures lost { self.old.state.is_lost ≡ true → IsErr result }
        ensures room { IfOk result (λ count. count ≤ length into.old) }
        ensures whole { IsTrue F.tells → (page : ℕ) → AreOf page waiting.old.name waiting.old.piece → IsWhole page (length (F.bytes self.old.file)) → IsWhole page (length (F.bytes self.new.file)) }
        ensures answer { IsTrue F.tells → IfOk result (ReadsBytes (Some (with_waiting waiting.old self.old.name (F.bytes self.old.file))) at into.old into.new) }
    {
        self.settle(waiting)?;
        let left = self.state.len.saturating_sub(at);
        let count = left.min(into.len() as u64) as usize;
        self.fill(at, &mut into[..count])?;
        Ok(count)
    }

    /// Writes what waits for it, if something does, before it is read.
    fn settle(&mut self, waiting: &mut Waiting) -> io::Result<()>
        ensures lost { self.old.state.is_lost ≡ true → IsErr result }
        ensures sure { OnOk result (self.new.state.is_lost ≡ false) }
        ensures bytes { IsTrue F.tells → OnOk result (F.bytes self.new.file ≡ with_waiting waiting.old self.old.name (F.bytes self.old.file)) }
        ensures whole { IsTrue F.tells → (page : ℕ) → AreOf page waiting.old.name waiting.old.piece → IsWhole page (length (F.bytes self.old.file)) → IsWhole page (length (F.bytes self.new.file)) }
        ensures same { (self.new.name ≡ self.old.name) × (self.new.can_write ≡ self.old.can_write) × (self.new.state.is_kept ≡ self.old.state.is_kept) }
    {
        self.state.check()?;
        if waiting.is_for(&self.name) {
            self.flush(waiting)?;
        }
        Ok(())
    }

    /// Takes all its bytes away, and what waits for it too. A file that was lost is so no longer, since nothing of it is
    /// left that is unsure.
    pub fn empty(&mut self, waiting: &mut Waiting) -> io::Result<()>
        requires mine { IsFreeFor waiting.old.name self.old.name }
        ensures none { waiting.new.name ≡ None }
        ensures bytes { IsTrue F.tells → OnOk result (F.bytes self.new.file ≡ []) }
        ensures whole { IsTrue F.tells → (page : ℕ) → IsWhole page (length (F.bytes self.old.file)) → IsWhole page (length (F.bytes self.new.file)) }
        ensures fresh { OnOk result ((self.new.state.is_dirty ≡ true) × (self.new.state.is_lost ≡ false)) }
        ensures lost { OnErr result (self.new.state.is_lost ≡ true) }
        ensures kept { self.new.state.is_kept ≡ false }
        ensures same { (self.new.name ≡ self.old.name) × (self.new.can_write ≡ self.old.can_write) }
    {
        waiting.clear();
        self.ahead.forget();
        let outcome = self.file.resize(0);
        self.state.emptied(outcome.is_ok());
        outcome
    }

    /// Keeps its bytes for good, as far as none wait. Where that fails the file is lost.
    pub fn keep(&mut self) -> io::Result<()>
        ensures lost { self.old.state.is_lost ≡ true → IsErr result }
        ensures clean { OnOk result ((self.new.state.is_dirty ≡ false) × (self.new.state.is_lost ≡ false)) }
        ensures durable { IsTrue F.tells → OnOk result (F.is_durable self.new.file ≡ true) }
        ensures bytes { IsTrue F.tells → F.bytes self.new.file ≡ F.bytes self.old.file }
        ensures fails { OnErr result (self.new.state.is_lost ≡ true) }
        ensures same { (self.new.name ≡ self.old.name) × (self.new.can_write ≡ self.old.can_write) × (self.new.state.is_kept ≡ self.old.state.is_kept) }
    {
        self.state.check()?;
        let outcome = self.file.keep();
        self.state.synced(outcome.is_ok());
        outcome
    }

    /// Leaves nothing to do but to close it.
    pub fn finish(&mut self) -> io::Result<()>
        ensures { OnOk result ((self.new.state.is_dirty ≡ false) × (self.new.state.is_lost ≡ false)) }
    {
        if self.state.is_dirty {
            self.keep()
        } else {
            self.state.check()
        }
    }

    /// Keeps for good its bytes, as far as none wait, and that its name is there. Where that fails the file is lost.
    pub fn sync<R: Files>(&mut self, rt: &R) -> io::Result<()>
        ensures lost { self.old.state.is_lost ≡ true → IsErr result }
        ensures clean { OnOk result ((self.new.state.is_dirty ≡ false) × (self.new.state.is_lost ≡ false) × (self.new.state.is_kept ≡ true)) }
        ensures durable { IsTrue F.tells → OnOk result (F.is_durable self.new.file ≡ true) }
        ensures bytes { IsTrue F.tells → F.bytes self.new.file ≡ F.bytes self.old.file }
        ensures fails { OnErr result ((self.new.state.is_lost ≡ true) × (self.new.state.is_kept ≡ self.old.state.is_kept)) }
        ensures same { (self.new.name ≡ self.old.name) × (self.new.can_write ≡ self.old.can_write) }
    {
        self.keep()?;
        if self.state.is_kept {
            return Ok(());
        }
        let outcome = sync_folder(rt, &self.name);
        self.state.folder_synced(outcome.is_ok());
        outcome
    }
}

/// Where page `index` begins, counted in pages of the length of `page`.
pub fn place_of(index: u32, page: &[u8]) -> u64
    requires { length page.now ≤ 32768 }
    ensures { result ≡ index * length page.now }
{
    u64::from(index) * page.len() as u64
}
