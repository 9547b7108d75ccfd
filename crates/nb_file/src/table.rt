// The open files.
ghost use Rattle.std.specs.Prelude.{◌≡◌, ◌≢◌, ◌+◌, ◌++◌, ◌<◌, ◌≤◌, ℕ, List, [], ◌∷◌, true, false, IsTrue, IfErr, length, None, IfOk, IfSome, OnOk, MatchOption, vec_len};
ghost use Rattle.nb_host.specs.Names.{is_name, delta_suffix};
ghost use Rattle.nb_file.specs.Absent.{has_name};
ghost use Rattle.nb_file.specs.Gathered.{IsFreeFor};
ghost use Rattle.nb_file.specs.Named.{IsNamedAt};

use crate::absent::Absent;
use crate::alone::Alone;
use crate::disk::Disk;
use crate::failure::{Call, Failure, named};
use crate::folder::{look_up, main_of, sync_folder};
use crate::held::Held;
use crate::lock::open_locked;
use crate::stamp::Stamp;
use crate::waiting::Waiting;
use nb_host::Name;
use std::alloc::{AllocError, Global};
use std::fs::{self, OpenOptions};
use std::io::ErrorKind;
use std::os::fd::AsRawFd;
use std::os::unix::fs::OpenOptionsExt;
use std::rt::{Clock, Files};

/// How many files are open at most.
const MOST_OPEN: usize = 64;

/// The files that were named, in the order in which they were opened, and what waits to be written to one of them. They
/// stay open.
///
/// A file that is only read or synced is opened to read and locked with other readers. Before it is written, emptied or removed it
/// is opened to write and locked against everyone, by whatever name they have it. The files that are held alone are so from their first
/// use on, and their difference files too.
///
/// What a run has seen under a name is what it changes. Where it saw no file it makes a new one, and where it read one under a lock that readers
/// share it writes that one as it was read. If another program was there meanwhile that is a failure, and nothing of its file is changed.
#[derive(Drop)]
pub struct Table<R: Files + Drop>
where
    R::File: Disk,
{
    alloc: Global,
    files: Vec<Held<R::File>>,
    waiting: Waiting,
    /// The names that led to no file.
    absent: Absent,
    /// The files that are held alone from their first use of any kind on.
    pub alone: Alone,
    /// For how many seconds a lock that another program has is tried again.
    pub patience: u64,
    ghost few: { vec_len files ≤ 64 },
}

impl<R: Files + Clock + Drop> Table<R>
where
    R::File: Disk + AsRawFd,
{
    /// None is open, and nothing waits.
    pub fn new(alloc: Global) -> Table<R>
        ensures { (result.waiting.name ≡ None) × (result.absent ≡ []) × (result.alone ≡ []) }
    {
        Table {
            alloc,
            files: Vec::new(alloc),
            waiting: Waiting::new(alloc),
            absent: Absent::new(alloc),
            alone: Alone::new(alloc),
            patience: 0,
        }
    }

    fn index_of(&self, name: &Name) -> Option<usize>
        ensures place { IfSome result (λ i. i < vec_len self.now.files) }
        ensures name { IfSome result (IsNamedAt self.now.files.items (λ held. held.name) name.now) }
    {
        self.files.iter().position(|held| held.name == *name)
    }

    /// Writes what waits. Nothing waits after it, also where it fails.
    pub fn flush(&mut self) -> Result<(), Failure>
        ensures none { self.new.waiting.name ≡ None }
        ensures count { vec_len self.new.files ≡ vec_len self.old.files }
        ensures absent { self.new.absent ≡ self.old.absent }
    {
        let name = match &self.waiting.name {
            Some(name) => name.copied(),
            None => return Ok(()),
        };
        self.flush_to(&name)
    }

    fn flush_to(&mut self, name: &Name) -> Result<(), Failure>
        requires { IsFreeFor self.old.waiting.name name.now }
        ensures none { self.new.waiting.name ≡ None }
        ensures count { vec_len self.new.files ≡ vec_len self.old.files }
        ensures absent { self.new.absent ≡ self.old.absent }
    {
        match self.index_of(name) {
            Some(i) => {
                let outcome = self.files[i].flush(&mut self.waiting);
                named(outcome, name, Call::Write)
            }
            None => {
                self.waiting.clear();
                named(Err(ErrorKind::NotFound.into()), name, Call::Write)
            }
        }
    }

    /// Writes what waits for another file.
    fn turn_to(&mut self, name: &Name) -> Result<(), Failure>
        ensures free { IsFreeFor self.new.waiting.name name.now }
        ensures absent { self.new.absent ≡ self.old.absent }
    {
        if self.waiting.is_for(name) {
            return Ok(());
        }
        self.flush()
    }

    /// The open file of this name. Where it is not open yet, it is opened to read, if there is one, and one that is held alone
    /// to write.
    fn find(&mut self, rt: &R, name: &Name) -> Result<Option<usize>, Failure>
        ensures place { IfOk result (λ found. IfSome found (λ i. i < vec_len self.new.files)) }
        ensures name { IfOk result (λ found. IfSome found (IsNamedAt self.new.files.items (λ held. held.name) name.now)) }
        ensures none { self.old.waiting.name ≡ None → self.new.waiting.name ≡ None }
        ensures remembered { IfOk result (λ found. found ≡ None → has_name self.new.absent name.now ≡ true) }
        ensures others { (other : List ℕ) → has_name self.old.absent other ≡ true → has_name self.new.absent other ≡ true }
    {
        if let Some(i) = self.index_of(name) {
            return Ok(Some(i));
        }
        if self.is_alone(name) {
            return self.find_alone(rt, name);
        }
        self.find_to_read(rt, name)
    }

    /// Holds the file of that name alone from now on. Where there is no memory for it nothing changes.
    pub fn hold_alone(&mut self, name: Name) -> Result<(), AllocError>
        ensures held { OnOk result (self.new.alone ≡ self.old.alone ++ name ∷ []) }
        ensures same { IfErr result (λ error. self.new.alone ≡ self.old.alone) }
        ensures waiting { self.new.waiting ≡ self.old.waiting }
    {
        self.alone.add(name)
    }

    /// Whether it is a file that is held alone, or the difference file of one.
    fn is_alone(&self, name: &Name) -> bool
        ensures main { ((main : List ℕ) → name.now ≢ main ++ delta_suffix) → result ≡ has_name self.now.alone name.now }
        ensures delta { (main : List ℕ) → IsTrue (is_name main) → name.now ≡ main ++ delta_suffix → result ≡ has_name self.now.alone main }
    {
        match main_of(name) {
            Some(main) => self.alone.has(&main),
            None => self.alone.has(name),
        }
    }

    /// A file that is held alone: open to write, unless it can only be read.
    fn find_alone(&mut self, rt: &R, name: &Name) -> Result<Option<usize>, Failure>
        ensures place { IfOk result (λ found. IfSome found (λ i. i < vec_len self.new.files)) }
        ensures name { IfOk result (λ found. IfSome found (IsNamedAt self.new.files.items (λ held. held.name) name.now)) }
        ensures none { self.old.waiting.name ≡ None → self.new.waiting.name ≡ None }
        ensures remembered { IfOk result (λ found. found ≡ None → has_name self.new.absent name.now ≡ true) }
        ensures others { (other : List ℕ) → has_name self.old.absent other ≡ true → has_name self.new.absent other ≡ true }
    {
        match self.claim(rt, name) {
            Err(Failure::OnFile(_, Call::Open, error)) if is_read_only(error.kind()) => {
                self.find_to_read(rt, name)
            }
            answer => answer,
        }
    }

    /// The file of this name, open to read and shared with other readers, if there is one.
    fn find_to_read(&mut self, rt: &R, name: &Name) -> Result<Option<usize>, Failure>
        ensures place { IfOk result (λ found. IfSome found (λ i. i < vec_len self.new.files)) }
        ensures name { IfOk result (λ found. IfSome found (IsNamedAt self.new.files.items (λ held. held.name) name.now)) }
        ensures none { self.old.waiting.name ≡ None → self.new.waiting.name ≡ None }
        ensures remembered { IfOk result (λ found. found ≡ None → has_name self.new.absent name.now ≡ true) }
        ensures others { (other : List ℕ) → has_name self.old.absent other ≡ true → has_name self.new.absent other ≡ true }
    {
        if !self.is_there(rt, name)? {
            return Ok(None);
        }
        let mut how = OpenOptions::new();
        how.read(true);
        self.open(rt, name, &how).map(Some)
    }

    /// Looks whether the name leads to a file. Where it doesn't that is remembered.
    fn is_there(&mut self, rt: &R, name: &Name) -> Result<bool, Failure>
        ensures remembered { IfOk result (λ there. there ≡ false → has_name self.new.absent name.now ≡ true) }
        ensures others { (other : List ℕ) → has_name self.old.absent other ≡ true → has_name self.new.absent other ≡ true }
        ensures same { (self.new.waiting ≡ self.old.waiting) × (self.new.files ≡ self.old.files) }
    {
        if named(look_up(rt, name), name, Call::Open)?.is_some() {
            return Ok(true);
        }
        self.absent.add(name)?;
        Ok(false)
    }

    /// The file of this name, open to write and locked, if there is one.
    fn claim(&mut self, rt: &R, name: &Name) -> Result<Option<usize>, Failure>
        ensures place { IfOk result (λ found. IfSome found (λ i. i < vec_len self.new.files)) }
        ensures name { IfOk result (λ found. IfSome found (IsNamedAt self.new.files.items (λ held. held.name) name.now)) }
        ensures free { IsFreeFor self.old.waiting.name name.now → IsFreeFor self.new.waiting.name name.now }
        ensures none { self.old.waiting.name ≡ None → self.new.waiting.name ≡ None }
        ensures remembered { IfOk result (λ found. found ≡ None → has_name self.new.absent name.now ≡ true) }
        ensures others { (other : List ℕ) → has_name self.old.absent other ≡ true → has_name self.new.absent other ≡ true }
    {
        if let Some(i) = self.index_of(name) {
            if self.files[i].can_write {
                return Ok(Some(i));
            }
            named(self.files[i].state.check(), name, Call::Open)?;
        }
        self.open_to_write(rt, name)
    }

    /// Opens the file of this name to write, if there is one. Where the name led to no file before, one that it leads to now is another
    /// program's: that is a failure, and the file isn't opened.
    fn open_to_write(&mut self, rt: &R, name: &Name) -> Result<Option<usize>, Failure>
        ensures place { IfOk result (λ found. IfSome found (λ i. i < vec_len self.new.files)) }
        ensures name { IfOk result (λ found. IfSome found (IsNamedAt self.new.files.items (λ held. held.name) name.now)) }
        ensures absent { has_name self.old.absent name.now ≡ true → IfOk result (λ found. found ≡ None) }
        ensures remembered { IfOk result (λ found. found ≡ None → has_name self.new.absent name.now ≡ true) }
        ensures free { IsFreeFor self.old.waiting.name name.now → IsFreeFor self.new.waiting.name name.now }
        ensures none { self.old.waiting.name ≡ None → self.new.waiting.name ≡ None }
        ensures others { (other : List ℕ) → has_name self.old.absent other ≡ true → has_name self.new.absent other ≡ true }
    {
        let was_absent = self.absent.has(name);
        if !self.is_there(rt, name)? {
            return Ok(None);
        }
        if was_absent {
            return Err(Failure::CameToBe(name.copied()));
        }
        let mut how = OpenOptions::new();
        how.read(true).write(true);
        self.open(rt, name, &how).map(Some)
    }

    /// The file of this name, open to write and locked. Where there is no file, it is made.
    fn claim_or_make(&mut self, rt: &R, name: &Name) -> Result<usize, Failure>
        ensures place { IfOk result (λ i. i < vec_len self.new.files) }
        ensures name { IfOk result (IsNamedAt self.new.files.items (λ held. held.name) name.now) }
        ensures free { IsFreeFor self.old.waiting.name name.now → IsFreeFor self.new.waiting.name name.now }
    {
        match self.claim(rt, name)? {
            Some(i) => Ok(i),
            None => {
                self.claim_main(rt, name)?;
                self.create(rt, name)
            }
        }
    }

    /// Claims the main file, where the name is that of a difference file: who may not write the one would leave the other in the way of
    /// those who may. What waits is written before.
    fn claim_main(&mut self, rt: &R, name: &Name) -> Result<(), Failure>
        ensures free { IsFreeFor self.old.waiting.name name.now → IsFreeFor self.new.waiting.name name.now }
    {
        let Some(main) = main_of(name) else {
            return Ok(());
        };
        self.flush()?;
        match self.claim(rt, &main)? {
            Some(_) => Ok(()),
            None => named(Err(ErrorKind::NotFound.into()), &main, Call::Open),
        }
    }

    /// Makes the file of this name, empty, open to write and locked. One that is there is left as it is, and is a failure.
    fn create(&mut self, rt: &R, name: &Name) -> Result<usize, Failure>
        ensures place { IfOk result (λ i. i < vec_len self.new.files) }
        ensures name { IfOk result (IsNamedAt self.new.files.items (λ held. held.name) name.now) }
        ensures free { IsFreeFor self.old.waiting.name name.now → IsFreeFor self.new.waiting.name name.now }
    {
        let mut how = OpenOptions::new();
        how.read(true).write(true).create_new(true).mode(0o660);
        let place = self.open(rt, name, &how)?;
        self.absent.forget(name);
        Ok(place)
    }

    /// Opens the file, in the place of one that was opened to read, and locks it. What waits is written before. It has to be the file that was
    /// opened to read, as it was then.
    fn open(&mut self, rt: &R, name: &Name, how: &OpenOptions) -> Result<usize, Failure>
        ensures place { IfOk result (λ i. i < vec_len self.new.files) }
        ensures name { IfOk result (IsNamedAt self.new.files.items (λ held. held.name) name.now) }
        ensures none { self.new.waiting.name ≡ None }
        ensures absent { self.new.absent ≡ self.old.absent }
    {
        let before = self.stamp_of(name);
        self.make_room()?;
        // A lock of our own on the same file would keep us out. Once it is given up, and until the other is taken, another program may
        // take it and change the file. That is why the file that a run changes is held alone from its first use on, and why one that was
        // only read till now is compared.
        self.files.retain(|held| held.name != *name);
        let file = open_locked(self.alloc, rt, name, how, self.patience)?;
        if let Some(before) = before {
            if !named(file.stamp(), name, Call::Open)?.is_same(&before) {
                return Err(Failure::Changed(name.copied()));
            }
        }
        self.add(name, file, how)
    }

    /// How the file of this name stood when it was opened, if it is open.
    fn stamp_of(&self, name: &Name) -> Option<Stamp> {
        match self.index_of(name) {
            Some(i) => Some(self.files[i].stamp),
            None => None,
        }
    }

    fn add(&mut self, name: &Name, file: R::File, how: &OpenOptions) -> Result<usize, Failure>
        requires { vec_len self.old.files < 64 }
        ensures place { IfOk result (λ i. i < vec_len self.new.files) }
        ensures name { IfOk result (IsNamedAt self.new.files.items (λ held. held.name) name.now) }
        ensures waiting { self.new.waiting ≡ self.old.waiting }
        ensures absent { self.new.absent ≡ self.old.absent }
    {
        let held = Held::new(
            self.alloc,
            name.copied(),
            file,
            how.asks_write(),
            how.asks_create_new(),
        );
        self.files.push(named(held, name, Call::Open)?)?;
        Ok(self.files.len() - 1)
    }

    /// Closes a file, where as many are open as may be, and answers it. What waits is written before. Nothing is lost by it:
    /// all that was written to the file is synced, a lost file is never closed, and where it is opened again its first sync
    /// keeps the folder anew.
    fn make_room(&mut self) -> Result<Option<Held<R::File>>, Failure>
        ensures room { OnOk result (vec_len self.new.files < 64) }
        ensures count { IfOk result (λ closed. MatchOption closed (vec_len self.new.files ≡ vec_len self.old.files) (λ _. vec_len self.new.files + 1 ≡ vec_len self.old.files)) }
        ensures clean { IfOk result (λ closed. IfSome closed (λ held. (held.state.is_dirty ≡ false) × (held.state.is_lost ≡ false))) }
        ensures none { self.new.waiting.name ≡ None }
        ensures absent { self.new.absent ≡ self.old.absent }
    {
        self.flush()?;
        if self.files.len() < MOST_OPEN {
            return Ok(None);
        }
        match self.first_to_close() {
            Some(i) => self.close(i).map(Some),
            None => Err(Failure::Of("open files", ErrorKind::Other.into())),
        }
    }

    /// The file that was opened first of those that are only read, so that no lock against everyone is given up; where there
    /// is none, of those that are not lost, nor held alone from their first use on.
    fn first_to_close(&self) -> Option<usize>
        ensures { IfSome result (λ i. i < vec_len self.now.files) }
    {
        let reader = self
            .files
            .iter()
            .position(|held| !held.can_write && !held.state.is_lost);
        if reader.is_some() {
            return reader;
        }
        self.files
            .iter()
            .position(|held| !held.state.is_lost && !self.is_alone(&held.name))
    }

    /// Closes a file, for which nothing is left to do then.
    fn close(&mut self, i: usize) -> Result<Held<R::File>, Failure>
        requires place { i < vec_len self.old.files }
        ensures count { OnOk result (vec_len self.new.files + 1 ≡ vec_len self.old.files) }
        ensures clean { IfOk result (λ held. (held.state.is_dirty ≡ false) × (held.state.is_lost ≡ false)) }
        ensures same { self.new.waiting ≡ self.old.waiting }
        ensures absent { self.new.absent ≡ self.old.absent }
    {
        let held = &mut self.files[i];
        let outcome = held.finish();
        named(outcome, &held.name, Call::Sync)?;
        Ok(self.files.remove(i))
    }

    /// Whether the file of this name is open to write, so that nobody else has it.
    pub fn holds_alone(&self, name: &Name) -> bool {
        match self.index_of(name) {
            Some(i) => self.files[i].can_write,
            None => false,
        }
    }

    /// The length in bytes of a file that is open, with what waits for it. Nothing is asked of the system.
    pub fn known_length(&self, name: &Name) -> Option<u64> {
        match self.index_of(name) {
            Some(i) => self.files[i].length(&self.waiting).ok(),
            None => None,
        }
    }

    /// The file's length in bytes, if there is one.
    pub fn size(&mut self, rt: &R, name: &Name) -> Result<Option<u64>, Failure> {
        self.flush()?;
        match self.find(rt, name)? {
            Some(i) => named(self.files[i].length(&self.waiting), name, Call::Read).map(Some),
            None => Ok(None),
        }
    }

    /// Leaves an empty file of that name. A difference file is made only beside a main file that this process may write.
    pub fn make(&mut self, rt: &R, name: &Name) -> Result<(), Failure> {
        self.claim_main(rt, name)?;
        self.turn_to(name)?;
        match self.claim(rt, name)? {
            Some(i) => {
                let outcome = self.files[i].empty(&mut self.waiting);
                named(outcome, name, Call::Empty)
            }
            None => self.create(rt, name).map(|_| ()),
        }
    }

    /// Takes the file away, and what waits for it.
    pub fn remove(&mut self, rt: &R, name: &Name) -> Result<(), Failure>
        ensures remembered { OnOk result (has_name self.new.absent name.now ≡ true) }
    {
        self.turn_to(name)?;
        if self.claim(rt, name)?.is_none() {
            return Ok(());
        }
        self.absent.add(name)?; // What comes to be there from now on isn't this run's.
        match fs::remove_file(rt, name.as_str()) {
            Err(error) if error.kind() != ErrorKind::NotFound => {
                return named(Err(error), name, Call::Remove);
            }
            _ => {}
        }
        self.waiting.clear();
        self.files.retain(|held| held.name != *name);
        Ok(())
    }

    pub fn read_whole(
        &mut self,
        rt: &R,
        name: &Name,
        at: u64,
        into: &mut [u8],
    ) -> Result<bool, Failure> {
        match self.find(rt, name)? {
            Some(i) => {
                let outcome = self.files[i].read_whole(&mut self.waiting, at, into);
                named(outcome, name, Call::Read)
            }
            None => Ok(false),
        }
    }

    pub fn read_some(
        &mut self,
        rt: &R,
        name: &Name,
        at: u64,
        into: &mut [u8],
    ) -> Result<usize, Failure>
        ensures { IfOk result (λ count. count ≤ length into.old) }
    {
        match self.find(rt, name)? {
            Some(i) => {
                let outcome = self.files[i].read_some(&mut self.waiting, at, into);
                named(outcome, name, Call::Read)
            }
            None => Ok(0),
        }
    }

    pub fn write_page(
        &mut self,
        rt: &R,
        name: &Name,
        index: u32,
        page: &[u8],
    ) -> Result<(), Failure>
        requires some { 0 < length page.now }
        requires short { length page.now ≤ 32768 }
        ensures { OnOk result (IsFreeFor self.new.waiting.name name.now) }
    {
        self.turn_to(name)?;
        let i = self.claim_or_make(rt, name)?;
        let outcome = self.files[i].write_page(&mut self.waiting, index, page);
        named(outcome, name, Call::Write)
    }

    pub fn append(&mut self, rt: &R, name: &Name, bytes: &[u8]) -> Result<(), Failure>
        ensures { OnOk result (IsFreeFor self.new.waiting.name name.now) }
    {
        self.turn_to(name)?;
        let i = self.claim_or_make(rt, name)?;
        let outcome = self.files[i].append(&mut self.waiting, bytes);
        named(outcome, name, Call::Write)
    }

    /// Keeps the file for good, and writes before what waits. Where there is none, keeps for good that there is none. It needs no right
    /// to write the file, and keeps no reader away.
    pub fn sync(&mut self, rt: &R, name: &Name) -> Result<(), Failure>
        ensures { OnOk result (self.new.waiting.name ≡ None) }
    {
        self.flush()?; // What waits is part of what is kept.
        match self.find(rt, name)? {
            Some(i) => {
                let outcome = self.files[i].sync(rt);
                named(outcome, name, Call::Sync)
            }
            None => named(sync_folder(rt, name), name, Call::Sync),
        }
    }
}

fn is_read_only(kind: ErrorKind) -> bool {
    kind == ErrorKind::PermissionDenied || kind == ErrorKind::ReadOnlyFilesystem
}
