// The host.
ghost use Rattle.std.specs.Prelude.{◌≡◌, ◌⊎◌, [], ◌∷◌, false, take, None, Ok, IfOk, ◌++◌, IfErr, OnOk};
ghost use Rattle.nb_host.specs.Causes.{CountsFault, own_count};
ghost use Rattle.nb_file.specs.Nothing.{silence, silence_timely, untold};

use crate::disk::Disk;
use crate::failure::Failure;
use crate::guid::draw;
use crate::held::place_of;
use crate::progress::{Moved, Progress, Shown};
use crate::said::Said;
use crate::table::Table;
use nb_host::{Host, HostFault, Name};
use std::alloc::{AllocError, Global};
use std::io::ErrorKind;
use std::marker::Model;
use std::os::fd::AsRawFd;
use std::rt::{Clock, Files};

/// Real files, the standard output, the system's random bytes and its clock.
///
/// Contracts see its count of faults, whether bytes wait to be written, and which names are held alone: of what its files hold it tells nothing.
#[derive(Drop)]
pub struct FileHost<R: Files + Drop>
where
    R::File: Disk,
{
    rt: R,
    files: Table<R>,
    faults: u64,
    shown: Option<Shown>,
    said: Said,
}

impl<R: Files + Drop> Model for FileHost<R>
where
    R::File: Disk,
{
    ghost use Rattle.nb_file.specs.Outside.{Outside};

    ghost Value = { Outside };

    ghost view = { λ host. record { faults = host.faults; waiting = host.files.waiting.name; said = host.said; alone = host.files.alone } };
}

impl<R: Files + Print + Eprint + Clock + Drop> FileHost<R>
where
    R::File: Disk + AsRawFd,
{
    /// A host with no file open and no fault.
    pub fn new(rt: R, alloc: Global) -> FileHost<R>
        ensures { result ≡ record { faults = 0; waiting = None; said = []; alone = [] } }
    {
        FileHost {
            rt,
            files: Table::new(alloc),
            faults: 0,
            shown: None,
            said: Said::new(alloc),
        }
    }

    /// What it works over.
    pub fn runtime(&self) -> R
    where
        R: Copy,
    {
        self.rt
    }

    /// From now on it is shown on the standard error how far the run has come.
    pub fn show_progress(&mut self, progress: Progress)
        ensures { self.new ≡ self.old }
    {
        self.shown = Some(Shown::new(&self.rt, progress));
    }

    /// Shows it no longer, and takes away the line that stands on the terminal, if one does.
    pub fn end_progress(&mut self)
        ensures { self.new ≡ self.old }
    {
        self.clear_line();
        self.shown = None;
    }

    fn clear_line(&mut self)
        ensures { self.new ≡ self.old }
    {
        if let Some(shown) = &mut self.shown {
            shown.clear(&self.rt);
        }
    }

    /// Counts bytes of a file that were moved from that place on, where it is shown how far the run has come.
    fn note(&mut self, moved: Moved, name: &Name, at: u64, count: usize)
        ensures { self.new ≡ self.old }
    {
        if let Some(shown) = &mut self.shown {
            let count = count as u64;
            shown.note(&self.rt, moved, name, at.saturating_add(count), count);
        }
    }

    /// The same of bytes that were added at its end.
    fn note_append(&mut self, name: &Name, count: usize)
        ensures { self.new ≡ self.old }
    {
        if self.shown.is_some() {
            let end = self.files.known_length(name).unwrap_or(0);
            self.note(
                Moved::Written,
                name,
                end.saturating_sub(count as u64),
                count,
            );
        }
    }

    /// From now on the file of that name, and its difference file, are held alone from their first use of any kind on, as by a run that
    /// changes them. Where there is no right to write one, it is opened to read and shared. Where there is no memory for the name nothing changes.
    pub fn hold_alone(&mut self, name: Name) -> Result<(), AllocError>
        ensures held { OnOk result (self.new ≡ record self.old { alone = self.old.alone ++ name ∷ [] }) }
        ensures same { IfErr result (λ error. self.new ≡ self.old) }
    {
        self.files.hold_alone(name)
    }

    /// Whether the run has the file of that name open to write, so that no other program has it.
    pub fn holds_alone(&self, name: &Name) -> bool {
        self.files.holds_alone(name)
    }

    /// From now on a lock that another program has is tried again until so many seconds have passed. At first it is not.
    pub fn wait_for_locks(&mut self, seconds: u64)
        ensures { self.new ≡ self.old }
    {
        self.files.patience = seconds;
    }

    /// The bytes that were said last, also where that failed: the first 4,096 of them, and none where there was no memory for them.
    pub fn last_said(&self) -> &[u8]
        ensures { result.now ≡ self.now.said }
    {
        self.said.as_slice()
    }

    /// How many calls have failed. At the last value of a `u64` it stands still.
    pub fn fault_count(&self) -> u64
        ensures { result ≡ self.now.faults }
    {
        self.faults
    }

    /// Gives the system the bytes that wait to be written. A reply does so too; the end of the program doesn't. None wait after it, also
    /// where it fails.
    pub fn flush(&mut self) -> Result<(), HostFault>
        ensures none { self.new.waiting ≡ None }
        ensures cause { CountsFault result (own_count self.old.faults) (own_count self.new.faults) }
    {
        let outcome = self.files.flush();
        self.answer(outcome)
    }

    /// Counts a fault where the system failed, and says on the standard error what failed, but not that nobody reads the output any more.
    fn answer<T: Drop>(&mut self, outcome: Result<T, Failure>) -> Result<T, HostFault>
        ensures value { IfOk result (λ value. outcome ≡ Ok value) }
        ensures waiting { self.new.waiting ≡ self.old.waiting }
        ensures said { self.new.said ≡ self.old.said }
        ensures alone { self.new.alone ≡ self.old.alone }
        ensures cause { CountsFault result (own_count self.old.faults) (own_count self.new.faults) }
    {
        match outcome {
            Ok(value) => Ok(value),
            Err(failure) => {
                self.clear_line();
                if failure.is_said() {
                    // Nothing is left to do where the standard error fails too.
                    let _ = eprintln!(self.rt; "nehumiro: {failure}");
                }
                self.faults = self.faults.saturating_add(1);
                Err(HostFault)
            }
        }
    }

    /// Writes what waits, and then the reply: no write that has its reply lies in memory.
    fn reply(&mut self, bytes: &[u8]) -> Result<(), Failure>
        ensures none { self.new.waiting ≡ None }
        ensures said { (self.new.said ≡ take 4096 bytes.now) ⊎ (self.new.said ≡ []) }
        ensures faults { self.new.faults ≡ self.old.faults }
    {
        self.said.keep(bytes);
        self.clear_line();
        self.files.flush()?;
        // The runtime has no buffer: each byte was given to the system before this answers Ok.
        match self.rt.write_all(bytes) {
            Ok(()) => Ok(()),
            Err(error) if error.kind() == ErrorKind::BrokenPipe => Err(Failure::NoReader),
            Err(error) => Err(Failure::Of("standard output", error)),
        }
    }
}

impl<R: Files + Print + Eprint + Clock + Drop> Host for FileHost<R>
where
    R::File: Disk + AsRawFd,
{
    ghost tells = { false };

    ghost world = { λ _. silence };

    ghost faults = { λ host. own_count host.faults };

    ghost timely = { λ _. silence_timely };

    ghost reads_left = { λ _ told _. untold told };

    fn size(&mut self, name: &Name) -> Result<Option<u64>, HostFault> {
        let outcome = self.files.size(&self.rt, name);
        self.answer(outcome)
    }

    fn make(&mut self, name: &Name) -> Result<(), HostFault> {
        let outcome = self.files.make(&self.rt, name);
        self.answer(outcome)
    }

    fn remove(&mut self, name: &Name) -> Result<(), HostFault> {
        let outcome = self.files.remove(&self.rt, name);
        self.answer(outcome)
    }

    fn read_page(&mut self, name: &Name, index: u32, into: &mut [u8]) -> Result<bool, HostFault> {
        let at = place_of(index, into);
        let outcome = self.files.read_whole(&self.rt, name, at, into);
        self.note(Moved::Read, name, at, into.len());
        self.answer(outcome)
    }

    fn write_page(&mut self, name: &Name, index: u32, page: &[u8]) -> Result<(), HostFault> {
        let outcome = self.files.write_page(&self.rt, name, index, page);
        self.note(Moved::Written, name, place_of(index, page), page.len());
        self.answer(outcome)
    }

    fn read_at(&mut self, name: &Name, at: u64, into: &mut [u8]) -> Result<usize, HostFault> {
        let outcome = self.files.read_some(&self.rt, name, at, into);
        if let Ok(count) = &outcome {
            self.note(Moved::Read, name, at, *count);
        }
        self.answer(outcome)
    }

    fn append(&mut self, name: &Name, bytes: &[u8]) -> Result<(), HostFault> {
        let outcome = self.files.append(&self.rt, name, bytes);
        self.note_append(name, bytes.len());
        self.answer(outcome)
    }

    fn sync(&mut self, name: &Name) -> Result<(), HostFault> {
        let outcome = self.files.sync(&self.rt, name);
        self.answer(outcome)
    }

    fn say(&mut self, bytes: &[u8]) -> Result<(), HostFault> {
        let outcome = self.reply(bytes);
        self.answer(outcome)
    }

    fn guid(&mut self) -> Result<[u8; 16], HostFault> {
        let outcome = match draw(&self.rt) {
            Ok(guid) => Ok(guid),
            Err(error) => Err(Failure::Of("/dev/urandom", error)),
        };
        self.answer(outcome)
    }

    fn seconds(&mut self) -> Result<u64, HostFault> {
        let outcome = match self.rt.since_1970() {
            Ok(time) => Ok(time.as_secs()),
            Err(error) => Err(Failure::Of("clock", error)),
        };
        self.answer(outcome)
    }
}
