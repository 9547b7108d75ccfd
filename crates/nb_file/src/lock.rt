// Opening, locking, and waiting for a lock.
use crate::disk::{Disk, Sharing};
use crate::failure::{Call, Failure, named};
use crate::folder::look_up;
use crate::holder::holder_of;
use crate::stamp::Stamp;
use nb_host::Name;
use std::alloc::Global;
use std::fs::{OpenFile, OpenOptions};
use std::io::{self, ErrorKind};
use std::os::fd::AsRawFd;
use std::rt::{Clock, Files};
use std::thread;
use std::time::Duration;

/// How long it is until a lock is tried again, in milliseconds.
const PAUSE: u64 = 50;

/// How often it is tried in a second.
const TRIES_A_SECOND: u64 = 20;

/// What comes of opening and locking a file once.
#[derive(Drop)]
enum Tried<F: Drop> {
    /// It is open and locked, and its name leads to it.
    Locked(F),
    /// Another program has it locked: this file.
    Refused(Stamp),
    /// It is locked, and its name doesn't lead to it any more: another program has removed it, or put another in its place.
    Gone,
}

/// Opens the file and locks it. Where another program has it, that is tried again until so many seconds have passed.
///
/// Each time it is opened anew: what the other program has may be a file that it removes, or puts another in the place of, and then
/// a lock of it says nothing of the file that has the name. For the same reason the name has to lead to the file once it is locked. Where a file
/// is to be made no lock is waited for: by then it is there, and can't be made once more.
pub fn open_locked<R: Files + Clock>(
    alloc: Global,
    rt: &R,
    name: &Name,
    how: &OpenOptions,
    seconds: u64,
) -> Result<R::File, Failure>
where
    R::File: Disk + AsRawFd,
{
    let tries = if how.asks_create_new() {
        0
    } else {
        seconds.saturating_mul(TRIES_A_SECOND)
    };
    for _ in 0..tries {
        if let Tried::Locked(file) = try_locked(rt, name, how)? {
            return Ok(file);
        }
        thread::sleep(rt, Duration::from_millis(PAUSE));
        // By now something else may stand under the name, as a FIFO, which isn't opened.
        named(look_up(rt, name), name, Call::Open)?;
    }
    match try_locked(rt, name, how)? {
        Tried::Locked(file) => Ok(file),
        Tried::Refused(file) => Err(Failure::InUse(name.copied(), holder_of(alloc, rt, &file))),
        Tried::Gone => Err(Failure::InUse(name.copied(), None)),
    }
}

/// Opens the file, and locks it: alone where it is opened to write, else with those who read it.
fn try_locked<R: Files>(rt: &R, name: &Name, how: &OpenOptions) -> Result<Tried<R::File>, Failure>
where
    R::File: Disk + AsRawFd,
{
    let file = open_new_or_old(rt, name, how)?;
    let sharing = if how.asks_write() {
        Sharing::NoOne
    } else {
        Sharing::Readers
    };
    let is_locked = named(file.lock(sharing), name, Call::Lock)?;
    let stamp = named(file.stamp(), name, Call::Open)?;
    if !is_locked {
        return Ok(Tried::Refused(stamp));
    }
    match named(look_up(rt, name), name, Call::Open)? {
        Some(found) if Stamp::of(&found).is_of(&stamp) => Ok(Tried::Locked(file)),
        _ => Ok(Tried::Gone),
    }
}

/// Opens the file. One that is to be made and is there was made by another program since the name was looked at.
fn open_new_or_old<R: Files>(rt: &R, name: &Name, how: &OpenOptions) -> Result<R::File, Failure>
where
    R::File: AsRawFd,
{
    match open_by(rt, name, how) {
        Err(error) if how.asks_create_new() && error.kind() == ErrorKind::AlreadyExists => {
            Err(Failure::CameToBe(name.copied()))
        }
        outcome => named(outcome, name, Call::Open),
    }
}

// Opens the file. Where a standard stream was closed the system gives its number to the next file, and what is meant for
// the stream would land in the file.
fn open_by<R: Files>(rt: &R, name: &Name, how: &OpenOptions) -> io::Result<R::File>
where
    R::File: AsRawFd,
{
    let file = how.open(rt, name.as_str())?;
    if file.as_raw_fd() <= 2 {
        return file.try_clone();
    }
    Ok(file)
}
