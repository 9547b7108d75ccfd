// Which process has a lock, as far as the system tells.
ghost use Rattle.std.specs.Prelude.{◌≤◌, length, IfSome};

use crate::stamp::Stamp;
use std::alloc::Global;
use std::fs::File;
use std::io::Read;
use std::rt::Files;
use std::{fmt, str};

/// Where the system tells of all locks, a line for each.
const LOCKS: &str = "/proc/locks";

/// How many bytes of it are read at most, and in how many calls.
const MOST_LOCKS: usize = 65_536;

const MOST_READS: u32 = 64;

/// How many bytes the name of a process has at most, with the end of its line.
const MOST_COMMAND: usize = 16;

/// A process that has a file locked.
#[derive(Drop)]
pub struct Holder {
    process: u64,
    /// The name of its program, where it is known.
    command: Option<String>,
}

impl fmt::Display for Holder {
    fn fmt<W: fmt::Write>(&self, f: &mut fmt::Formatter<W>) -> fmt::Result {
        match &self.command {
            Some(command) => write!(f, "process {} ({command})", self.process),
            None => write!(f, "process {}", self.process),
        }
    }
}

/// The number of a device, of its major and its minor number in hexadecimal digits, as Linux makes it of them.
fn device_of(major: &str, minor: &str) -> Option<u64> {
    let major = u64::from(u16::from_str_radix(major, 16).ok()?);
    let minor = u64::from(u32::from_str_radix(minor, 16).ok()?);
    Some((major << 8) | (minor & 0xff) | ((minor & 0xf_ff00) << 12))
}

/// The device and the inode that three numbers as `08:01:1234` name.
fn node_of(numbers: &str) -> Option<(u64, u64)> {
    let (major, rest) = numbers.split_once(':')?;
    let (minor, inode) = rest.split_once(':')?;
    Some((device_of(major, minor)?, inode.parse::<u64>().ok()?))
}

/// The process of a line as `7: FLOCK ADVISORY WRITE 4242 08:01:1234 0 EOF`, where that is of this device and inode. A lock that is waited for
/// has an arrow in the place of `FLOCK`.
fn process_in(line: &str, node: (u64, u64)) -> Option<u64> {
    let mut words = line.split_whitespace().skip(1);
    if words.next()? != "FLOCK" {
        return None;
    }
    let mut words = words.skip(2);
    let process = words.next()?.parse::<u64>().ok()?;
    if node_of(words.next()?)? == node {
        Some(process)
    } else {
        None
    }
}

/// The process that has this inode of this device locked, by the lines of `/proc/locks`: the first, where several share it.
pub fn process_that_locks(lines: &str, device: u64, inode: u64) -> Option<u64> {
    for line in lines.lines() {
        if let Some(process) = process_in(line, (device, inode)) {
            return Some(process);
        }
    }
    None
}

/// Reads a file of the system from its start, as far as there is room, and answers how many bytes that are.
fn read_front<R: Files>(rt: &R, path: &str, into: &mut [u8]) -> Option<usize>
    ensures { IfSome result (λ count. count ≤ length into.old) }
{
    let mut file = File::open(rt, path).ok()?;
    let mut count: usize = 0;
    for _ in 0..MOST_READS {
        if count >= into.len() {
            break;
        }
        let got = file.read(&mut into[count..]).ok()?;
        if got == 0 {
            break;
        }
        count = count.saturating_add(got);
    }
    Some(count.min(into.len()))
}

/// The name of a process's program, where it is printable.
fn command_of<R: Files>(alloc: Global, rt: &R, process: u64) -> Option<String> {
    let path = format!(in alloc; "/proc/{process}/comm").ok()?;
    let mut front = [0; MOST_COMMAND];
    let count = read_front(rt, &path, &mut front)?;
    let command = str::from_utf8(&front[..count]).ok()?.trim_end();
    if command.bytes().all(|byte| byte.is_ascii_graphic()) {
        String::from_str(alloc, command).ok()
    } else {
        None
    }
}

/// A process that has this file locked, where the system tells of one. Nothing that fails here is said.
pub fn holder_of<R: Files>(alloc: Global, rt: &R, file: &Stamp) -> Option<Holder> {
    let mut bytes = vec![in alloc; 0; MOST_LOCKS].ok()?;
    let count = read_front(rt, LOCKS, &mut bytes)?;
    let lines = str::from_utf8(&bytes[..count]).ok()?;
    let (device, inode) = file.node();
    let process = process_that_locks(lines, device, inode)?;
    Some(Holder {
        process,
        command: command_of(alloc, rt, process),
    })
}
