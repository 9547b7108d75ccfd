// What failed, and how it is said.
ghost use Rattle.std.specs.Prelude.{◌≡◌, ◌↔◌, Ok, IfOk, IsOk};

use crate::holder::Holder;
use nb_host::Name;
use std::alloc::{AllocError, AllocFailed};
use std::{fmt, io};

/// What was asked of the system.
#[derive(Clone, Copy)]
pub enum Call {
    Open,
    Lock,
    Empty,
    Read,
    Write,
    Sync,
    Remove,
}

impl fmt::Display for Call {
    fn fmt<W: fmt::Write>(&self, f: &mut fmt::Formatter<W>) -> fmt::Result {
        f.pad(match self {
            Call::Open => "open",
            Call::Lock => "lock",
            Call::Empty => "empty",
            Call::Read => "read",
            Call::Write => "write",
            Call::Sync => "sync",
            Call::Remove => "remove",
        })
    }
}

/// What failed, and why, as the system says.
#[derive(Drop)]
pub enum Failure {
    /// A call on the file of that name.
    OnFile(Name, Call, io::Error),
    /// Another program has the file, or this one has it under another name; and which process that is, where the system tells.
    InUse(Name, Option<Holder>),
    /// The name led to no file when it was looked at in this run, and leads to one now that this run didn't make.
    CameToBe(Name),
    /// The file was changed, or another put in its place, between the time that it was read and the time that it was to be written.
    Changed(Name),
    /// Nobody reads the standard output any more.
    NoReader,
    /// The output, the random bytes or the clock.
    Of(&'static str, io::Error),
    Memory,
}

impl<T: Drop> From<AllocFailed<T>> for Failure {
    fn from(_: AllocFailed<T>) -> Self {
        Failure::Memory
    }
}

impl From<AllocError> for Failure {
    fn from(_: AllocError) -> Self {
        Failure::Memory
    }
}

impl Failure {
    /// Whether it is said. Who has closed the reader of the standard output knows, as `head` does, and other programs don't say so either.
    pub fn is_said(&self) -> bool {
        !matches!(self, Failure::NoReader)
    }
}

impl fmt::Display for Failure {
    fn fmt<W: fmt::Write>(&self, f: &mut fmt::Formatter<W>) -> fmt::Result {
        match self {
            Failure::OnFile(name, call, error) => write!(f, "{name}: {call}: {error}"),
            Failure::InUse(name, Some(holder)) => write!(f, "{name} is in use by {holder}"),
            Failure::InUse(name, None) => write!(f, "{name} is in use"),
            Failure::CameToBe(name) => write!(f, "{name} came to be meanwhile"),
            Failure::Changed(name) => write!(f, "{name} was changed meanwhile"),
            Failure::NoReader => f.pad("nobody reads the standard output"),
            Failure::Of(what, error) => write!(f, "{what}: {error}"),
            Failure::Memory => f.pad("out of memory"),
        }
    }
}

/// Says which file and which call it was of.
pub fn named<T: Drop>(outcome: io::Result<T>, name: &Name, call: Call) -> Result<T, Failure>
    ensures value { IfOk result (λ value. outcome ≡ Ok value) }
    ensures kind { IsOk result ↔ IsOk outcome }
{
    match outcome {
        Ok(value) => Ok(value),
        Err(error) => Err(Failure::OnFile(name.copied(), call, error)),
    }
}
