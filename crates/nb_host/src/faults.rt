ghost use Rattle.std.specs.Prelude.{◌≡◌};
ghost use Rattle.nb_host.specs.Faults.{as_fault};
ghost use Rattle.nb_host.specs.declared.faults.Fault.TheVariants.{Device, Memory};
ghost use Rattle.nb_host.specs.declared.faults.RunError.TheVariants.{Device as DeviceError, Memory as MemoryError};

use crate::Refusal;
use std::alloc::{AllocError, AllocFailed};
use thiserror::Error;

/// A call of the host failed. Its count of faults has risen.
#[derive(Clone, Copy, Debug, PartialEq, Eq, Error)]
#[error("the device failed")]
pub struct HostFault;

/// Why a call that can't be refused ended early.
#[derive(Clone, Copy, Debug, PartialEq, Eq, Error)]
pub enum RunError {
    /// A call of the host failed.
    #[error("the device failed")]
    Device,
    #[error("out of memory")]
    Memory,
}

/// Why a call answered nothing else.
#[derive(Debug, Drop, Error)]
pub enum Fault {
    /// The call was refused. It changed no file.
    #[error("the call was refused")]
    Refused(Refusal),
    /// A call of the host failed.
    #[error("the device failed")]
    Device,
    #[error("out of memory")]
    Memory,
}

impl From<HostFault> for RunError {
    ghost from_gives = { λ _ error. error ≡ DeviceError };

    fn from(_: HostFault) -> Self {
        RunError::Device
    }
}

impl From<AllocError> for RunError {
    ghost from_gives = { λ _ error. error ≡ MemoryError };

    fn from(_: AllocError) -> Self {
        RunError::Memory
    }
}

impl<T: Drop> From<AllocFailed<T>> for RunError {
    ghost from_gives = { λ _ error. error ≡ MemoryError };

    fn from(_: AllocFailed<T>) -> Self {
        RunError::Memory
    }
}

impl From<RunError> for Fault {
    ghost from_gives = { λ error fault. fault ≡ as_fault error };

    fn from(error: RunError) -> Self {
        match error {
            RunError::Device => Fault::Device,
            RunError::Memory => Fault::Memory,
        }
    }
}

impl From<HostFault> for Fault {
    ghost from_gives = { λ _ fault. fault ≡ Device };

    fn from(_: HostFault) -> Self {
        Fault::Device
    }
}

impl From<AllocError> for Fault {
    ghost from_gives = { λ _ fault. fault ≡ Memory };

    fn from(_: AllocError) -> Self {
        Fault::Memory
    }
}

impl<T: Drop> From<AllocFailed<T>> for Fault {
    ghost from_gives = { λ _ fault. fault ≡ Memory };

    fn from(_: AllocFailed<T>) -> Self {
        Fault::Memory
    }
}
