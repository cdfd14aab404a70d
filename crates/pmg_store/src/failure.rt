//! The failure of a call that reads, decodes and writes.
ghost use Rattle.std.specs.Prelude.{◌≡◌};
ghost use Rattle.pmg_value.specs.declared.refusal.Refusal.TheVariants.{NoMemory};
ghost use Rattle.pmg_store.specs.declared.failure.Failure.TheVariants.{Refused, Read, Write};

use crate::input::ReadFault;
use pmg_value::{Fault, Refusal, WriteFault};
use std::alloc::{AllocError, AllocFailed};
use thiserror::Error;

/// The failure of a call that reads from readers and writes to a writer.
#[derive(Clone, Copy, Debug, PartialEq, Eq, Error)]
pub enum Failure {
    /// The call was refused, because its input is faulty or an allocation failed.
    #[error("refused {0}")]
    Refused(Refusal),
    /// One of several streams is faulty: its number, counted from 1, and its first fault.
    #[error("refused 10 BadFrame: {1} in stream {0}")]
    InStream(usize, Fault),
    /// A reader failed.
    #[error("read fault")]
    Read,
    /// The writer failed.
    #[error("write fault")]
    Write,
}

impl From<Refusal> for Failure {
    ghost from_gives = { λ refusal e. e ≡ Refused refusal };

    fn from(refusal: Refusal) -> Failure {
        Failure::Refused(refusal)
    }
}

impl From<ReadFault> for Failure {
    ghost from_gives = { λ _ e. e ≡ Read };

    fn from(_fault: ReadFault) -> Failure {
        Failure::Read
    }
}

impl From<WriteFault> for Failure {
    ghost from_gives = { λ _ e. e ≡ Write };

    fn from(_fault: WriteFault) -> Failure {
        Failure::Write
    }
}

impl From<AllocError> for Failure {
    ghost from_gives = { λ _ e. e ≡ Refused NoMemory };

    fn from(_e: AllocError) -> Failure {
        Failure::Refused(Refusal::NoMemory)
    }
}

impl<T: Drop> From<AllocFailed<T>> for Failure {
    ghost from_gives = { λ _ e. e ≡ Refused NoMemory };

    fn from(_e: AllocFailed<T>) -> Failure {
        Failure::Refused(Refusal::NoMemory)
    }
}
