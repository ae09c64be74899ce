// Why a call is not made, or the program ends before its last one.
use mesh_edge::ReadError;
use mesh_text::Memory;
use std::alloc::{AllocError, AllocFailed};
use std::io;

#[derive(Debug, Drop)]
pub enum Stop {
    /// The arguments are not those of the call.
    Arguments,
    /// The table can't be read.
    Input,
    /// The answers can't be printed.
    Output,
    Memory,
}

impl From<ReadError> for Stop {
    fn from(error: ReadError) -> Stop {
        match error {
            ReadError::Fault | ReadError::TooLong => Stop::Input,
            ReadError::Memory => Stop::Memory,
        }
    }
}

impl From<Memory> for Stop {
    fn from(_: Memory) -> Stop {
        Stop::Memory
    }
}

impl From<AllocError> for Stop {
    fn from(_: AllocError) -> Stop {
        Stop::Memory
    }
}

impl<T: Drop> From<AllocFailed<T>> for Stop {
    fn from(_: AllocFailed<T>) -> Stop {
        Stop::Memory
    }
}

impl From<io::Error> for Stop {
    fn from(_: io::Error) -> Stop {
        Stop::Output
    }
}
