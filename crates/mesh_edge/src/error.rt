// What a source, a sink, and the calls over them answer in place of a result.
use thiserror::Error;

/// A read, a write or a flush failed. The count of faults of its object rose in this call.
#[derive(Clone, Copy, Debug, PartialEq, Eq, Error)]
#[error("the device failed")]
pub struct Failed;

/// A write failed before all bytes were taken.
#[derive(Clone, Copy, Debug, PartialEq, Eq, Error)]
#[error("the bytes could not be written")]
pub struct WriteFault;

/// Why the bytes of a source were not all read.
#[derive(Clone, Copy, Debug, PartialEq, Eq, Error)]
pub enum ReadError {
    /// A read failed.
    #[error("the bytes could not be read")]
    Fault,
    /// More bytes were left than the limit allows.
    #[error("too many bytes were given")]
    TooLong,
    /// Out of memory.
    #[error("out of memory")]
    Memory,
}
