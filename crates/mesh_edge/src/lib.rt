//! Sources and sinks of bytes, each with a count of its faults.
//!
//! The count rises where a fault is answered, and stays where a call succeeds: no fault is made up,
//! and none is passed over. Where an object tells its bytes, `read_all` and `write_all` promise which
//! of them were taken, after a fault and for want of memory too, and in how many calls.
#![tactic(auto)]

mod clean;
mod copy;
mod error;
mod memory_sink;
mod memory_source;
mod sink;
mod source;
mod system;
mod transfer;

pub use clean::{CleanSink, CleanSource};
pub use error::{Failed, ReadError, WriteFault};
pub use memory_sink::MemorySink;
pub use memory_source::MemorySource;
pub use sink::Sink;
pub use source::Source;
pub use system::{StdSink, StdSource};
pub use transfer::{read_all, write_all};
