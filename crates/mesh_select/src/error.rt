// Why a Pod has no workload.
ghost use Rattle.std.specs.Prelude.{◌≡◌};
ghost use Rattle.mesh_select.specs.declared.error.SelectError.TheVariants.{Memory as NoMemory};

use mesh_policy::Protocol;
use mesh_text::{Memory, Text};

/// Why a Pod has no workload. Of several reasons the first of this list counts.
#[derive(Debug, Drop, PartialEq, Eq)]
pub enum SelectError {
    /// No Pod has that namespace and name.
    NoWorkload,
    /// Services give a port two protocols: the least such port.
    PortConflict {
        port: u16,
        first: Protocol,
        second: Protocol,
    },
    /// A CUSTOM policy that applies names an external authorizer that the MeshConfig lacks: the least such name.
    UnknownProvider(Text),
    /// The CUSTOM policies that apply name several external authorizers: the least two names.
    TwoProviders(Text, Text),
    /// A policy that applies tests a header that the rules of tokens change: the least such name.
    TokenHeaderTested(Text),
    /// More than 16 ports have a say of their own: how many.
    TooManyPorts(u32),
    /// The policies that apply hold more than 2,048 values, 1,024 entries or 65,536 bytes: how many.
    TooManyValues {
        values: u64,
        entries: u64,
        bytes: u64,
    },
    /// There was no memory for an answer.
    Memory,
}

impl From<Memory> for SelectError {
    ghost from_gives = { λ _ e. e ≡ NoMemory };

    fn from(_: Memory) -> SelectError {
        SelectError::Memory
    }
}
