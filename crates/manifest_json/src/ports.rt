// A port by its number, and the entries of lists that have ports.
ghost use Rattle.std.specs.Prelude.{◌≡◌};
ghost use Rattle.serde_json.specs.View.{view};
ghost use Rattle.mesh_doc.specs.Kinds.{number_in};
ghost use Rattle.mesh_policy.specs.Values.{is_port};
ghost use Rattle.manifest_json.specs.Ports as ports;

use mesh_doc::{DocError, Form, Reason, Spot, field};
use serde_json::Value;
use std::alloc::Global;

pub(crate) const PORTS: &str = "ports";

pub(crate) const PORT: &str = "port";

const PROTOCOL: &str = "protocol";

const TCP: &str = "TCP";

/// A port by its number: a whole number (else WrongType) from 1 to 65,535 (else BadPort).
pub(crate) struct PortNumber;

impl Form for PortNumber {
    type Out = u16;

    ghost faults = { ports.port_faults };

    ghost value = { number_in };

    #[tactic(auto, unfolding(crate::specs::Ports::port_faults, mesh_doc::specs::Kinds::number_faults, mesh_doc::specs::Kinds::number_in))]
    fn read(alloc: Global, v: &Value, at: &Spot) -> Result<u16, DocError> {
        let Some(number) = v.as_u64() else {
            return Err(at.refuse(alloc, Reason::WrongType));
        };
        if !is_port(number) {
            return Err(at.refuse(alloc, Reason::BadPort));
        }
        Ok(number as u16)
    }
}

fn is_port(number: u64) -> bool
    ensures { result ≡ is_port number }
{
    1 <= number && number <= 65_535
}

/// Whether the `protocol` of an entry is a text other than `TCP`.
#[tactic(auto, unfolding(crate::specs::Ports::has_other_protocol))]
pub(crate) fn has_other_protocol(entry: &Value) -> bool
    ensures { result ≡ ports.has_other_protocol (view entry.now) }
{
    match field(entry, PROTOCOL) {
        Some(Value::String(word)) => word.as_str() != TCP,
        _ => false,
    }
}
