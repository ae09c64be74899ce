//! Listeners, read from JSON.
ghost use Rattle.serde_json.specs.View.{view};
ghost use Rattle.mesh_doc.specs.Faults.{Reads};
ghost use Rattle.mesh_doc.specs.Fields.{required_written_in};
ghost use Rattle.envoy_types.specs.ListenerForms as form;
ghost use Rattle.envoy_types.specs.declared.keys.TheConstants as keys;

use crate::chains::Chain;
use crate::clashes::distinct;
use crate::lists::short_list;
use crate::sockets::ListenerFilters;
use envoy_types::fixed::INBOUND_DIRECTION;
use envoy_types::keys::{
    ADDRESS, FILTER_CHAINS, LISTENER_FILTERS, NAME, PORT_VALUE, SOCKET_ADDRESS, TRAFFIC_DIRECTION,
};
use envoy_types::{FilterChain, Listener};
use leaf_json::{AnyPort, fixed_field};
use mesh_doc::{AnyText, DocError, Form, Place, Reason, Spot, entries, required_written};
use mesh_text::{List, Text};
use serde_json::Value;
use std::alloc::Global;

/// The most filter chains of a listener.
const MOST_CHAINS: u32 = 2048;

/// The listener that the value `v` at `place` spells (Envoy v3 API reference, `config.listener.v3.Listener`), or its first
/// fault: UnknownField, WrongType, MissingField, BadForm or TooMany, and last of all DuplicateMatch. A field that is `null` is
/// there, and of another kind. What a listener is written in reads back to it, and what is read can be written. Answers
/// `Memory` where there is no room for the listener or for the place of a fault.
pub fn from_value(alloc: Global, v: &Value, place: &Place) -> Result<Listener, DocError>
    ensures { Reads result (form.listener_faults (view v.now) place.now) (form.listener_in (view v.now)) }
{
    read_listener(alloc, v, &Spot::of(place))
}

#[tactic(auto, unfolding(envoy_types::specs::ListenerForms::listener_faults, envoy_types::specs::ListenerForms::listener_in, envoy_types::specs::ListenerForms::duplicate_faults, envoy_types::specs::ListenerForms::chains_in, mesh_doc::specs::Fields::required_written_in))]
fn read_listener(alloc: Global, v: &Value, at: &Spot) -> Result<Listener, DocError>
    ensures { Reads result (form.listener_faults (view v.now) at.now) (form.listener_in (view v.now)) }
{
    at.only_fields(
        alloc,
        v,
        &[
            ADDRESS,
            FILTER_CHAINS,
            LISTENER_FILTERS,
            NAME,
            TRAFFIC_DIRECTION,
        ],
    )?;
    let (address, port) = required_written::<Address>(alloc, v, ADDRESS, at)?;
    let chains = required_written::<Chains>(alloc, v, FILTER_CHAINS, at)?;
    required_written::<ListenerFilters>(alloc, v, LISTENER_FILTERS, at)?;
    let name = required_written::<AnyText>(alloc, v, NAME, at)?;
    fixed_field(alloc, v, TRAFFIC_DIRECTION, INBOUND_DIRECTION, at)?;
    distinct(alloc, &chains, &Spot::key(at, FILTER_CHAINS))?;
    Ok(Listener {
        name,
        address,
        port,
        chains,
    })
}

// The chains, one at least.
struct Chains;

impl Form for Chains {
    ghost use Rattle.mesh_doc.specs.Lists.{list_in};
    ghost use Rattle.envoy_types.specs.ChainForms.{chain_in};

    type Out = List<FilterChain>;

    ghost faults = { form.chains_faults };

    ghost value = { list_in chain_in };

    #[tactic(auto, unfolding(envoy_types::specs::ListenerForms::chains_faults, envoy_types::specs::SmallForms::list_that))]
    fn read(alloc: Global, v: &Value, at: &Spot) -> Result<List<FilterChain>, DocError> {
        let count = short_list(alloc, v, MOST_CHAINS, at)?;
        if count < 1 {
            return Err(at.refuse(alloc, Reason::BadForm));
        }
        entries::<Chain>(alloc, v, MOST_CHAINS, at)
    }
}

// An address and a port.
struct Address;

impl Form for Address {
    type Out = (Text, u16);

    ghost faults = { form.address_faults };

    ghost value = { λ d. (form.address_in d, form.port_in d) };

    #[tactic(auto, unfolding(envoy_types::specs::ListenerForms::address_faults, envoy_types::specs::ListenerForms::address_in, envoy_types::specs::ListenerForms::port_in, mesh_doc::specs::Fields::required_written_in))]
    fn read(alloc: Global, v: &Value, at: &Spot) -> Result<(Text, u16), DocError> {
        at.only_fields(alloc, v, &[SOCKET_ADDRESS])?;
        required_written::<SocketAddress>(alloc, v, SOCKET_ADDRESS, at)
    }
}

struct SocketAddress;

impl Form for SocketAddress {
    ghost use Rattle.mesh_doc.specs.Kinds.{number_in, text_in};

    type Out = (Text, u16);

    ghost faults = { form.socket_address_faults };

    ghost value = { λ d. (required_written_in keys.ADDRESS.now text_in d, required_written_in keys.PORT_VALUE.now number_in d) };

    #[tactic(auto, unfolding(envoy_types::specs::ListenerForms::socket_address_faults))]
    fn read(alloc: Global, v: &Value, at: &Spot) -> Result<(Text, u16), DocError> {
        at.only_fields(alloc, v, &[ADDRESS, PORT_VALUE])?;
        let address = required_written::<AnyText>(alloc, v, ADDRESS, at)?;
        let port = required_written::<AnyPort>(alloc, v, PORT_VALUE, at)?;
        Ok((address, port))
    }
}
