//! Listeners as JSON.
ghost use Rattle.std.specs.Prelude.{◌≡◌, IfOk};
ghost use Rattle.serde_json.specs.View.{view};
ghost use Rattle.envoy_types.specs.ListenerForms as form;

use crate::lists::list_value;
use crate::sockets::listener_filters;
use envoy_types::Listener;
use envoy_types::fixed::INBOUND_DIRECTION;
use envoy_types::keys::{
    ADDRESS, FILTER_CHAINS, LISTENER_FILTERS, NAME, PORT_VALUE, SOCKET_ADDRESS, TRAFFIC_DIRECTION,
};
use leaf_json::{Fields, number_value, sole_field};
use mesh_text::Memory;
use serde_json::Value;
use std::alloc::Global;

/// The JSON value that spells a listener (Envoy v3 API reference, `config.listener.v3.Listener`). Takes the listener,
/// which stays as it is, and answers the one value in which it is written: no field has its default, but the action
/// of rules and the places of tokens, which are always told. Each part is made into a value once. Answers `Memory`
/// where there is no room for the value, and for no other cause.
#[tactic(auto, unfolding(envoy_types::specs::ListenerForms::listener_written))]
pub fn to_value(alloc: Global, listener: &Listener) -> Result<Value, Memory>
    ensures { IfOk result (λ v. view v ≡ form.listener_written listener.now) }
{
    let address = address_value(alloc, &listener.address, listener.port)?;
    let chains = list_value(alloc, &listener.chains)?;
    let filters = listener_filters(alloc)?;
    let mut fields = Fields::new(alloc);
    fields.put(alloc, ADDRESS, address)?;
    fields.put(alloc, FILTER_CHAINS, chains)?;
    fields.put(alloc, LISTENER_FILTERS, filters)?;
    fields.put_text(alloc, NAME, &listener.name)?;
    fields.put_text(alloc, TRAFFIC_DIRECTION, INBOUND_DIRECTION)?;
    Ok(fields.into_value())
}

#[tactic(auto, unfolding(envoy_types::specs::ListenerForms::address_written))]
fn address_value(alloc: Global, address: &str, port: u16) -> Result<Value, Memory>
    ensures { IfOk result (λ v. view v ≡ form.address_written address.now port) }
{
    let number = number_value(alloc, port)?;
    let mut fields = Fields::new(alloc);
    fields.put_text(alloc, ADDRESS, address)?;
    fields.put(alloc, PORT_VALUE, number)?;
    sole_field(alloc, SOCKET_ADDRESS, fields.into_value())
}
