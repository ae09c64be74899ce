//! Filter chains as JSON.
ghost use Rattle.std.specs.Prelude.{◌≡◌, IfOk, OnOk};
ghost use Rattle.serde_json.specs.View.{view};
ghost use Rattle.envoy_types.specs.ChainForms as form;
ghost use Rattle.envoy_types.specs.WrittenFields.{with_field};
ghost use Rattle.leaf_json.specs.Fields.{members_of};

use crate::filters::body_value;
use crate::lists::{Spelled, put_list, put_optional};
use crate::sockets::socket_value;
use envoy_types::fixed::{RAW_BUFFER, TLS};
use envoy_types::keys::{
    APPLICATION_PROTOCOLS, DESTINATION_PORT, FILTER_CHAIN_MATCH, FILTERS, NAME, TRANSPORT_PROTOCOL,
    TRANSPORT_SOCKET,
};
use envoy_types::{ChainMatch, FilterChain, Transport};
use leaf_json::{Fields, text_value};
use mesh_text::Memory;
use serde_json::Value;
use std::alloc::Global;

impl Spelled for FilterChain {
    ghost use Rattle.envoy_types.specs.ChainForms.{chain_written};

    ghost written = { chain_written };

    #[tactic(auto, unfolding(envoy_types::specs::ChainForms::chain_written))]
    fn to_value(&self, alloc: Global) -> Result<Value, Memory> {
        let matching = match_value(alloc, &self.matching)?;
        let body = body_value(alloc, &self.body)?;
        let mut fields = Fields::new(alloc);
        fields.put(alloc, FILTER_CHAIN_MATCH, matching)?;
        fields.put(alloc, FILTERS, body)?;
        fields.put_text(alloc, NAME, &self.name)?;
        put_socket(alloc, &mut fields, self.mutual_tls)?;
        Ok(fields.into_value())
    }
}

// The socket, where the chain takes mutual TLS.
fn put_socket(alloc: Global, fields: &mut Fields, mutual_tls: bool) -> Result<(), Memory>
    ensures { OnOk result (members_of fields.new ≡ with_field (members_of fields.old) (form.socket_field mutual_tls)) }
{
    if mutual_tls {
        let socket = socket_value(alloc)?;
        fields.put(alloc, TRANSPORT_SOCKET, socket)
    } else {
        Ok(())
    }
}

impl Spelled for Transport {
    ghost use Rattle.envoy_types.specs.ChainForms.{transport_written};

    ghost written = { transport_written };

    fn to_value(&self, alloc: Global) -> Result<Value, Memory> {
        match self {
            Transport::RawBuffer => text_value(alloc, RAW_BUFFER),
            Transport::Tls => text_value(alloc, TLS),
        }
    }
}

#[tactic(auto, unfolding(envoy_types::specs::ChainForms::match_written))]
fn match_value(alloc: Global, matching: &ChainMatch) -> Result<Value, Memory>
    ensures { IfOk result (λ v. view v ≡ form.match_written matching.now) }
{
    let mut fields = Fields::new(alloc);
    put_list(alloc, &mut fields, APPLICATION_PROTOCOLS, &matching.alpn)?;
    put_optional(alloc, &mut fields, DESTINATION_PORT, matching.port.as_ref())?;
    put_optional(
        alloc,
        &mut fields,
        TRANSPORT_PROTOCOL,
        matching.transport.as_ref(),
    )?;
    Ok(fields.into_value())
}
