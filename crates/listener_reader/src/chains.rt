//! Filter chains, read from JSON.
ghost use Rattle.std.specs.Prelude.{◌≡◌};
ghost use Rattle.envoy_types.specs.ChainForms as form;

use crate::filters::Body;
use crate::sockets::SocketForm;
use envoy_types::fixed::{RAW_BUFFER, TLS};
use envoy_types::keys::{
    APPLICATION_PROTOCOLS, DESTINATION_PORT, FILTER_CHAIN_MATCH, FILTERS, NAME, TRANSPORT_PROTOCOL,
    TRANSPORT_SOCKET,
};
use envoy_types::{ChainMatch, FilterChain, Transport};
use leaf_json::{MOST_ENTRIES, Port};
use mesh_doc::{
    AnyText, DocError, Form, Reason, Spot, listed_written, optional_written, required_written,
};
use serde_json::Value;
use std::alloc::Global;

/// A chain. One with a socket takes mutual TLS.
pub(crate) struct Chain;

impl Form for Chain {
    type Out = FilterChain;

    ghost faults = { form.chain_faults };

    ghost value = { form.chain_in };

    #[tactic(auto, unfolding(envoy_types::specs::ChainForms::chain_faults, envoy_types::specs::ChainForms::chain_in), using(crate::proofs::Options::is_some_written))]
    fn read(alloc: Global, v: &Value, at: &Spot) -> Result<FilterChain, DocError> {
        at.only_fields(
            alloc,
            v,
            &[FILTER_CHAIN_MATCH, FILTERS, NAME, TRANSPORT_SOCKET],
        )?;
        let matching = required_written::<Match>(alloc, v, FILTER_CHAIN_MATCH, at)?;
        let body = required_written::<Body>(alloc, v, FILTERS, at)?;
        let name = required_written::<AnyText>(alloc, v, NAME, at)?;
        let socket = optional_written::<SocketForm>(alloc, v, TRANSPORT_SOCKET, at)?;
        Ok(FilterChain {
            name,
            matching,
            mutual_tls: socket.is_some(),
            body,
        })
    }
}

// The connections that a chain is for.
struct Match;

impl Form for Match {
    type Out = ChainMatch;

    ghost faults = { form.match_faults };

    ghost value = { form.match_in };

    #[tactic(auto, unfolding(envoy_types::specs::ChainForms::match_faults, envoy_types::specs::ChainForms::match_in))]
    fn read(alloc: Global, v: &Value, at: &Spot) -> Result<ChainMatch, DocError> {
        at.only_fields(
            alloc,
            v,
            &[APPLICATION_PROTOCOLS, DESTINATION_PORT, TRANSPORT_PROTOCOL],
        )?;
        let alpn = listed_written::<AnyText>(alloc, v, APPLICATION_PROTOCOLS, MOST_ENTRIES, at)?;
        let port = optional_written::<Port>(alloc, v, DESTINATION_PORT, at)?;
        let transport = optional_written::<TransportWord>(alloc, v, TRANSPORT_PROTOCOL, at)?;
        Ok(ChainMatch {
            port,
            transport,
            alpn,
        })
    }
}

struct TransportWord;

impl Form for TransportWord {
    type Out = Transport;

    ghost faults = { form.transport_faults };

    ghost value = { form.transport_in };

    #[tactic(auto, unfolding(mesh_doc::specs::Tested::tested, mesh_doc::specs::Kinds::text_faults, mesh_doc::specs::Kinds::text_in, envoy_types::specs::ChainForms::transport_in))]
    fn read(alloc: Global, v: &Value, at: &Spot) -> Result<Transport, DocError> {
        let Value::String(word) = v else {
            return Err(at.refuse(alloc, Reason::WrongType));
        };
        match transport_named(word.as_str()) {
            Some(transport) => Ok(transport),
            None => Err(at.refuse(alloc, Reason::BadForm)),
        }
    }
}

fn transport_named(word: &str) -> Option<Transport>
    ensures { result ≡ form.transport_named word.now }
{
    if word == TLS {
        return Some(Transport::Tls);
    }
    if word == RAW_BUFFER {
        return Some(Transport::RawBuffer);
    }
    None
}
