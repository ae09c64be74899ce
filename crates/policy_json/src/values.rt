// The values of the lists of an AuthorizationPolicy, each in its form.
ghost use Rattle.std.specs.Prelude.{◌≡◌};
ghost use Rattle.mesh_doc.specs.Kinds.{text_in};
ghost use Rattle.mesh_policy.specs.Values.{has_few_slashes, has_operator, is_path};
ghost use Rattle.policy_json.specs.Values.{block_faults, block_in, path_faults, port_value_faults, port_value_in, request_principal_faults};

use crate::ports::port_named;
use crate::texts::ShortText;
use mesh_doc::{DocError, Form, Reason, Spot};
use mesh_net::{Cidr, parse_cidr};
use mesh_policy::{MOST_SLASHES, Template};
use mesh_text::{Text, contains};
use serde_json::Value;
use std::alloc::Global;

/// A port from 1 to 65,535, as a text of decimal digits without leading zeros: BadValue where the text has no allowed
/// length, and BadPort for any other.
pub(crate) struct PortValue;

impl Form for PortValue {
    type Out = u16;

    ghost faults = { port_value_faults };

    ghost value = { port_value_in };

    #[tactic(auto, unfolding(crate::specs::Values::port_value_faults, crate::specs::Values::port_value_in))]
    fn read(alloc: Global, v: &Value, at: &Spot) -> Result<u16, DocError> {
        let text = ShortText::read(alloc, v, at)?;
        match port_named(&text) {
            Some(port) => Ok(port),
            None => Err(at.refuse(alloc, Reason::BadPort)),
        }
    }
}

/// An address block: BadValue where the text has no allowed length, and BadCidr where it is no block.
pub(crate) struct BlockValue;

impl Form for BlockValue {
    type Out = Cidr;

    ghost faults = { block_faults };

    ghost value = { block_in };

    #[tactic(auto, unfolding(crate::specs::Values::block_faults, crate::specs::Values::block_in))]
    fn read(alloc: Global, v: &Value, at: &Spot) -> Result<Cidr, DocError> {
        let text = ShortText::read(alloc, v, at)?;
        match parse_cidr(&text) {
            Some(block) => Ok(block),
            None => Err(at.refuse(alloc, Reason::BadCidr)),
        }
    }
}

/// A request principal, `iss/sub`: BadValue where the text has no allowed length, and TooManySlashes where it has more
/// than 8 slashes.
pub(crate) struct RequestPrincipal;

impl Form for RequestPrincipal {
    type Out = Text;

    ghost faults = { request_principal_faults };

    ghost value = { text_in };

    #[tactic(auto, unfolding(crate::specs::Values::request_principal_faults))]
    fn read(alloc: Global, v: &Value, at: &Spot) -> Result<Text, DocError> {
        let text = ShortText::read(alloc, v, at)?;
        if !has_few_slashes(&text) {
            return Err(at.refuse(alloc, Reason::TooManySlashes));
        }
        Ok(text)
    }
}

fn has_few_slashes(text: &str) -> bool
    ensures { result ≡ has_few_slashes text.now }
{
    let mut left = MOST_SLASHES;
    for c in text.as_bytes() {
        if *c == b'/' {
            if left == 0 {
                return false;
            }
            left -= 1;
        }
    }
    true
}

/// A path: BadValue where the text has no allowed length, and BadTemplate where it has an operator and is no template.
pub(crate) struct PathValue;

impl Form for PathValue {
    type Out = Text;

    ghost faults = { path_faults };

    ghost value = { text_in };

    #[tactic(auto, unfolding(crate::specs::Values::path_faults))]
    fn read(alloc: Global, v: &Value, at: &Spot) -> Result<Text, DocError> {
        let text = ShortText::read(alloc, v, at)?;
        if !is_path(&text) {
            return Err(at.refuse(alloc, Reason::BadTemplate));
        }
        Ok(text)
    }
}

fn is_path(text: &str) -> bool
    ensures { result ≡ is_path text.now }
{
    !has_operator(text) || Template::is_template(text)
}

fn has_operator(text: &str) -> bool
    ensures { result ≡ has_operator text.now }
{
    contains("{*}", text) || contains("{**}", text)
}
