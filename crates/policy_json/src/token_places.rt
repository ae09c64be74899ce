// Where a rule finds its tokens: headers, and then parameters.
ghost use Rattle.std.specs.Prelude.{◌≡◌, IfOk};
ghost use Rattle.policy_json.specs.TokenPlaces.{header_faults, header_in, param_faults, param_in, places_of};

use crate::texts::{BoundedText, LowerName, ShortText};
use mesh_doc::{DocError, Form, Spot, optional, required};
use mesh_policy::{TokenPlace, places_or_default};
use mesh_text::{List, Memory, Text};
use serde_json::Value;
use std::alloc::Global;

const NAME: &str = "name";

const PREFIX: &str = "prefix";

/// An entry of `fromHeaders`: a header, and the prefix before the token, which is empty where none is written.
pub(crate) struct FromHeader;

impl Form for FromHeader {
    type Out = TokenPlace;

    ghost faults = { header_faults };

    ghost value = { header_in };

    #[tactic(auto, unfolding(crate::specs::TokenPlaces::header_faults, crate::specs::TokenPlaces::header_in))]
    fn read(alloc: Global, v: &Value, at: &Spot) -> Result<TokenPlace, DocError> {
        at.only_fields(alloc, v, &[NAME, PREFIX])?;
        let name = required::<LowerName>(alloc, v, NAME, at)?;
        let prefix = match optional::<BoundedText>(alloc, v, PREFIX, at)? {
            Some(prefix) => prefix,
            None => Text::of(alloc, "")?,
        };
        Ok(TokenPlace::Header { name, prefix })
    }
}

/// An entry of `fromParams`.
pub(crate) struct FromParam;

impl Form for FromParam {
    type Out = TokenPlace;

    ghost faults = { param_faults };

    ghost value = { param_in };

    #[tactic(auto, unfolding(crate::specs::TokenPlaces::param_faults, crate::specs::TokenPlaces::param_in))]
    fn read(alloc: Global, v: &Value, at: &Spot) -> Result<TokenPlace, DocError> {
        let name = ShortText::read(alloc, v, at)?;
        Ok(TokenPlace::Param(name))
    }
}

/// The places of a rule with these headers and parameters.
pub(crate) fn places_of(
    alloc: Global,
    headers: List<TokenPlace>,
    params: List<TokenPlace>,
) -> Result<List<TokenPlace>, Memory>
    ensures { IfOk result (λ places. places ≡ places_of headers params) }
{
    let mut places = headers;
    places.append(params)?;
    places_or_default(alloc, places)
}
