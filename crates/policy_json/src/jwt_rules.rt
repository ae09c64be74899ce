// The rules of a RequestAuthentication.
ghost use Rattle.std.specs.Prelude.{◌≡◌};
ghost use Rattle.mesh_doc.specs.declared.reason.Reason.TheVariants.{BadName, BadValue};
ghost use Rattle.mesh_policy.specs.Values.{is_key_set};
ghost use Rattle.policy_json.specs.JwtRules.{is_empty_or_name, jwt_rule_faults, jwt_rule_in, payload_header_faults};
ghost use Rattle.policy_json.specs.Texts.{lower_name_in};

use crate::key_sets::{keys_of, unless_empty};
use crate::texts::{BoundedText, ShortText, is_name, lower};
use crate::token_places::{FromHeader, FromParam, places_of};
use mesh_doc::{
    AnyTruth, DocError, Form, Reason, Spot, Tested, TextTest, listed, optional, required,
};
use mesh_policy::{JwtRule, MOST_ENTRIES, MOST_KEY_SET_BYTES};
use mesh_text::Text;
use serde_json::Value;
use std::alloc::Global;

const ISSUER: &str = "issuer";

const AUDIENCES: &str = "audiences";

const JWKS_URI: &str = "jwksUri";

const JWKS: &str = "jwks";

const FROM_HEADERS: &str = "fromHeaders";

const FROM_PARAMS: &str = "fromParams";

const FORWARD: &str = "forwardOriginalToken";

const PAYLOAD_HEADER: &str = "outputPayloadToHeader";

/// An entry of `jwtRules` (Istio reference, JWTRule). JwtKeys at it unless it has exactly one of `jwksUri` and
/// `jwks`, where an empty text is as none.
pub(crate) struct RuleForm;

impl Form for RuleForm {
    type Out = JwtRule;

    ghost faults = { jwt_rule_faults };

    ghost value = { jwt_rule_in };

    #[tactic(auto, unfolding(crate::specs::JwtRules::jwt_rule_faults, crate::specs::JwtRules::jwt_rule_in))]
    fn read(alloc: Global, v: &Value, at: &Spot) -> Result<JwtRule, DocError> {
        at.only_fields(
            alloc,
            v,
            &[
                ISSUER,
                AUDIENCES,
                JWKS_URI,
                JWKS,
                FROM_HEADERS,
                FROM_PARAMS,
                FORWARD,
                PAYLOAD_HEADER,
            ],
        )?;
        let issuer = required::<ShortText>(alloc, v, ISSUER, at)?;
        let audiences = listed::<ShortText>(alloc, v, AUDIENCES, MOST_ENTRIES, at)?;
        let uri = optional::<BoundedText>(alloc, v, JWKS_URI, at)?;
        let set = optional::<Tested<IsKeySet>>(alloc, v, JWKS, at)?;
        let headers = listed::<FromHeader>(alloc, v, FROM_HEADERS, MOST_ENTRIES, at)?;
        let params = listed::<FromParam>(alloc, v, FROM_PARAMS, MOST_ENTRIES, at)?;
        let forward = optional::<AnyTruth>(alloc, v, FORWARD, at)?;
        let payload_header = optional::<PayloadHeader>(alloc, v, PAYLOAD_HEADER, at)?;
        let Some(keys) = keys_of(unless_empty(uri), unless_empty(set)) else {
            return Err(at.refuse(alloc, Reason::JwtKeys));
        };
        Ok(JwtRule {
            issuer,
            audiences,
            keys,
            places: places_of(alloc, headers, params)?,
            forward: forward.unwrap_or(false),
            payload_header: unless_empty(payload_header),
        })
    }
}

struct IsKeySet;

impl TextTest for IsKeySet {
    ghost passes = { is_key_set };

    ghost reason = { BadValue };

    fn passes(text: &str) -> bool {
        text.len() <= MOST_KEY_SET_BYTES
    }

    fn reason() -> Reason {
        Reason::BadValue
    }
}

// The name of a header in lower case, or an empty text.
struct PayloadHeader;

impl Form for PayloadHeader {
    type Out = Text;

    ghost faults = { payload_header_faults };

    ghost value = { lower_name_in };

    #[tactic(auto, unfolding(crate::specs::Texts::lower_name_in))]
    fn read(alloc: Global, v: &Value, at: &Spot) -> Result<Text, DocError> {
        let name = Tested::<IsEmptyOrName>::read(alloc, v, at)?;
        Ok(lower(alloc, &name)?)
    }
}

struct IsEmptyOrName;

impl TextTest for IsEmptyOrName {
    ghost passes = { is_empty_or_name };

    ghost reason = { BadName };

    fn passes(text: &str) -> bool {
        is_empty_or_name(text)
    }

    fn reason() -> Reason {
        Reason::BadName
    }
}

fn is_empty_or_name(text: &str) -> bool
    ensures { result ≡ is_empty_or_name text.now }
{
    text.is_empty() || is_name(text)
}
