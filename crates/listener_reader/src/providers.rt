//! Token providers, read from JSON.
ghost use Rattle.std.specs.Prelude.{[]};
ghost use Rattle.serde_json.specs.View.{view};
ghost use Rattle.mesh_doc.specs.Faults.{Reads, ◌⨾◌};
ghost use Rattle.mesh_doc.specs.Kinds.{text_faults};
ghost use Rattle.mesh_doc.specs.Lists.{listed_written};
ghost use Rattle.envoy_types.specs.ProviderForms as form;
ghost use Rattle.envoy_types.specs.SmallForms.{most_entries};
ghost use Rattle.envoy_types.specs.declared.keys.TheConstants as keys;

use crate::parts::or_second;
use envoy_types::JwtProvider;
use envoy_types::fixed::{KEYS_CLUSTER, KEYS_TIME, PAYLOAD};
use envoy_types::keys::{
    AUDIENCES, CLUSTER, FORWARD, FORWARD_PAYLOAD_HEADER, FROM_HEADERS, FROM_PARAMS, HTTP_URI,
    INLINE_STRING, ISSUER, LOCAL_JWKS, NAME, PAYLOAD_IN_METADATA, REMOTE_JWKS, TIMEOUT, URI,
    VALUE_PREFIX,
};
use leaf_json::{LowerToken, MOST_ENTRIES, fixed_field, one_of};
use mesh_doc::{
    AnyText, AnyTruth, DocError, Entry, Form, Spot, Tested, listed_written, optional_written,
    required_written,
};
use mesh_policy::{JwtRule, Keys, TokenPlace, places_or_default};
use mesh_text::{List, Text};
use serde_json::Value;
use std::alloc::Global;

/// A provider, under its name.
pub(crate) struct Provider;

impl Entry for Provider {
    type Out = JwtProvider;

    ghost faults = { form.provider_faults };

    ghost value = { form.provider_in };

    #[tactic(auto, unfolding(envoy_types::specs::ProviderForms::provider_faults, envoy_types::specs::ProviderForms::provider_in))]
    fn read(alloc: Global, key: &str, v: &Value, at: &Spot) -> Result<JwtProvider, DocError> {
        let rule = provider_rule(alloc, v, at)?;
        Ok(JwtProvider {
            name: Text::of(alloc, key)?,
            rule,
        })
    }
}

// The rule by which the provider judges tokens.
#[tactic(auto, unfolding(envoy_types::specs::ProviderForms::provider_faults, envoy_types::specs::ProviderForms::provider_rule_in, envoy_types::specs::ProviderForms::keys_in, envoy_types::specs::SmallForms::one_of, mesh_doc::specs::Fields::optional_written_in))]
fn provider_rule(alloc: Global, v: &Value, at: &Spot) -> Result<JwtRule, DocError>
    ensures { Reads result (form.provider_faults [] (view v.now) at.now) (form.provider_rule_in (view v.now)) }
{
    at.only_fields(
        alloc,
        v,
        &[
            AUDIENCES,
            FORWARD,
            FORWARD_PAYLOAD_HEADER,
            FROM_HEADERS,
            FROM_PARAMS,
            ISSUER,
            LOCAL_JWKS,
            PAYLOAD_IN_METADATA,
            REMOTE_JWKS,
        ],
    )?;
    one_of(alloc, v, &[LOCAL_JWKS, REMOTE_JWKS], at)?;
    let audiences = listed_written::<AnyText>(alloc, v, AUDIENCES, MOST_ENTRIES, at)?;
    let forward = optional_written::<AnyTruth>(alloc, v, FORWARD, at)?;
    let payload_header = optional_written::<Tested<LowerToken>>(
        alloc,
        v,
        FORWARD_PAYLOAD_HEADER,
        at,
    )?;
    let places = places(alloc, v, at)?;
    let issuer = required_written::<AnyText>(alloc, v, ISSUER, at)?;
    let local = optional_written::<LocalKeys>(alloc, v, LOCAL_JWKS, at)?;
    fixed_field(alloc, v, PAYLOAD_IN_METADATA, PAYLOAD, at)?;
    let keys = or_second::<RemoteKeys>(alloc, local, v, LOCAL_JWKS, REMOTE_JWKS, at)?;
    Ok(JwtRule {
        issuer,
        audiences,
        keys,
        places,
        forward: forward.unwrap_or(false),
        payload_header,
    })
}

// Where its tokens are found: in headers, and then in parameters, or in the default places.
#[tactic(auto, unfolding(envoy_types::specs::ProviderForms::places_in))]
fn places(alloc: Global, v: &Value, at: &Spot) -> Result<List<TokenPlace>, DocError>
    ensures { Reads result
        ((listed_written keys.FROM_HEADERS.now most_entries form.from_header_faults
        ⨾ listed_written keys.FROM_PARAMS.now most_entries text_faults) (view v.now) at.now)
        (form.places_in (view v.now)) }
{
    let mut places = listed_written::<FromHeader>(alloc, v, FROM_HEADERS, MOST_ENTRIES, at)?;
    let params = listed_written::<FromParam>(alloc, v, FROM_PARAMS, MOST_ENTRIES, at)?;
    places.append(params)?;
    Ok(places_or_default(alloc, places)?)
}

// An entry of `from_headers`, with an empty prefix where none is written.
struct FromHeader;

impl Form for FromHeader {
    type Out = TokenPlace;

    ghost faults = { form.from_header_faults };

    ghost value = { form.from_header_in };

    #[tactic(auto, unfolding(envoy_types::specs::ProviderForms::from_header_faults, envoy_types::specs::ProviderForms::from_header_in))]
    fn read(alloc: Global, v: &Value, at: &Spot) -> Result<TokenPlace, DocError> {
        at.only_fields(alloc, v, &[NAME, VALUE_PREFIX])?;
        let name = required_written::<Tested<LowerToken>>(alloc, v, NAME, at)?;
        let prefix = match optional_written::<AnyText>(alloc, v, VALUE_PREFIX, at)? {
            Some(prefix) => prefix,
            None => Text::of(alloc, "")?,
        };
        Ok(TokenPlace::Header { name, prefix })
    }
}

// An entry of `from_params`.
struct FromParam;

impl Form for FromParam {
    type Out = TokenPlace;

    ghost faults = { text_faults };

    ghost value = { form.from_param_in };

    #[tactic(auto, unfolding(envoy_types::specs::ProviderForms::from_param_in))]
    fn read(alloc: Global, v: &Value, at: &Spot) -> Result<TokenPlace, DocError> {
        let name = AnyText::read(alloc, v, at)?;
        Ok(TokenPlace::Param(name))
    }
}

struct LocalKeys;

impl Form for LocalKeys {
    type Out = Keys;

    ghost faults = { form.local_keys_faults };

    ghost value = { form.local_keys_in };

    #[tactic(auto, unfolding(envoy_types::specs::ProviderForms::local_keys_faults, envoy_types::specs::ProviderForms::local_keys_in))]
    fn read(alloc: Global, v: &Value, at: &Spot) -> Result<Keys, DocError> {
        at.only_fields(alloc, v, &[INLINE_STRING])?;
        let set = required_written::<AnyText>(alloc, v, INLINE_STRING, at)?;
        Ok(Keys::Inline(set))
    }
}

struct RemoteKeys;

impl Form for RemoteKeys {
    type Out = Keys;

    ghost faults = { form.remote_keys_faults };

    ghost value = { form.remote_keys_in };

    #[tactic(auto, unfolding(envoy_types::specs::ProviderForms::remote_keys_faults, envoy_types::specs::ProviderForms::remote_keys_in))]
    fn read(alloc: Global, v: &Value, at: &Spot) -> Result<Keys, DocError> {
        at.only_fields(alloc, v, &[HTTP_URI])?;
        let uri = required_written::<KeysUri>(alloc, v, HTTP_URI, at)?;
        Ok(Keys::Uri(uri))
    }
}

// Where a key set is fetched, which means its URI.
struct KeysUri;

impl Form for KeysUri {
    ghost use Rattle.mesh_doc.specs.Fields.{required_written_in};
    ghost use Rattle.mesh_doc.specs.Kinds.{text_in};

    type Out = Text;

    ghost faults = { form.keys_uri_faults };

    ghost value = { required_written_in keys.URI.now text_in };

    #[tactic(auto, unfolding(envoy_types::specs::ProviderForms::keys_uri_faults))]
    fn read(alloc: Global, v: &Value, at: &Spot) -> Result<Text, DocError> {
        at.only_fields(alloc, v, &[CLUSTER, TIMEOUT, URI])?;
        fixed_field(alloc, v, CLUSTER, KEYS_CLUSTER, at)?;
        fixed_field(alloc, v, TIMEOUT, KEYS_TIME, at)?;
        required_written::<AnyText>(alloc, v, URI, at)
    }
}
