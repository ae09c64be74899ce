//! Token providers as JSON.
ghost use Rattle.std.specs.Prelude.{◌≡◌, IfOk, OnOk};
ghost use Rattle.serde_json.specs.View.{view};
ghost use Rattle.envoy_types.specs.ProviderForms as form;
ghost use Rattle.envoy_types.specs.WrittenFields.{fields_onto, with_field};
ghost use Rattle.leaf_json.specs.Fields.{members_of};
ghost use Rattle.listener_writer.specs.Tokens.{token_fields};

use crate::lists::{Named, Spelled, put_list, put_optional};
use crate::places::{put_headers, put_params};
use envoy_types::JwtProvider;
use envoy_types::fixed::{KEYS_CLUSTER, KEYS_TIME, PAYLOAD};
use envoy_types::keys::{
    AUDIENCES, CLUSTER, FORWARD, FORWARD_PAYLOAD_HEADER, HTTP_URI, INLINE_STRING, ISSUER,
    LOCAL_JWKS, PAYLOAD_IN_METADATA, REMOTE_JWKS, TIMEOUT, URI,
};
use leaf_json::{Fields, sole_field, text_value};
use mesh_policy::{JwtRule, Keys};
use mesh_text::Memory;
use serde_json::Value;
use std::alloc::Global;

impl Spelled for JwtProvider {
    ghost use Rattle.envoy_types.specs.ProviderForms.{provider_written};

    ghost written = { provider_written };

    #[tactic(auto, unfolding(envoy_types::specs::ProviderForms::provider_written))]
    fn to_value(&self, alloc: Global) -> Result<Value, Memory> {
        let mut fields = Fields::new(alloc);
        put_tokens(alloc, &mut fields, &self.rule)?;
        fields.put_text(alloc, ISSUER, &self.rule.issuer)?;
        put_keys(alloc, &mut fields, &self.rule.keys)?;
        fields.put_text(alloc, PAYLOAD_IN_METADATA, PAYLOAD)?;
        Ok(fields.into_value())
    }
}

impl Named for JwtProvider {
    ghost name_of = { λ provider. provider.name };

    fn name(&self) -> &str {
        self.name.as_str()
    }
}

// Which tokens are taken, where they are found, and what is handed on of them.
fn put_tokens(alloc: Global, fields: &mut Fields, rule: &JwtRule) -> Result<(), Memory>
    ensures { OnOk result (members_of fields.new ≡ fields_onto (members_of fields.old) (token_fields rule.now)) }
{
    put_list(alloc, fields, AUDIENCES, &rule.audiences)?;
    fields.put_true(alloc, FORWARD, rule.forward)?;
    put_optional(
        alloc,
        fields,
        FORWARD_PAYLOAD_HEADER,
        rule.payload_header.as_ref(),
    )?;
    put_headers(alloc, fields, &rule.places)?;
    put_params(alloc, fields, &rule.places)
}

// The key set, or where it is fetched.
fn put_keys(alloc: Global, fields: &mut Fields, keys: &Keys) -> Result<(), Memory>
    ensures { OnOk result (members_of fields.new ≡ with_field (members_of fields.old) (form.keys_field keys.now)) }
{
    match keys {
        Keys::Inline(set) => {
            let value = sole_field(alloc, INLINE_STRING, text_value(alloc, set)?)?;
            fields.put(alloc, LOCAL_JWKS, value)
        }
        Keys::Uri(uri) => {
            let value = sole_field(alloc, HTTP_URI, keys_uri(alloc, uri)?)?;
            fields.put(alloc, REMOTE_JWKS, value)
        }
    }
}

#[tactic(auto, unfolding(envoy_types::specs::ProviderForms::keys_uri_written))]
fn keys_uri(alloc: Global, uri: &str) -> Result<Value, Memory>
    ensures { IfOk result (λ v. view v ≡ form.keys_uri_written uri.now) }
{
    let mut fields = Fields::new(alloc);
    fields.put_text(alloc, CLUSTER, KEYS_CLUSTER)?;
    fields.put_text(alloc, TIMEOUT, KEYS_TIME)?;
    fields.put_text(alloc, URI, uri)?;
    Ok(fields.into_value())
}
