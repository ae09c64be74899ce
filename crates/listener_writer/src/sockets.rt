//! The TLS socket of a chain, and the filters of a listener, as JSON: neither has a field that may differ.
ghost use Rattle.std.specs.Prelude.{◌≡◌, [], IfOk};
ghost use Rattle.serde_json.specs.View.{view};
ghost use Rattle.envoy_types.specs.SocketForms as form;
ghost use Rattle.envoy_types.specs.WrittenFields.{config_written, named_written};

use crate::lists::sole_entry;
use envoy_types::fixed::{MESH_ROOTS, OWN_CERTIFICATE};
use envoy_types::keys::{
    COMMON_TLS_CONTEXT, NAME, REQUIRE_CLIENT_CERTIFICATE, TLS_CERTIFICATES, VALIDATION_CONTEXT,
};
use envoy_types::{
    ORIGINAL_DST_NAME, ORIGINAL_DST_TYPE, TLS_INSPECTOR_NAME, TLS_INSPECTOR_TYPE, TLS_SOCKET_NAME,
    TLS_SOCKET_TYPE,
};
use leaf_json::{Fields, config_of, named_value, sole_field, text_value};
use mesh_text::Memory;
use serde_json::Value;
use std::alloc::Global;

/// The TLS socket that asks for the peer's certificate.
#[tactic(auto, unfolding(envoy_types::specs::SocketForms::socket_written))]
pub(crate) fn socket_value(alloc: Global) -> Result<Value, Memory>
    ensures { IfOk result (λ v. view v ≡ form.socket_written) }
{
    let certificates = certificates(alloc)?;
    let mut config = config_of(alloc, TLS_SOCKET_TYPE)?;
    config.put(alloc, COMMON_TLS_CONTEXT, certificates)?;
    config.put_true(alloc, REQUIRE_CLIENT_CERTIFICATE, true)?;
    named_value(alloc, TLS_SOCKET_NAME, config.into_value())
}

#[tactic(auto, unfolding(envoy_types::specs::SocketForms::certificates_written))]
fn certificates(alloc: Global) -> Result<Value, Memory>
    ensures { IfOk result (λ v. view v ≡ form.certificates_written) }
{
    let own = sole_entry(alloc, secret(alloc, OWN_CERTIFICATE)?)?;
    let roots = secret(alloc, MESH_ROOTS)?;
    let mut fields = Fields::new(alloc);
    fields.put(alloc, TLS_CERTIFICATES, own)?;
    fields.put(alloc, VALIDATION_CONTEXT, roots)?;
    Ok(fields.into_value())
}

// A secret by its name.
fn secret(alloc: Global, name: &str) -> Result<Value, Memory>
    ensures { IfOk result (λ v. view v ≡ form.secret_written name.now) }
{
    let value = text_value(alloc, name)?;
    sole_field(alloc, NAME, value)
}

/// The original destination, and then the TLS inspector.
#[tactic(auto, unfolding(envoy_types::specs::SocketForms::listener_filters_written))]
pub(crate) fn listener_filters(alloc: Global) -> Result<Value, Memory>
    ensures { IfOk result (λ v. view v ≡ form.listener_filters_written) }
{
    let destination = plain_filter(alloc, ORIGINAL_DST_NAME, ORIGINAL_DST_TYPE)?;
    let inspector = plain_filter(alloc, TLS_INSPECTOR_NAME, TLS_INSPECTOR_TYPE)?;
    let mut values = Vec::new(alloc);
    serde_json::push(&mut values, destination)?;
    serde_json::push(&mut values, inspector)?;
    Ok(Value::Array(values))
}

/// A filter whose configuration has no field but its type.
pub(crate) fn plain_filter(alloc: Global, name: &str, type_url: &str) -> Result<Value, Memory>
    ensures { IfOk result (λ v. view v ≡ named_written name.now (config_written type_url.now [])) }
{
    let config = config_of(alloc, type_url)?;
    named_value(alloc, name, config.into_value())
}
