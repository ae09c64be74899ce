//! Filters of external authorization as JSON.
ghost use Rattle.std.specs.Prelude.{◌≡◌, IfOk, OnOk};
ghost use Rattle.serde_json.specs.View.{view};
ghost use Rattle.envoy_types.specs.AuthzForms as form;
ghost use Rattle.envoy_types.specs.WrittenFields.{fields_onto, with_field};
ghost use Rattle.leaf_json.specs.Fields.{members_of};

use crate::lists::sole_entry;
use envoy_types::fixed::{ANSWER_TIME, API_VERSION, TCP_PREFIX};
use envoy_types::keys::{
    CLUSTER, CLUSTER_NAME, ENVOY_GRPC, FAILURE_MODE_ALLOW, FILTER, FILTER_ENABLED_METADATA,
    GRPC_SERVICE, HTTP_SERVICE, PATH, SERVER_URI, STAT_PREFIX, STRING_MATCH, TIMEOUT,
    TRANSPORT_API_VERSION, URI, VALUE,
};
use envoy_types::{
    AuthService, ExtAuthz, HTTP_AUTHZ_NAME, HTTP_AUTHZ_TYPE, HTTP_RBAC_NAME, NETWORK_AUTHZ_NAME,
    NETWORK_AUTHZ_TYPE, NETWORK_RBAC_NAME,
};
use leaf_json::{
    Fields, config_of, named_value, segment_value, sole_field, string_to_value, text_value,
};
use mesh_text::Memory;
use serde_json::Value;
use std::alloc::Global;

/// The filter of HTTP chains.
#[tactic(auto, unfolding(envoy_types::specs::AuthzForms::http_authz_written))]
pub(crate) fn http_authz(alloc: Global, authz: &ExtAuthz) -> Result<Value, Memory>
    ensures { IfOk result (λ v. view v ≡ form.http_authz_written authz.now) }
{
    let mut config = config_of(alloc, HTTP_AUTHZ_TYPE)?;
    put_authz(alloc, &mut config, HTTP_RBAC_NAME, authz)?;
    config.put_text(alloc, TRANSPORT_API_VERSION, API_VERSION)?;
    named_value(alloc, HTTP_AUTHZ_NAME, config.into_value())
}

/// The filter of TCP chains, with its prefix of statistics.
#[tactic(auto, unfolding(envoy_types::specs::AuthzForms::network_authz_written))]
pub(crate) fn network_authz(alloc: Global, authz: &ExtAuthz) -> Result<Value, Memory>
    ensures { IfOk result (λ v. view v ≡ form.network_authz_written authz.now) }
{
    let mut config = config_of(alloc, NETWORK_AUTHZ_TYPE)?;
    put_authz(alloc, &mut config, NETWORK_RBAC_NAME, authz)?;
    config.put_text(alloc, STAT_PREFIX, TCP_PREFIX)?;
    config.put_text(alloc, TRANSPORT_API_VERSION, API_VERSION)?;
    named_value(alloc, NETWORK_AUTHZ_NAME, config.into_value())
}

// What both have, by the name of the RBAC filter whose metadata is looked at.
fn put_authz(
    alloc: Global,
    config: &mut Fields,
    rbac_name: &str,
    authz: &ExtAuthz,
) -> Result<(), Memory>
    ensures { OnOk result (members_of config.new
        ≡ fields_onto (members_of config.old) (form.authz_fields rbac_name.now authz.now)) }
{
    let enabled = enabled(alloc, rbac_name, authz)?;
    config.put_true(alloc, FAILURE_MODE_ALLOW, authz.fail_open)?;
    config.put(alloc, FILTER_ENABLED_METADATA, enabled)?;
    put_service(alloc, config, &authz.service)
}

// When the authorizer is asked.
#[tactic(auto, unfolding(envoy_types::specs::AuthzForms::enabled_written, envoy_types::specs::WrittenFields::list_written))]
fn enabled(alloc: Global, rbac_name: &str, authz: &ExtAuthz) -> Result<Value, Memory>
    ensures { IfOk result (λ v. view v ≡ form.enabled_written rbac_name.now authz.now) }
{
    let path = sole_entry(alloc, segment_value(alloc, &authz.enabled_key)?)?;
    let value = sole_field(alloc, STRING_MATCH, string_to_value(alloc, &authz.enabled)?)?;
    let mut fields = Fields::new(alloc);
    fields.put_text(alloc, FILTER, rbac_name)?;
    fields.put(alloc, PATH, path)?;
    fields.put(alloc, VALUE, value)?;
    Ok(fields.into_value())
}

// Who is asked.
fn put_service(alloc: Global, config: &mut Fields, service: &AuthService) -> Result<(), Memory>
    ensures { OnOk result (members_of config.new ≡ with_field (members_of config.old) (form.service_field service.now)) }
{
    match service {
        AuthService::Grpc { cluster } => {
            let value = grpc(alloc, cluster)?;
            config.put(alloc, GRPC_SERVICE, value)
        }
        AuthService::Http { cluster, uri } => {
            let inside = server_uri(alloc, cluster, uri)?;
            let value = sole_field(alloc, SERVER_URI, inside)?;
            config.put(alloc, HTTP_SERVICE, value)
        }
    }
}

#[tactic(auto, unfolding(envoy_types::specs::AuthzForms::grpc_written))]
fn grpc(alloc: Global, cluster: &str) -> Result<Value, Memory>
    ensures { IfOk result (λ v. view v ≡ form.grpc_written cluster.now) }
{
    let client = sole_field(alloc, CLUSTER_NAME, text_value(alloc, cluster)?)?;
    let mut fields = Fields::new(alloc);
    fields.put(alloc, ENVOY_GRPC, client)?;
    fields.put_text(alloc, TIMEOUT, ANSWER_TIME)?;
    Ok(fields.into_value())
}

#[tactic(auto, unfolding(envoy_types::specs::AuthzForms::server_uri_written))]
fn server_uri(alloc: Global, cluster: &str, uri: &str) -> Result<Value, Memory>
    ensures { IfOk result (λ v. view v ≡ form.server_uri_written cluster.now uri.now) }
{
    let mut fields = Fields::new(alloc);
    fields.put_text(alloc, CLUSTER, cluster)?;
    fields.put_text(alloc, TIMEOUT, ANSWER_TIME)?;
    fields.put_text(alloc, URI, uri)?;
    Ok(fields.into_value())
}
