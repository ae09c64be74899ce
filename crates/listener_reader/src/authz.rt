//! Filters of external authorization, read from JSON.
ghost use Rattle.std.specs.Prelude.{false, unwrap_or};
ghost use Rattle.serde_json.specs.View.{view};
ghost use Rattle.mesh_doc.specs.Faults.{Reads, ◌⨾◌};
ghost use Rattle.mesh_doc.specs.Fields as fields;
ghost use Rattle.mesh_doc.specs.Kinds.{truth_faults, truth_in};
ghost use Rattle.envoy_types.specs.AuthzForms as form;
ghost use Rattle.envoy_types.specs.SmallForms.{type_faults};
ghost use Rattle.envoy_types.specs.declared.keys.TheConstants as keys;

use crate::lists::{Plain, Sole, required_with};
use crate::parts::{or_second, required_inside};
use envoy_types::fixed::{ANSWER_TIME, API_VERSION, TCP_PREFIX};
use envoy_types::keys::{
    CLUSTER, CLUSTER_NAME, ENVOY_GRPC, FAILURE_MODE_ALLOW, FILTER, FILTER_ENABLED_METADATA,
    GRPC_SERVICE, HTTP_SERVICE, PATH, SERVER_URI, STAT_PREFIX, STRING_MATCH, TIMEOUT,
    TRANSPORT_API_VERSION, TYPE, URI, VALUE,
};
use envoy_types::{
    AuthService, ExtAuthz, HTTP_AUTHZ_NAME, HTTP_AUTHZ_TYPE, HTTP_RBAC_NAME, NETWORK_AUTHZ_NAME,
    NETWORK_AUTHZ_TYPE, NETWORK_RBAC_NAME, StringMatcher,
};
use leaf_json::{SegmentForm, StringForm, fixed_field, named, one_of};
use mesh_doc::{
    AnyText, AnyTruth, DocError, Form, Spot, optional_written, required_written, written,
};
use mesh_text::Text;
use serde_json::Value;
use std::alloc::Global;

/// The filter of HTTP chains.
pub(crate) fn read_http_authz(alloc: Global, v: &Value, at: &Spot) -> Result<ExtAuthz, DocError>
    ensures { Reads result (form.http_authz_faults (view v.now) at.now) (form.authz_in (view v.now)) }
{
    named::<HttpConfig>(alloc, v, HTTP_AUTHZ_NAME, at)
}

/// The filter of TCP chains.
pub(crate) fn read_network_authz(alloc: Global, v: &Value, at: &Spot) -> Result<ExtAuthz, DocError>
    ensures { Reads result (form.network_authz_faults (view v.now) at.now) (form.authz_in (view v.now)) }
{
    named::<NetworkConfig>(alloc, v, NETWORK_AUTHZ_NAME, at)
}

struct HttpConfig;

impl Form for HttpConfig {
    type Out = ExtAuthz;

    ghost faults = { form.http_authz_config_faults };

    ghost value = { form.authz_config_in };

    #[tactic(auto, unfolding(envoy_types::specs::AuthzForms::http_authz_config_faults, envoy_types::specs::AuthzForms::authz_config_in, envoy_types::specs::AuthzForms::service_in, envoy_types::specs::SmallForms::one_of, mesh_doc::specs::Fields::optional_written_in))]
    fn read(alloc: Global, v: &Value, at: &Spot) -> Result<ExtAuthz, DocError> {
        at.only_fields(
            alloc,
            v,
            &[
                TYPE,
                FAILURE_MODE_ALLOW,
                FILTER_ENABLED_METADATA,
                GRPC_SERVICE,
                HTTP_SERVICE,
                TRANSPORT_API_VERSION,
            ],
        )?;
        one_of(alloc, v, &[GRPC_SERVICE, HTTP_SERVICE], at)?;
        let (fail_open, enabled_key, enabled) = beginning(
            alloc,
            v,
            HTTP_AUTHZ_TYPE,
            HTTP_RBAC_NAME,
            at,
        )?;
        let grpc = optional_written::<GrpcService>(alloc, v, GRPC_SERVICE, at)?;
        let service = or_second::<HttpService>(alloc, grpc, v, GRPC_SERVICE, HTTP_SERVICE, at)?;
        fixed_field(alloc, v, TRANSPORT_API_VERSION, API_VERSION, at)?;
        Ok(ExtAuthz {
            service,
            fail_open,
            enabled_key,
            enabled,
        })
    }
}

struct NetworkConfig;

impl Form for NetworkConfig {
    type Out = ExtAuthz;

    ghost faults = { form.network_authz_config_faults };

    ghost value = { form.authz_config_in };

    #[tactic(auto, unfolding(envoy_types::specs::AuthzForms::network_authz_config_faults, envoy_types::specs::AuthzForms::authz_config_in))]
    fn read(alloc: Global, v: &Value, at: &Spot) -> Result<ExtAuthz, DocError> {
        at.only_fields(
            alloc,
            v,
            &[
                TYPE,
                FAILURE_MODE_ALLOW,
                FILTER_ENABLED_METADATA,
                GRPC_SERVICE,
                STAT_PREFIX,
                TRANSPORT_API_VERSION,
            ],
        )?;
        let (fail_open, enabled_key, enabled) = beginning(
            alloc,
            v,
            NETWORK_AUTHZ_TYPE,
            NETWORK_RBAC_NAME,
            at,
        )?;
        let service = grpc_alone(alloc, v, at)?;
        fixed_field(alloc, v, STAT_PREFIX, TCP_PREFIX, at)?;
        fixed_field(alloc, v, TRANSPORT_API_VERSION, API_VERSION, at)?;
        Ok(ExtAuthz {
            service,
            fail_open,
            enabled_key,
            enabled,
        })
    }
}

// What both configurations begin with, by the type URL and the name of the RBAC filter whose metadata is looked at: whether
// requests pass where the authorizer fails, and when it is asked.
fn beginning(
    alloc: Global,
    v: &Value,
    type_url: &str,
    rbac_name: &str,
    at: &Spot,
) -> Result<(bool, Text, StringMatcher), DocError>
    ensures { Reads result
        ((type_faults type_url.now
        ⨾ fields.optional_written keys.FAILURE_MODE_ALLOW.now truth_faults
        ⨾ fields.required_written keys.FILTER_ENABLED_METADATA.now (form.enabled_faults rbac_name.now)) (view v.now) at.now) (
          unwrap_or (fields.optional_written_in keys.FAILURE_MODE_ALLOW.now truth_in (view v.now)) false,
          fields.required_written_in keys.FILTER_ENABLED_METADATA.now form.enabled_key_in (view v.now),
          fields.required_written_in keys.FILTER_ENABLED_METADATA.now form.enabled_in (view v.now),
        ) }
{
    fixed_field(alloc, v, TYPE, type_url, at)?;
    let fail_open = optional_written::<AnyTruth>(alloc, v, FAILURE_MODE_ALLOW, at)?;
    let (enabled_key, enabled) = enabled_field(alloc, v, rbac_name, at)?;
    Ok((fail_open.unwrap_or(false), enabled_key, enabled))
}

// The service where there is but one form of it.
#[tactic(auto, unfolding(envoy_types::specs::AuthzForms::service_in, mesh_doc::specs::Fields::required_written, mesh_doc::specs::Fields::required_written_in, mesh_doc::specs::Fields::optional_written_in))]
fn grpc_alone(alloc: Global, v: &Value, at: &Spot) -> Result<AuthService, DocError>
    ensures { Reads result
        (fields.required_written keys.GRPC_SERVICE.now form.grpc_service_faults (view v.now) at.now)
        (form.service_in (view v.now)) }
{
    required_written::<GrpcService>(alloc, v, GRPC_SERVICE, at)
}

// When the authorizer is asked, by the name of the RBAC filter whose metadata is looked at: the key, and the matcher.
#[tactic(auto, unfolding(mesh_doc::specs::Fields::required_written, mesh_doc::specs::Fields::required_written_in))]
fn enabled_field(
    alloc: Global,
    v: &Value,
    rbac_name: &str,
    at: &Spot,
) -> Result<(Text, StringMatcher), DocError>
    ensures { Reads result
        (fields.required_written keys.FILTER_ENABLED_METADATA.now (form.enabled_faults rbac_name.now) (view v.now) at.now) (
          fields.required_written_in keys.FILTER_ENABLED_METADATA.now form.enabled_key_in (view v.now),
          fields.required_written_in keys.FILTER_ENABLED_METADATA.now form.enabled_in (view v.now),
        ) }
{
    match written(v, FILTER_ENABLED_METADATA) {
        Some(found) => {
            let inside = Spot::key(at, FILTER_ENABLED_METADATA);
            enabled(alloc, found, rbac_name, &inside)
        }
        None => Err(at.missing(alloc, FILTER_ENABLED_METADATA)),
    }
}

#[tactic(auto, unfolding(envoy_types::specs::AuthzForms::enabled_faults, envoy_types::specs::AuthzForms::enabled_value_faults, envoy_types::specs::AuthzForms::enabled_key_in, envoy_types::specs::AuthzForms::enabled_in))]
fn enabled(
    alloc: Global,
    v: &Value,
    rbac_name: &str,
    at: &Spot,
) -> Result<(Text, StringMatcher), DocError>
    ensures { Reads result
        (form.enabled_faults rbac_name.now (view v.now) at.now)
        (form.enabled_key_in (view v.now), form.enabled_in (view v.now)) }
{
    at.only_fields(alloc, v, &[FILTER, PATH, VALUE])?;
    fixed_field(alloc, v, FILTER, rbac_name, at)?;
    let key = required_with::<Sole<Plain<SegmentForm>>>(alloc, &(), v, PATH, at)?;
    let matcher = required_inside::<Plain<StringForm>>(alloc, &(), v, VALUE, STRING_MATCH, at)?;
    Ok((key, matcher))
}

struct GrpcService;

impl Form for GrpcService {
    type Out = AuthService;

    ghost faults = { form.grpc_service_faults };

    ghost value = { form.grpc_service_in };

    #[tactic(auto, unfolding(envoy_types::specs::AuthzForms::grpc_service_faults, envoy_types::specs::AuthzForms::envoy_grpc_faults, envoy_types::specs::AuthzForms::grpc_service_in))]
    fn read(alloc: Global, v: &Value, at: &Spot) -> Result<AuthService, DocError> {
        at.only_fields(alloc, v, &[ENVOY_GRPC, TIMEOUT])?;
        let cluster = required_inside::<Plain<AnyText>>(
            alloc,
            &(),
            v,
            ENVOY_GRPC,
            CLUSTER_NAME,
            at,
        )?;
        fixed_field(alloc, v, TIMEOUT, ANSWER_TIME, at)?;
        Ok(AuthService::Grpc { cluster })
    }
}

struct HttpService;

impl Form for HttpService {
    type Out = AuthService;

    ghost faults = { form.http_service_faults };

    ghost value = { form.http_service_in };

    #[tactic(auto, unfolding(envoy_types::specs::AuthzForms::http_service_faults, envoy_types::specs::AuthzForms::http_service_in))]
    fn read(alloc: Global, v: &Value, at: &Spot) -> Result<AuthService, DocError> {
        at.only_fields(alloc, v, &[SERVER_URI])?;
        required_written::<ServerUri>(alloc, v, SERVER_URI, at)
    }
}

struct ServerUri;

impl Form for ServerUri {
    type Out = AuthService;

    ghost faults = { form.server_uri_faults };

    ghost value = { form.server_uri_in };

    #[tactic(auto, unfolding(envoy_types::specs::AuthzForms::server_uri_faults, envoy_types::specs::AuthzForms::server_uri_in))]
    fn read(alloc: Global, v: &Value, at: &Spot) -> Result<AuthService, DocError> {
        at.only_fields(alloc, v, &[CLUSTER, TIMEOUT, URI])?;
        let cluster = required_written::<AnyText>(alloc, v, CLUSTER, at)?;
        fixed_field(alloc, v, TIMEOUT, ANSWER_TIME, at)?;
        let uri = required_written::<AnyText>(alloc, v, URI, at)?;
        Ok(AuthService::Http { cluster, uri })
    }
}
