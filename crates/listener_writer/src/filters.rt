//! What a chain does, as JSON: the TCP proxy behind its filters, or the connection manager.
ghost use Rattle.std.specs.Prelude.{◌≡◌, IfOk};
ghost use Rattle.serde_json.specs.View.{view};
ghost use Rattle.envoy_types.specs.FilterForms as form;

use crate::authz::{http_authz, network_authz};
use crate::jwt::jwt_value;
use crate::lists::{Spelled, sole_entry, values_of};
use crate::rbac::{http_rbac, network_rbac};
use crate::routes::route_config;
use crate::sockets::plain_filter;
use envoy_types::keys::{CLUSTER, HTTP_FILTERS, ROUTE_CONFIG, STAT_PREFIX};
use envoy_types::{
    ChainBody, HTTP_MANAGER_NAME, HTTP_MANAGER_TYPE, HttpFilter, NetworkFilter, ROUTER_NAME,
    ROUTER_TYPE, TCP_PROXY_NAME, TCP_PROXY_TYPE,
};
use leaf_json::{config_of, named_value};
use mesh_text::Memory;
use serde_json::Value;
use std::alloc::Global;

/// The filters of a chain, with the proxy behind them, or the connection manager alone.
#[tactic(auto, unfolding(envoy_types::specs::FilterForms::body_written))]
pub(crate) fn body_value(alloc: Global, body: &ChainBody) -> Result<Value, Memory>
    ensures { IfOk result (λ v. view v ≡ form.body_written body.now) }
{
    match body {
        ChainBody::Tcp { filters, cluster } => {
            let mut values = values_of(alloc, filters)?;
            let proxy = proxy(alloc, cluster)?;
            serde_json::push(&mut values, proxy)?;
            Ok(Value::Array(values))
        }
        ChainBody::Http { filters, cluster } => {
            let manager = manager(alloc, filters, cluster)?;
            sole_entry(alloc, manager)
        }
    }
}

#[tactic(auto, unfolding(envoy_types::specs::FilterForms::proxy_written))]
fn proxy(alloc: Global, cluster: &str) -> Result<Value, Memory>
    ensures { IfOk result (λ v. view v ≡ form.proxy_written cluster.now) }
{
    let mut config = config_of(alloc, TCP_PROXY_TYPE)?;
    config.put_text(alloc, CLUSTER, cluster)?;
    config.put_text(alloc, STAT_PREFIX, cluster)?;
    named_value(alloc, TCP_PROXY_NAME, config.into_value())
}

#[tactic(auto, unfolding(envoy_types::specs::FilterForms::manager_written))]
fn manager(alloc: Global, filters: &[HttpFilter], cluster: &str) -> Result<Value, Memory>
    ensures { IfOk result (λ v. view v ≡ form.manager_written filters.now cluster.now) }
{
    let filters = http_filters(alloc, filters)?;
    let routes = route_config(alloc, cluster)?;
    let mut config = config_of(alloc, HTTP_MANAGER_TYPE)?;
    config.put(alloc, HTTP_FILTERS, filters)?;
    config.put(alloc, ROUTE_CONFIG, routes)?;
    config.put_text(alloc, STAT_PREFIX, cluster)?;
    named_value(alloc, HTTP_MANAGER_NAME, config.into_value())
}

// The filters, and then the router.
#[tactic(auto, unfolding(envoy_types::specs::FilterForms::router_written))]
fn http_filters(alloc: Global, filters: &[HttpFilter]) -> Result<Value, Memory>
    ensures { IfOk result (λ v. view v ≡ form.http_filters_written filters.now) }
{
    let mut values = values_of(alloc, filters)?;
    let router = plain_filter(alloc, ROUTER_NAME, ROUTER_TYPE)?;
    serde_json::push(&mut values, router)?;
    Ok(Value::Array(values))
}

impl Spelled for NetworkFilter {
    ghost use Rattle.envoy_types.specs.FilterForms.{network_filter_written};

    ghost written = { network_filter_written };

    #[tactic(auto, unfolding(envoy_types::specs::FilterForms::network_filter_written))]
    fn to_value(&self, alloc: Global) -> Result<Value, Memory> {
        match self {
            NetworkFilter::Rbac(rbac) => network_rbac(alloc, rbac),
            NetworkFilter::ExtAuthz(authz) => network_authz(alloc, authz),
        }
    }
}

impl Spelled for HttpFilter {
    ghost use Rattle.envoy_types.specs.FilterForms.{http_filter_written};

    ghost written = { http_filter_written };

    #[tactic(auto, unfolding(envoy_types::specs::FilterForms::http_filter_written))]
    fn to_value(&self, alloc: Global) -> Result<Value, Memory> {
        match self {
            HttpFilter::Jwt(jwt) => jwt_value(alloc, jwt),
            HttpFilter::Rbac(rbac) => http_rbac(alloc, rbac),
            HttpFilter::ExtAuthz(authz) => http_authz(alloc, authz),
        }
    }
}
