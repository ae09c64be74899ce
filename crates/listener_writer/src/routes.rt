//! The routes of a connection manager as JSON: every request goes to the one cluster.
ghost use Rattle.std.specs.Prelude.{◌≡◌, IfOk};
ghost use Rattle.serde_json.specs.View.{view};
ghost use Rattle.envoy_types.specs.FilterForms as form;

use crate::lists::sole_entry;
use envoy_types::fixed::{ALL_DOMAINS, ALL_PATHS, INBOUND_HOST};
use envoy_types::keys::{CLUSTER, DOMAINS, MATCH, NAME, PREFIX, ROUTE, ROUTES, VIRTUAL_HOSTS};
use leaf_json::{Fields, sole_field, text_value};
use mesh_text::Memory;
use serde_json::Value;
use std::alloc::Global;

/// The route configuration, which has the name of the cluster.
#[tactic(auto, unfolding(envoy_types::specs::FilterForms::route_config_written))]
pub(crate) fn route_config(alloc: Global, cluster: &str) -> Result<Value, Memory>
    ensures { IfOk result (λ v. view v ≡ form.route_config_written cluster.now) }
{
    let hosts = sole_entry(alloc, virtual_host(alloc, cluster)?)?;
    let mut fields = Fields::new(alloc);
    fields.put_text(alloc, NAME, cluster)?;
    fields.put(alloc, VIRTUAL_HOSTS, hosts)?;
    Ok(fields.into_value())
}

// The host of every authority.
#[tactic(auto, unfolding(envoy_types::specs::FilterForms::virtual_host_written))]
fn virtual_host(alloc: Global, cluster: &str) -> Result<Value, Memory>
    ensures { IfOk result (λ v. view v ≡ form.virtual_host_written cluster.now) }
{
    let domains = sole_entry(alloc, text_value(alloc, ALL_DOMAINS)?)?;
    let routes = sole_entry(alloc, route(alloc, cluster)?)?;
    let mut fields = Fields::new(alloc);
    fields.put(alloc, DOMAINS, domains)?;
    fields.put_text(alloc, NAME, INBOUND_HOST)?;
    fields.put(alloc, ROUTES, routes)?;
    Ok(fields.into_value())
}

// The route of every path.
#[tactic(auto, unfolding(envoy_types::specs::FilterForms::route_written))]
fn route(alloc: Global, cluster: &str) -> Result<Value, Memory>
    ensures { IfOk result (λ v. view v ≡ form.route_written cluster.now) }
{
    let paths = sole_field(alloc, PREFIX, text_value(alloc, ALL_PATHS)?)?;
    let action = sole_field(alloc, CLUSTER, text_value(alloc, cluster)?)?;
    let mut fields = Fields::new(alloc);
    fields.put(alloc, MATCH, paths)?;
    fields.put(alloc, ROUTE, action)?;
    Ok(fields.into_value())
}
