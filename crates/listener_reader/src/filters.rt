//! What a chain does, read from JSON: the TCP proxy behind its filters, or the connection manager.
ghost use Rattle.std.specs.Prelude.{◌≡◌, ◌<◌, ◌^◌, true, length};
ghost use Rattle.serde_json.specs.Data.{array};
ghost use Rattle.serde_json.specs.View.{items_view, view};
ghost use Rattle.mesh_doc.specs.Faults.{Reads, hiding, unless};
ghost use Rattle.mesh_doc.specs.declared.reason.Reason.TheVariants as reasons;
ghost use Rattle.envoy_types.specs.FilterForms as form;
ghost use Rattle.envoy_types.specs.SmallForms as small;
ghost use Rattle.envoy_types.specs.declared.chains.ChainBody.TheVariants.{Tcp};
ghost use Rattle.envoy_types.specs.declared.keys.TheConstants as keys;

use crate::authz::read_network_authz;
use crate::lists::{Plain, ending, sole_entry};
use crate::manager::Manager;
use crate::parts::is_named;
use crate::rbac::read_network_rbac;
use envoy_types::keys::{CLUSTER, STAT_PREFIX, TYPE};
use envoy_types::{
    ChainBody, HTTP_MANAGER_NAME, NETWORK_AUTHZ_NAME, NETWORK_RBAC_NAME, NetworkFilter,
    TCP_PROXY_NAME, TCP_PROXY_TYPE,
};
use leaf_json::{MOST_ENTRIES, fixed_field, named};
use mesh_doc::{AnyText, DocError, Form, Reason, Spot, required_written};
use mesh_text::Text;
use serde_json::Value;
use std::alloc::Global;

/// The filters of a chain.
pub(crate) struct Body;

impl Form for Body {
    type Out = ChainBody;

    ghost faults = { form.body_faults };

    ghost value = { form.body_in };

    #[tactic(auto, unfolding(envoy_types::specs::FilterForms::body_faults, envoy_types::specs::SmallForms::short_list_faults, mesh_doc::specs::Kinds::list_faults))]
    fn read(alloc: Global, v: &Value, at: &Spot) -> Result<ChainBody, DocError> {
        let Value::Array(items) = v else {
            return Err(at.refuse(alloc, Reason::WrongType));
        };
        body_entries(alloc, items.as_slice(), at)
    }
}

#[tactic(auto, unfolding(envoy_types::specs::FilterForms::body_faults, envoy_types::specs::FilterForms::body_entries_faults, envoy_types::specs::FilterForms::body_in, envoy_types::specs::SmallForms::short_list_faults, mesh_doc::specs::Kinds::list_faults, mesh_doc::specs::Kinds::length_in), using(mesh_doc::proofs::Counts::count_of_items))]
fn body_entries(alloc: Global, items: &[Value], at: &Spot) -> Result<ChainBody, DocError>
    ensures { Reads result
        (form.body_faults (array (items_view items.now)) at.now)
        (form.body_in (array (items_view items.now))) }
{
    if items.len() > MOST_ENTRIES as usize {
        return Err(at.refuse(alloc, Reason::TooMany));
    }
    if is_manager(items) {
        return manager_alone(alloc, items, at);
    }
    proxy_last(alloc, items, at)
}

// One connection manager alone.
#[tactic(auto, using(crate::proofs::Endings::sole_manager))]
fn is_manager(items: &[Value]) -> bool
    ensures { result ≡ form.is_manager (items_view items.now) }
{
    match items.split_first() {
        Some((first, rest)) => rest.is_empty() && is_named(first, HTTP_MANAGER_NAME),
        None => false,
    }
}

#[tactic(auto, unfolding(envoy_types::specs::SmallForms::sole_in, envoy_types::specs::SmallForms::last_in), using(crate::proofs::Endings::endings))]
fn manager_alone(alloc: Global, items: &[Value], at: &Spot) -> Result<ChainBody, DocError>
    requires { form.is_manager (items_view items.now) ≡ true }
    ensures { Reads result
        (small.sole_list form.manager_faults (array (items_view items.now)) at.now)
        (small.last_in form.manager_in (array (items_view items.now))) }
{
    sole_entry::<Plain<Manager>>(alloc, &(), items, at)
}

// Network filters, and then the TCP proxy; nothing is read in a list of other kinds.
#[tactic(auto, unfolding(envoy_types::specs::FilterForms::are_tcp_filters, envoy_types::specs::SmallForms::is_named), using(crate::proofs::Endings::endings))]
fn proxy_last(alloc: Global, items: &[Value], at: &Spot) -> Result<ChainBody, DocError>
    requires { length items.now < 2 ^ 32 }
    ensures { Reads result
        (hiding
        (unless (form.are_tcp_filters (items_view items.now)) reasons.BadForm at.now)
        (small.ending_with form.network_filter_faults form.proxy_faults (array (items_view items.now)) at.now))
        (Tcp
        (small.front_in form.network_filter_in (array (items_view items.now)))
        (small.last_in form.proxy_in (array (items_view items.now)))) }
{
    let Some((last, front)) = items.split_last() else {
        return Err(at.refuse(alloc, Reason::BadForm));
    };
    if !(all_network_filters(front) && is_named(last, TCP_PROXY_NAME)) {
        return Err(at.refuse(alloc, Reason::BadForm));
    }
    let (filters, cluster) = ending::<NetworkFilterForm, Proxy>(alloc, front, last, at)?;
    Ok(ChainBody::Tcp { filters, cluster })
}

fn all_network_filters(items: &[Value]) -> bool
    ensures { result ≡ small.items_all form.is_network_filter (items_view items.now) }
{
    for v in items {
        if !(is_named(v, NETWORK_RBAC_NAME) || is_named(v, NETWORK_AUTHZ_NAME)) {
            return false;
        }
    }
    true
}

struct NetworkFilterForm;

impl Form for NetworkFilterForm {
    type Out = NetworkFilter;

    ghost faults = { form.network_filter_faults };

    ghost value = { form.network_filter_in };

    #[tactic(auto, unfolding(envoy_types::specs::FilterForms::network_filter_faults, envoy_types::specs::FilterForms::network_filter_in))]
    fn read(alloc: Global, v: &Value, at: &Spot) -> Result<NetworkFilter, DocError> {
        if is_named(v, NETWORK_RBAC_NAME) {
            return Ok(NetworkFilter::Rbac(read_network_rbac(alloc, v, at)?));
        }
        Ok(NetworkFilter::ExtAuthz(read_network_authz(alloc, v, at)?))
    }
}

// The TCP proxy, which means its cluster.
struct Proxy;

impl Form for Proxy {
    type Out = Text;

    ghost faults = { form.proxy_faults };

    ghost value = { form.proxy_in };

    #[tactic(auto, unfolding(envoy_types::specs::FilterForms::proxy_in))]
    fn read(alloc: Global, v: &Value, at: &Spot) -> Result<Text, DocError> {
        named::<ProxyConfig>(alloc, v, TCP_PROXY_NAME, at)
    }
}

struct ProxyConfig;

impl Form for ProxyConfig {
    ghost use Rattle.mesh_doc.specs.Fields.{required_written_in};
    ghost use Rattle.mesh_doc.specs.Kinds.{text_in};

    type Out = Text;

    ghost faults = { form.proxy_config_faults };

    ghost value = { required_written_in keys.CLUSTER.now text_in };

    #[tactic(auto, unfolding(envoy_types::specs::FilterForms::proxy_config_faults))]
    fn read(alloc: Global, v: &Value, at: &Spot) -> Result<Text, DocError> {
        at.only_fields(alloc, v, &[TYPE, CLUSTER, STAT_PREFIX])?;
        fixed_field(alloc, v, TYPE, TCP_PROXY_TYPE, at)?;
        let cluster = required_written::<AnyText>(alloc, v, CLUSTER, at)?;
        fixed_field(alloc, v, STAT_PREFIX, &cluster, at)?;
        Ok(cluster)
    }
}
