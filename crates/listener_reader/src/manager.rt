//! The connection manager, read from JSON, with its filters.
ghost use Rattle.std.specs.Prelude.{◌≡◌};
ghost use Rattle.serde_json.specs.Data.{array};
ghost use Rattle.serde_json.specs.View.{items_view, view};
ghost use Rattle.mesh_doc.specs.Faults.{Reads};
ghost use Rattle.envoy_types.specs.FilterForms as form;
ghost use Rattle.envoy_types.specs.SmallForms as small;

use crate::authz::read_http_authz;
use crate::jwt::read_jwt;
use crate::lists::ending;
use crate::parts::{is_named, plain_filter};
use crate::rbac::read_http_rbac;
use crate::routes::RouteConfig;
use envoy_types::keys::{HTTP_FILTERS, ROUTE_CONFIG, STAT_PREFIX, TYPE};
use envoy_types::{
    ChainBody, HTTP_AUTHZ_NAME, HTTP_MANAGER_NAME, HTTP_MANAGER_TYPE, HTTP_RBAC_NAME, HttpFilter,
    JWT_NAME, ROUTER_NAME, ROUTER_TYPE,
};
use leaf_json::{MOST_ENTRIES, fixed_field, named};
use mesh_doc::{DocError, Form, Reason, Spot, required_written};
use mesh_text::List;
use serde_json::Value;
use std::alloc::Global;

/// The connection manager.
pub(crate) struct Manager;

impl Form for Manager {
    type Out = ChainBody;

    ghost faults = { form.manager_faults };

    ghost value = { form.manager_in };

    #[tactic(auto, unfolding(envoy_types::specs::FilterForms::manager_in))]
    fn read(alloc: Global, v: &Value, at: &Spot) -> Result<ChainBody, DocError> {
        named::<Config>(alloc, v, HTTP_MANAGER_NAME, at)
    }
}

struct Config;

impl Form for Config {
    type Out = ChainBody;

    ghost faults = { form.manager_config_faults };

    ghost value = { form.manager_config_in };

    #[tactic(auto, unfolding(envoy_types::specs::FilterForms::manager_config_faults, envoy_types::specs::FilterForms::manager_config_in))]
    fn read(alloc: Global, v: &Value, at: &Spot) -> Result<ChainBody, DocError> {
        at.only_fields(alloc, v, &[TYPE, HTTP_FILTERS, ROUTE_CONFIG, STAT_PREFIX])?;
        fixed_field(alloc, v, TYPE, HTTP_MANAGER_TYPE, at)?;
        let filters = required_written::<HttpFilters>(alloc, v, HTTP_FILTERS, at)?;
        let cluster = required_written::<RouteConfig>(alloc, v, ROUTE_CONFIG, at)?;
        fixed_field(alloc, v, STAT_PREFIX, &cluster, at)?;
        Ok(ChainBody::Http { filters, cluster })
    }
}

// Filters, and then the router; nothing is read in a list of other kinds.
struct HttpFilters;

impl Form for HttpFilters {
    type Out = List<HttpFilter>;

    ghost faults = { form.http_filters_faults };

    ghost value = { small.front_in form.http_filter_in };

    #[tactic(auto, unfolding(envoy_types::specs::FilterForms::http_filters_faults, envoy_types::specs::SmallForms::short_list_faults, mesh_doc::specs::Kinds::list_faults))]
    fn read(alloc: Global, v: &Value, at: &Spot) -> Result<List<HttpFilter>, DocError> {
        let Value::Array(items) = v else {
            return Err(at.refuse(alloc, Reason::WrongType));
        };
        router_last(alloc, items.as_slice(), at)
    }
}

#[tactic(auto, unfolding(envoy_types::specs::FilterForms::http_filters_faults, envoy_types::specs::FilterForms::are_http_filters, envoy_types::specs::SmallForms::short_list_faults, envoy_types::specs::SmallForms::is_named, mesh_doc::specs::Kinds::list_faults, mesh_doc::specs::Kinds::length_in), using(crate::proofs::Endings::endings))]
fn router_last(alloc: Global, items: &[Value], at: &Spot) -> Result<List<HttpFilter>, DocError>
    ensures { Reads result
        (form.http_filters_faults (array (items_view items.now)) at.now)
        (small.front_in form.http_filter_in (array (items_view items.now))) }
{
    if items.len() > MOST_ENTRIES as usize {
        return Err(at.refuse(alloc, Reason::TooMany));
    }
    let Some((last, front)) = items.split_last() else {
        return Err(at.refuse(alloc, Reason::BadForm));
    };
    if !(all_http_filters(front) && is_named(last, ROUTER_NAME)) {
        return Err(at.refuse(alloc, Reason::BadForm));
    }
    let (filters, ()) = ending::<HttpFilterForm, Router>(alloc, front, last, at)?;
    Ok(filters)
}

fn all_http_filters(items: &[Value]) -> bool
    ensures { result ≡ small.items_all form.is_http_filter (items_view items.now) }
{
    for v in items {
        if !(is_named(v, HTTP_RBAC_NAME) || is_named(v, HTTP_AUTHZ_NAME) || is_named(v, JWT_NAME)) {
            return false;
        }
    }
    true
}

struct HttpFilterForm;

impl Form for HttpFilterForm {
    type Out = HttpFilter;

    ghost faults = { form.http_filter_faults };

    ghost value = { form.http_filter_in };

    #[tactic(auto, unfolding(envoy_types::specs::FilterForms::http_filter_faults, envoy_types::specs::FilterForms::http_filter_in))]
    fn read(alloc: Global, v: &Value, at: &Spot) -> Result<HttpFilter, DocError> {
        if is_named(v, HTTP_RBAC_NAME) {
            return Ok(HttpFilter::Rbac(read_http_rbac(alloc, v, at)?));
        }
        if is_named(v, HTTP_AUTHZ_NAME) {
            return Ok(HttpFilter::ExtAuthz(read_http_authz(alloc, v, at)?));
        }
        Ok(HttpFilter::Jwt(read_jwt(alloc, v, at)?))
    }
}

struct Router;

impl Form for Router {
    type Out = ();

    ghost faults = { form.router_faults };

    ghost value = { λ _. tt };

    #[tactic(auto, unfolding(envoy_types::specs::FilterForms::router_faults))]
    fn read(alloc: Global, v: &Value, at: &Spot) -> Result<(), DocError> {
        plain_filter(alloc, v, ROUTER_NAME, ROUTER_TYPE, at)
    }
}
