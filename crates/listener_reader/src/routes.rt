//! The routes of a connection manager, read from JSON: each of their texts is fixed, or the name of the routes.
ghost use Rattle.serde_json.specs.View.{view};
ghost use Rattle.mesh_doc.specs.Faults.{Reads};
ghost use Rattle.envoy_types.specs.FilterForms as form;

use crate::lists::{FormWith, Sole, required_with};
use crate::parts::{Fixed, required_inside};
use envoy_types::fixed::{ALL_DOMAINS, ALL_PATHS, INBOUND_HOST};
use envoy_types::keys::{CLUSTER, DOMAINS, MATCH, NAME, PREFIX, ROUTE, ROUTES, VIRTUAL_HOSTS};
use leaf_json::fixed_field;
use mesh_doc::{AnyText, DocError, Form, Spot, required_written};
use mesh_text::Text;
use serde_json::Value;
use std::alloc::Global;

/// The route configuration, which means its name.
pub(crate) struct RouteConfig;

impl Form for RouteConfig {
    ghost use Rattle.mesh_doc.specs.Fields.{required_written_in};
    ghost use Rattle.mesh_doc.specs.Kinds.{text_in};
    ghost use Rattle.envoy_types.specs.declared.keys.TheConstants as keys;

    type Out = Text;

    ghost faults = { form.route_config_faults };

    ghost value = { required_written_in keys.NAME.now text_in };

    #[tactic(auto, unfolding(envoy_types::specs::FilterForms::route_config_faults))]
    fn read(alloc: Global, v: &Value, at: &Spot) -> Result<Text, DocError> {
        at.only_fields(alloc, v, &[NAME, VIRTUAL_HOSTS])?;
        let name = required_written::<AnyText>(alloc, v, NAME, at)?;
        required_with::<Sole<VirtualHost>>(alloc, &name, v, VIRTUAL_HOSTS, at)?;
        Ok(name)
    }
}

struct VirtualHost;

impl FormWith for VirtualHost {
    type Given = Text;

    type Out = ();

    ghost faults = { form.virtual_host_faults };

    ghost value = { λ _. tt };

    #[tactic(auto, unfolding(envoy_types::specs::FilterForms::virtual_host_faults))]
    fn read(alloc: Global, given: &Text, v: &Value, at: &Spot) -> Result<(), DocError> {
        at.only_fields(alloc, v, &[DOMAINS, NAME, ROUTES])?;
        required_with::<Sole<Fixed>>(alloc, &ALL_DOMAINS, v, DOMAINS, at)?;
        fixed_field(alloc, v, NAME, INBOUND_HOST, at)?;
        required_with::<Sole<Route>>(alloc, given, v, ROUTES, at)
    }
}

struct Route;

impl FormWith for Route {
    type Given = Text;

    type Out = ();

    ghost faults = { form.route_faults };

    ghost value = { λ _. tt };

    #[tactic(auto, unfolding(envoy_types::specs::FilterForms::route_faults, envoy_types::specs::FilterForms::route_match_faults, envoy_types::specs::FilterForms::route_action_faults))]
    fn read(alloc: Global, given: &Text, v: &Value, at: &Spot) -> Result<(), DocError> {
        at.only_fields(alloc, v, &[MATCH, ROUTE])?;
        required_inside::<Fixed>(alloc, &ALL_PATHS, v, MATCH, PREFIX, at)?;
        required_inside::<Fixed>(alloc, &given.as_str(), v, ROUTE, CLUSTER, at)
    }
}
