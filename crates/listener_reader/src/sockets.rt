//! TLS sockets and listener filters, read from JSON: they have no field that may differ, so that they mean nothing more.
ghost use Rattle.serde_json.specs.Data.{array};
ghost use Rattle.serde_json.specs.View.{items_view, view};
ghost use Rattle.mesh_doc.specs.Faults.{Reads};
ghost use Rattle.envoy_types.specs.SocketForms as form;

use crate::lists::{FormWith, Sole, required_with};
use crate::parts::plain_filter;
use envoy_types::fixed::{MESH_ROOTS, OWN_CERTIFICATE};
use envoy_types::keys::{
    COMMON_TLS_CONTEXT, NAME, REQUIRE_CLIENT_CERTIFICATE, TLS_CERTIFICATES, TYPE,
    VALIDATION_CONTEXT,
};
use envoy_types::{
    ORIGINAL_DST_NAME, ORIGINAL_DST_TYPE, TLS_INSPECTOR_NAME, TLS_INSPECTOR_TYPE, TLS_SOCKET_NAME,
    TLS_SOCKET_TYPE,
};
use leaf_json::{MOST_ENTRIES, TrueAlone, fixed_field, named};
use mesh_doc::{DocError, Form, Reason, Spot, required_written};
use serde_json::Value;
use std::alloc::Global;

/// The TLS socket that asks for the peer's certificate.
pub(crate) struct SocketForm;

impl Form for SocketForm {
    type Out = ();

    ghost faults = { form.socket_faults };

    ghost value = { λ _. tt };

    fn read(alloc: Global, v: &Value, at: &Spot) -> Result<(), DocError> {
        named::<TlsContext>(alloc, v, TLS_SOCKET_NAME, at)
    }
}

struct TlsContext;

impl Form for TlsContext {
    type Out = ();

    ghost faults = { form.tls_context_faults };

    ghost value = { λ _. tt };

    #[tactic(auto, unfolding(envoy_types::specs::SocketForms::tls_context_faults))]
    fn read(alloc: Global, v: &Value, at: &Spot) -> Result<(), DocError> {
        at.only_fields(
            alloc,
            v,
            &[TYPE, COMMON_TLS_CONTEXT, REQUIRE_CLIENT_CERTIFICATE],
        )?;
        fixed_field(alloc, v, TYPE, TLS_SOCKET_TYPE, at)?;
        required_written::<Certificates>(alloc, v, COMMON_TLS_CONTEXT, at)?;
        required_written::<TrueAlone>(alloc, v, REQUIRE_CLIENT_CERTIFICATE, at)?;
        Ok(())
    }
}

struct Certificates;

impl Form for Certificates {
    type Out = ();

    ghost faults = { form.certificates_faults };

    ghost value = { λ _. tt };

    #[tactic(auto, unfolding(envoy_types::specs::SocketForms::certificates_faults))]
    fn read(alloc: Global, v: &Value, at: &Spot) -> Result<(), DocError> {
        at.only_fields(alloc, v, &[TLS_CERTIFICATES, VALIDATION_CONTEXT])?;
        required_with::<Sole<Secret>>(alloc, &OWN_CERTIFICATE, v, TLS_CERTIFICATES, at)?;
        required_with::<Secret>(alloc, &MESH_ROOTS, v, VALIDATION_CONTEXT, at)
    }
}

// A secret by its name.
struct Secret;

impl FormWith for Secret {
    type Given = &'static str;

    type Out = ();

    ghost faults = { λ name. form.secret_faults name.now };

    ghost value = { λ _. tt };

    #[tactic(auto, unfolding(envoy_types::specs::SocketForms::secret_faults))]
    fn read(alloc: Global, given: &&'static str, v: &Value, at: &Spot) -> Result<(), DocError> {
        at.only_fields(alloc, v, &[NAME])?;
        fixed_field(alloc, v, NAME, given, at)
    }
}

/// The original destination, and then the TLS inspector.
pub(crate) struct ListenerFilters;

impl Form for ListenerFilters {
    type Out = ();

    ghost faults = { form.listener_filters_faults };

    ghost value = { λ _. tt };

    #[tactic(auto, unfolding(envoy_types::specs::SocketForms::listener_filters_faults, envoy_types::specs::SmallForms::list_in_turn_that, envoy_types::specs::SmallForms::short_list_faults, mesh_doc::specs::Kinds::list_faults))]
    fn read(alloc: Global, v: &Value, at: &Spot) -> Result<(), DocError> {
        let Value::Array(items) = v else {
            return Err(at.refuse(alloc, Reason::WrongType));
        };
        two_filters(alloc, items.as_slice(), at)
    }
}

#[tactic(auto, unfolding(envoy_types::specs::SocketForms::listener_filters_faults, envoy_types::specs::SocketForms::original_dst_faults, envoy_types::specs::SocketForms::tls_inspector_faults, envoy_types::specs::SmallForms::list_in_turn_that, envoy_types::specs::SmallForms::short_list_faults, mesh_doc::specs::Kinds::list_faults, mesh_doc::specs::Kinds::length_in, mesh_doc::specs::Turns::list_in_turn), using(mesh_doc::proofs::Counts::count_of_items))]
fn two_filters(alloc: Global, items: &[Value], at: &Spot) -> Result<(), DocError>
    ensures { Reads result (form.listener_filters_faults (array (items_view items.now)) at.now) tt }
{
    if items.len() > MOST_ENTRIES as usize {
        return Err(at.refuse(alloc, Reason::TooMany));
    }
    let [destination, inspector] = items else {
        return Err(at.refuse(alloc, Reason::BadForm));
    };
    let (first, second) = (Spot::index(at, 0), Spot::index(at, 1));
    plain_filter(
        alloc,
        destination,
        ORIGINAL_DST_NAME,
        ORIGINAL_DST_TYPE,
        &first,
    )?;
    plain_filter(
        alloc,
        inspector,
        TLS_INSPECTOR_NAME,
        TLS_INSPECTOR_TYPE,
        &second,
    )
}
