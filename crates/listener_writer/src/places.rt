//! The places of tokens as JSON: headers in one list, parameters of the query in another.
ghost use Rattle.std.specs.List.{filter_map};
ghost use Rattle.std.specs.Prelude.{◌≡◌, [], ◌∷◌, ◌++◌, IfOk, OnOk, map};
ghost use Rattle.serde_json.specs.Data.{string};
ghost use Rattle.serde_json.specs.View.{view};
ghost use Rattle.envoy_types.specs.ProviderForms as form;
ghost use Rattle.envoy_types.specs.WrittenFields.{list_field, with_field};
ghost use Rattle.leaf_json.specs.Fields.{members_of};

use crate::lists::put_values;
use envoy_types::keys::{FROM_HEADERS, FROM_PARAMS, NAME, VALUE_PREFIX};
use leaf_json::{Fields, text_value};
use mesh_policy::TokenPlace;
use mesh_text::Memory;
use serde_json::Value;
use std::alloc::Global;

/// The headers among the places, unless there is none.
#[tactic(auto, unfolding(envoy_types::specs::WrittenFields::list_written))]
pub(crate) fn put_headers(
    alloc: Global,
    fields: &mut Fields,
    places: &[TokenPlace],
) -> Result<(), Memory>
    ensures { OnOk result (members_of fields.new ≡ with_field (members_of fields.old)
        (list_field FROM_HEADERS.now form.from_header_written (filter_map form.header_of places.now))) }
{
    let values = header_values(alloc, places)?;
    put_values(alloc, fields, FROM_HEADERS, values)
}

fn header_values(alloc: Global, places: &[TokenPlace]) -> Result<Vec<Value>, Memory>
    ensures { IfOk result (λ vs. map view vs.items ≡ map form.from_header_written (filter_map form.header_of places.now)) }
{
    let mut values = Vec::new(alloc);
    for place in places {
        push_header(alloc, &mut values, place)?;
    }
    Ok(values)
}

// The header, if the place is one.
fn push_header(alloc: Global, values: &mut Vec<Value>, place: &TokenPlace) -> Result<(), Memory>
    ensures { OnOk result (map view values.new.items
        ≡ map view values.old.items ++ map form.from_header_written (filter_map form.header_of (place.now ∷ []))) }
{
    match place {
        TokenPlace::Header { name, prefix } => {
            let value = from_header(alloc, name, prefix)?;
            serde_json::push(values, value)?;
            Ok(())
        }
        TokenPlace::Param(_) => Ok(()),
    }
}

#[tactic(auto, unfolding(envoy_types::specs::ProviderForms::from_header_written))]
fn from_header(alloc: Global, name: &str, prefix: &str) -> Result<Value, Memory>
    ensures { IfOk result (λ v. view v ≡ form.from_header_written (name.now, prefix.now)) }
{
    let mut fields = Fields::new(alloc);
    fields.put_text(alloc, NAME, name)?;
    fields.put_filled(alloc, VALUE_PREFIX, prefix)?;
    Ok(fields.into_value())
}

/// The parameters among the places, unless there is none.
#[tactic(auto, unfolding(envoy_types::specs::WrittenFields::list_written))]
pub(crate) fn put_params(
    alloc: Global,
    fields: &mut Fields,
    places: &[TokenPlace],
) -> Result<(), Memory>
    ensures { OnOk result (members_of fields.new ≡ with_field (members_of fields.old)
        (list_field FROM_PARAMS.now string (filter_map form.param_of places.now))) }
{
    let values = param_values(alloc, places)?;
    put_values(alloc, fields, FROM_PARAMS, values)
}

fn param_values(alloc: Global, places: &[TokenPlace]) -> Result<Vec<Value>, Memory>
    ensures { IfOk result (λ vs. map view vs.items ≡ map string (filter_map form.param_of places.now)) }
{
    let mut values = Vec::new(alloc);
    for place in places {
        push_param(alloc, &mut values, place)?;
    }
    Ok(values)
}

// The parameter, if the place is one.
fn push_param(alloc: Global, values: &mut Vec<Value>, place: &TokenPlace) -> Result<(), Memory>
    ensures { OnOk result (map view values.new.items
        ≡ map view values.old.items ++ map string (filter_map form.param_of (place.now ∷ []))) }
{
    match place {
        TokenPlace::Header { .. } => Ok(()),
        TokenPlace::Param(name) => {
            let value = text_value(alloc, name)?;
            serde_json::push(values, value)?;
            Ok(())
        }
    }
}
