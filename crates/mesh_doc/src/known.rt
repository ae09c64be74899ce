//! The names of an object's fields, and the first field that has another.
ghost use Rattle.std.specs.Prelude.{◌≡◌, true, IfOk, OnOk, map};
ghost use Rattle.serde_json.specs.View.{view, members_view};
ghost use Rattle.mesh_doc.specs.Faults.{Reads};
ghost use Rattle.mesh_doc.specs.Kinds.{is_object};
ghost use Rattle.mesh_doc.specs.Known as known_fields;

use crate::{DocError, Place, Reason, Spot};
use mesh_text::Memory;
use serde_json::{Map, Value};
use std::alloc::Global;

/// As `Spot::only_fields`, at `place`, with the names in one text, which single spaces part.
pub fn only_fields(alloc: Global, v: &Value, known: &str, place: &Place) -> Result<(), DocError>
    ensures reads { Reads result
        (known_fields.unknown_faults (known_fields.names_of known.now) (view v.now) place.now)
        tt }
    ensures object { OnOk result (is_object (view v.now) ≡ true) }
{
    let names = names_of(alloc, known)?;
    Spot::of(place).only_fields(alloc, v, names.as_slice())
}

#[tactic(auto, unfolding(crate::specs::Known::names_of))]
fn names_of<'a>(alloc: Global, text: &'a str) -> Result<Vec<&'a str>, Memory>
    ensures { IfOk result (λ names. map (λ name. name.now) names.items ≡ known_fields.names_of text.now) }
{
    Ok(text.split(' ').collect(alloc)?)
}

impl<'a> Spot<'a> {
    /// Whether `v`, which stands here, is an object with no other fields than `known`. WrongType where it is no
    /// object, and else UnknownField at the first other key, in byte order; one that is `null` counts too.
    #[tactic(auto, unfolding(crate::specs::Known::unknown_faults, crate::specs::Kinds::object_faults))]
    pub fn only_fields(&self, alloc: Global, v: &Value, known: &[&str]) -> Result<(), DocError>
        ensures reads { Reads result
            (known_fields.unknown_faults (map (λ name. name.now) known.now) (view v.now) self.now)
            tt }
        ensures object { OnOk result (is_object (view v.now) ≡ true) }
    {
        match v {
            Value::Object(members) => only_known(alloc, members, known, self),
            _ => Err(self.refuse(alloc, Reason::WrongType)),
        }
    }
}

fn only_known(
    alloc: Global,
    members: &Map<String, Value>,
    known: &[&str],
    at: &Spot,
) -> Result<(), DocError>
    ensures { Reads result
        (known_fields.unknown_in (map (λ name. name.now) known.now) (members_view members.now.entries) at.now)
        tt }
{
    for (name, _) in members.iter() {
        if !is_known(known, name.as_str()) {
            return Err(Spot::key(at, name.as_str()).refuse(alloc, Reason::UnknownField));
        }
    }
    Ok(())
}

#[tactic(auto, unfolding(crate::specs::Known::is_known))]
fn is_known(known: &[&str], name: &str) -> bool
    ensures { result ≡ known_fields.is_known (map (λ word. word.now) known.now) name.now }
{
    known.iter().any(|word| *word == name)
}
