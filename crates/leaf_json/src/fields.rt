//! Objects, field by field. Each value is put in once, and none is looked up again.
ghost use Rattle.std.specs.Prelude.{◌≡◌, [], ◌∷◌, IfOk, OnErr, OnOk};
ghost use Rattle.serde_json.specs.Data.{no_members, object, string};
ghost use Rattle.serde_json.specs.View.{view};
ghost use Rattle.envoy_types.specs.WrittenFields as form;
ghost use Rattle.leaf_json.specs.Fields.{members_of};

use envoy_types::keys::{NAME, TYPE, TYPED_CONFIG};
use mesh_text::Memory;
use serde_json::{Map, Value, json};
use std::alloc::Global;

/// An object that is being written, by its fields so far. However they are put in, the members of the value stand in byte
/// order of their names (Protocol Buffers, "JSON Mapping"). Where a field finds no room, the call answers `Memory`, and the
/// fields stay as they were.
#[derive(Drop)]
pub struct Fields {
    members: Map<String, Value>,
}

impl Fields {
    /// The empty object. Takes no memory.
    pub fn new(alloc: Global) -> Fields
        ensures { members_of result ≡ no_members }
    {
        Fields {
            members: Map::new(alloc),
        }
    }

    /// Puts in a value under its name, in place of an earlier one of that name.
    pub fn put(&mut self, alloc: Global, name: &str, value: Value) -> Result<(), Memory>
        ensures ok { OnOk result (members_of self.new
            ≡ form.with_field (members_of self.old) (form.field name.now (view value))) }
        ensures err { OnErr result (members_of self.new ≡ members_of self.old) }
    {
        serde_json::put(&mut self.members, alloc, name, value)?;
        Ok(())
    }

    /// Puts in a text, even an empty one.
    pub fn put_text(&mut self, alloc: Global, name: &str, text: &str) -> Result<(), Memory>
        ensures ok { OnOk result (members_of self.new
            ≡ form.with_field (members_of self.old) (form.field name.now (string text.now))) }
        ensures err { OnErr result (members_of self.new ≡ members_of self.old) }
    {
        let value = text_value(alloc, text)?;
        self.put(alloc, name, value)
    }

    /// Puts in a text, unless it is empty, which is the default of a text.
    pub fn put_filled(&mut self, alloc: Global, name: &str, text: &str) -> Result<(), Memory>
        ensures ok { OnOk result (members_of self.new
            ≡ form.with_field (members_of self.old) (form.text_field name.now text.now)) }
        ensures err { OnErr result (members_of self.new ≡ members_of self.old) }
    {
        if text.is_empty() {
            Ok(())
        } else {
            self.put_text(alloc, name, text)
        }
    }

    /// Puts in `true`, unless it is `false`, which is the default of a truth value.
    pub fn put_true(&mut self, alloc: Global, name: &str, truth: bool) -> Result<(), Memory>
        ensures ok { OnOk result (members_of self.new
            ≡ form.with_field (members_of self.old) (form.truth_field name.now truth)) }
        ensures err { OnErr result (members_of self.new ≡ members_of self.old) }
    {
        if truth {
            self.put(alloc, name, Value::Bool(true))
        } else {
            Ok(())
        }
    }

    /// The object of the fields. Takes no memory.
    pub fn into_value(self) -> Value
        ensures { view result ≡ object (members_of self) }
    {
        let Fields { members } = self;
        Value::Object(members)
    }
}

/// An object of one field; `Memory` where there is no room.
pub fn sole_field(alloc: Global, name: &str, value: Value) -> Result<Value, Memory>
    ensures { IfOk result (λ v. view v ≡ form.sole_field name.now (view value)) }
{
    let mut fields = Fields::new(alloc);
    fields.put(alloc, name, value)?;
    Ok(fields.into_value())
}

/// A text as a value; `Memory` where there is no room.
pub fn text_value(alloc: Global, text: &str) -> Result<Value, Memory>
    ensures { IfOk result (λ v. view v ≡ string text.now) }
{
    Ok(Value::String(String::from_str(alloc, text)?))
}

/// A whole number as a value; `Memory` where there is no room.
pub fn number_value(alloc: Global, number: u16) -> Result<Value, Memory>
    ensures { IfOk result (λ v. view v ≡ form.number_written number) }
{
    Ok(json!(in alloc; number)?)
}

/// A filter, a socket or a matcher by its name, with its configuration (Envoy v3 API, `config.core.v3.TypedExtensionConfig`);
/// `Memory` where there is no room.
#[tactic(auto, unfolding(envoy_types::specs::WrittenFields::named_written))]
pub fn named_value(alloc: Global, name: &str, config: Value) -> Result<Value, Memory>
    ensures { IfOk result (λ v. view v ≡ form.named_written name.now (view config)) }
{
    let mut fields = Fields::new(alloc);
    fields.put_text(alloc, NAME, name)?;
    fields.put(alloc, TYPED_CONFIG, config)?;
    Ok(fields.into_value())
}

/// A configuration by its type URL (Protocol Buffers, "JSON Mapping": `Any`), to which its fields are added; `Memory` where
/// there is no room.
pub fn config_of(alloc: Global, type_url: &str) -> Result<Fields, Memory>
    ensures { IfOk result (λ f. members_of f ≡ form.fields_onto no_members (form.field TYPE.now (string type_url.now) ∷ [])) }
{
    let mut fields = Fields::new(alloc);
    fields.put_text(alloc, TYPE, type_url)?;
    Ok(fields)
}
