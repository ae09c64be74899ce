// Forms of JSON made of those of `mesh_doc`.
ghost use Rattle.std.specs.Prelude.{◌≡◌, ◌==◌, not};
ghost use Rattle.std.specs.List.{list_any};

use mesh_doc::{
    AnyNumber, AnyText, AnyTruth, DocError, Entry, Form, InTurn, Reason, Spot, TextTest, listed,
    members, optional, required,
};
use mesh_text::{List, Text, is_token};
use serde_json::Value;
use std::alloc::Global;

/// What a strict object says: an optional text `name`, a required number `x`, a list `on` of at most 2 truth values,
/// and an object `more` of numbers.
#[derive(Drop)]
pub struct Point {
    pub name: Option<Text>,
    pub x: u64,
    pub on: List<bool>,
    pub more: Option<List<u64>>,
}

pub fn read_point(alloc: Global, v: &Value, at: &Spot) -> Result<Point, DocError> {
    at.only_fields(alloc, v, &["name", "x", "on", "more"])?;
    let name = optional::<AnyText>(alloc, v, "name", at)?;
    let x = required::<AnyNumber>(alloc, v, "x", at)?;
    let on = listed::<AnyTruth>(alloc, v, "on", 2, at)?;
    let more = optional::<Numbers>(alloc, v, "more", at)?;
    Ok(Point { name, x, on, more })
}

/// An object of numbers.
pub struct Numbers;

impl Form for Numbers {
    ghost use Rattle.mesh_doc.specs.Kinds.{number_faults, number_in};
    ghost use Rattle.mesh_doc.specs.Maps.{map_of, map_in};

    type Out = List<u64>;

    ghost faults = { map_of (λ _. number_faults) };

    ghost value = { map_in (λ _. number_in) };

    fn read(alloc: Global, v: &Value, at: &Spot) -> Result<List<u64>, DocError> {
        members::<NumberEntry>(alloc, v, at)
    }
}

struct NumberEntry;

impl Entry for NumberEntry {
    ghost use Rattle.mesh_doc.specs.Kinds.{number_faults, number_in};

    type Out = u64;

    ghost faults = { λ _. number_faults };

    ghost value = { λ _. number_in };

    fn read(alloc: Global, _key: &str, v: &Value, at: &Spot) -> Result<u64, DocError> {
        AnyNumber::read(alloc, v, at)
    }
}

/// A number that no earlier entry is.
pub struct Distinct;

impl InTurn for Distinct {
    ghost use Rattle.std.specs.Prelude.{◌∷◌, ◌++◌, []};
    ghost use Rattle.mesh_doc.specs.Faults.{demands, ◌▸◌};
    ghost use Rattle.mesh_doc.specs.Kinds.{number_faults, number_in};
    ghost use Rattle.mesh_doc.specs.declared.reason.Reason.TheVariants.{DuplicateItem};

    type Out = u64;

    type Seen = List<u64>;

    ghost faults = { λ seen. number_faults ▸ demands (λ d. not (list_any (λ n. n == number_in d) seen)) DuplicateItem };

    ghost value = { number_in };

    ghost after = { λ seen d. seen ++ number_in d ∷ [] };

    fn read(alloc: Global, seen: &mut List<u64>, v: &Value, at: &Spot) -> Result<u64, DocError> {
        let number = AnyNumber::read(alloc, v, at)?;
        if stands_in(seen.as_slice(), number) {
            return Err(at.refuse(alloc, Reason::DuplicateItem));
        }
        seen.push(number)?;
        Ok(number)
    }
}

fn stands_in(seen: &[u64], number: u64) -> bool
    ensures { result ≡ list_any (λ n. n == number) seen.now }
{
    seen.iter().any(|n| *n == number)
}

/// A token of HTTP, else BadName.
pub struct Token;

impl TextTest for Token {
    ghost use Rattle.mesh_text.specs.Token.{is_token};
    ghost use Rattle.mesh_doc.specs.declared.reason.Reason.TheVariants.{BadName};

    ghost passes = { is_token };

    ghost reason = { BadName };

    fn passes(text: &str) -> bool {
        is_token(text)
    }

    fn reason() -> Reason {
        Reason::BadName
    }
}
