//! A place and a fault as text.
ghost use Rattle.std.specs.Prelude.{◌≡◌, ◌++◌, OnOk, IfOk, string_bytes, encode_utf8};
ghost use Rattle.std.specs.Fmt.{decimal};
ghost use Rattle.mesh_doc.specs.Printed as printed;

use crate::{Fault, Place, Step};
use mesh_text::{Memory, Text};
use std::alloc::Global;

/// The fault as refusals print it: `PLACE: REASON`.
pub fn fault_text(alloc: Global, fault: &Fault) -> Result<Text, Memory>
    ensures { IfOk result (λ t. t ≡ printed.fault_text fault.now) }
{
    let place = place_text(alloc, &fault.place)?;
    let reason = fault.reason.name();
    Ok(Text::from_string(format!(in alloc; "{place}: {reason}")?))
}

/// The place as refusals print it: `$` and its JSON Pointer (RFC 6901), with `~0` for `~` and `~1` for `/` in a key,
/// and with `?` for a byte below U+0020.
pub fn place_text(alloc: Global, place: &Place) -> Result<Text, Memory>
    ensures { IfOk result (λ t. t ≡ printed.shown place.now) }
{
    let mut out = String::from_str(alloc, "$")?;
    for step in place.as_slice() {
        push_step(&mut out, step)?;
    }
    Text::of(alloc, out.as_str())
}

fn push_step(out: &mut String, step: &Step) -> Result<(), Memory>
    ensures { OnOk result (string_bytes out.new ≡ string_bytes out.old ++ printed.shown_step step.now) }
{
    out.push_str("/")?;
    match step {
        Step::Key(key) => push_key(out, key),
        Step::Index(index) => push_index(out, *index),
    }
}

fn push_index(out: &mut String, index: u32) -> Result<(), Memory>
    ensures { OnOk result (string_bytes out.new ≡ string_bytes out.old ++ decimal index) }
{
    write!(out, "{index}")?;
    Ok(())
}

#[tactic(auto, using(std::proofs::lemmas::Grind::common_steps))]
fn push_key(out: &mut String, key: &str) -> Result<(), Memory>
    ensures { OnOk result (string_bytes out.new ≡ string_bytes out.old ++ printed.shown_key key.now) }
{
    for c in key.chars() {
        push_shown(out, c)?;
    }
    Ok(())
}

#[tactic(auto, using(crate::proofs::Characters::shown_ascii, crate::proofs::Characters::shown_wide))]
fn push_shown(out: &mut String, c: char) -> Result<(), Memory>
    ensures { OnOk result (string_bytes out.new ≡ string_bytes out.old ++ printed.shown_key (encode_utf8 c)) }
{
    match c {
        '~' => out.push_str("~0")?,
        '/' => out.push_str("~1")?,
        '\0'..='\x1f' => out.push_str("?")?,
        _ => out.push(c)?,
    }
    Ok(())
}
