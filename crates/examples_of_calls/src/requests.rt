// A RequestAuthentication in short: its name, its labels, and of each rule the issuer, the audiences, the keys, the
// places, and what goes on to the application.
use crate::shown::push_labels;
use call_lines::Stop;
use mesh_policy::{JwtRule, Keys, RequestAuthentication, TokenPlace};
use std::alloc::Global;

pub fn shown(alloc: Global, policy: &RequestAuthentication) -> Result<String, Stop> {
    let mut out = String::new(alloc);
    write!(out, "{}/{}: ", policy.namespace, policy.name)?;
    push_labels(&mut out, &policy.labels)?;
    for rule in &policy.rules {
        push_rule(&mut out, rule)?;
    }
    Ok(out)
}

pub fn push_rule(out: &mut String, rule: &JwtRule) -> Result<(), Stop> {
    write!(out, "| {} [", rule.issuer)?;
    for audience in &rule.audiences {
        write!(out, "{audience} ")?;
    }
    push_keys(out, &rule.keys)?;
    for place in &rule.places {
        push_place(out, place)?;
    }
    if rule.forward {
        out.push_str(" forward")?;
    }
    if let Some(name) = &rule.payload_header {
        write!(out, " payload {name}")?;
    }
    Ok(())
}

fn push_keys(out: &mut String, keys: &Keys) -> Result<(), Stop> {
    match keys {
        Keys::Inline(set) => write!(out, "] inline {set}")?,
        Keys::Uri(uri) => write!(out, "] uri {uri}")?,
    }
    Ok(())
}

fn push_place(out: &mut String, place: &TokenPlace) -> Result<(), Stop> {
    match place {
        TokenPlace::Header { name, prefix } => { write!(out, " {name}:<{prefix}>")? }
        TokenPlace::Param(name) => write!(out, " ?{name}")?,
    }
    Ok(())
}
