// Copies of policies that are read from a `spec`.
use crate::authorization;
use crate::requests::push_rule;
use crate::specs_of_policies::{authorization_of, request_of};
use call_lines::{Call, Stop};
use mesh_policy::JwtRule;
use serde_json::Value;
use std::alloc::Global;

pub fn answer(alloc: Global, call: &Call) -> Result<Option<String>, Stop> {
    match call.name {
        "AuthorizationPolicy::copy" => Ok(Some(policy(alloc, call.value(0)?)?)),
        "JwtRule::copy" => Ok(Some(rules(alloc, call.value(0)?)?)),
        "Keys::copy" => Ok(Some(keys(alloc, call.value(0)?)?)),
        _ => Ok(None),
    }
}

fn policy(alloc: Global, spec: &Value) -> Result<String, Stop> {
    let Ok(policy) = authorization_of(alloc, Some(spec))? else {
        return Err(Stop::Arguments);
    };
    let copy = policy.copy(alloc)?;
    let is_equal = copy == policy;
    let shown = authorization::shown(alloc, &copy)?;
    Ok(format!(in alloc; "{shown}, equal {is_equal}")?)
}

// The copy of each rule.
fn rules(alloc: Global, spec: &Value) -> Result<String, Stop> {
    let Ok(policy) = request_of(alloc, Some(spec))? else {
        return Err(Stop::Arguments);
    };
    let mut out = String::new(alloc);
    for rule in &policy.rules {
        push_copy(alloc, &mut out, rule)?;
    }
    Ok(out)
}

fn push_copy(alloc: Global, out: &mut String, rule: &JwtRule) -> Result<(), Stop> {
    let copy = rule.copy(alloc)?;
    let is_equal = copy == *rule;
    push_rule(out, &copy)?;
    write!(out, ", equal {is_equal}")?;
    Ok(())
}

// Whether the copy of the keys of each rule is equal.
fn keys(alloc: Global, spec: &Value) -> Result<String, Stop> {
    let Ok(policy) = request_of(alloc, Some(spec))? else {
        return Err(Stop::Arguments);
    };
    let mut out = String::new(alloc);
    for rule in &policy.rules {
        let copy = rule.keys.copy(alloc)?;
        let is_equal = copy == rule.keys;
        write!(out, "equal {is_equal} ")?;
    }
    Ok(out)
}
