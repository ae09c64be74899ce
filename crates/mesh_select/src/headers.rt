// The headers that conditions test, and those that token filters change.
ghost use Rattle.std.specs.Prelude.{◌≡◌, ◌++◌, flat_map, map, IfOk, OnOk};
ghost use Rattle.std.specs.Option.{option_to_list};
ghost use Rattle.mesh_policy.specs.SelectFault as fault;
ghost use Rattle.mesh_select.specs.Headers as meant;

use crate::paired::ByPair;
use mesh_policy::{
    AuthorizationPolicy, Condition, JwtRule, RequestAuthentication, Rule, TextKey, TokenPlace,
};
use mesh_text::Memory;
use std::alloc::Global;

/// The headers that the conditions of policies test.
pub(crate) fn tested<'a>(
    alloc: Global,
    policies: &[ByPair<'a, AuthorizationPolicy>],
) -> Result<Vec<&'a str>, Memory>
    ensures { IfOk result (λ v. map (λ t. t.now) v.items ≡ fault.tested_headers policies.now) }
{
    let mut names = Vec::new(alloc);
    for entry in policies {
        let policy = entry.item;
        add_tested(&mut names, &policy.rules)?;
    }
    Ok(names)
}

fn add_tested<'a>(names: &mut Vec<&'a str>, rules: &'a [Rule]) -> Result<(), Memory>
    ensures { OnOk result (map (λ t. t.now) names.new.items ≡ map (λ t. t.now) names.old.items ++ meant.tested_by_rules rules.now) }
{
    for rule in rules {
        add_conditions(names, &rule.conditions)?;
    }
    Ok(())
}

fn add_conditions<'a>(names: &mut Vec<&'a str>, conditions: &'a [Condition]) -> Result<(), Memory>
    ensures { OnOk result (map (λ t. t.now) names.new.items
        ≡ map (λ t. t.now) names.old.items ++ flat_map fault.headers_of_condition conditions.now) }
{
    for condition in conditions {
        if let Some(name) = header_of(condition) {
            names.push(name)?;
        }
    }
    Ok(())
}

fn header_of(condition: &Condition) -> Option<&str>
    ensures { meant.listed result ≡ fault.headers_of_condition condition.now }
{
    match condition {
        Condition::Words { key, .. } => header_in(key),
        Condition::Blocks { .. } => None,
        Condition::Ports { .. } => None,
    }
}

fn header_in(key: &TextKey) -> Option<&str>
    ensures { meant.listed result ≡ fault.header_in key.now }
{
    match key {
        TextKey::Header(name) => Some(name.as_str()),
        _ => None,
    }
}

/// The headers that the rules of tokens change: those of tokens that don't go on, and those of payloads.
pub(crate) fn changed<'a>(alloc: Global, rules: &[&'a JwtRule]) -> Result<Vec<&'a str>, Memory>
    ensures { IfOk result (λ v. map (λ t. t.now) v.items ≡ fault.changed_headers (map (λ r. r.now) rules.now)) }
{
    let mut names = Vec::new(alloc);
    for rule in rules {
        add_changed(&mut names, *rule)?;
    }
    Ok(names)
}

fn add_changed<'a>(names: &mut Vec<&'a str>, rule: &'a JwtRule) -> Result<(), Memory>
    ensures { OnOk result (map (λ t. t.now) names.new.items ≡ map (λ t. t.now) names.old.items ++ meant.changed_by rule.now) }
{
    add_taken(names, rule)?;
    add_payload(names, rule)
}

fn add_taken<'a>(names: &mut Vec<&'a str>, rule: &'a JwtRule) -> Result<(), Memory>
    ensures { OnOk result (map (λ t. t.now) names.new.items ≡ map (λ t. t.now) names.old.items ++ meant.taken_headers rule.now) }
{
    if rule.forward {
        Ok(())
    } else {
        add_places(names, &rule.places)
    }
}

fn add_payload<'a>(names: &mut Vec<&'a str>, rule: &'a JwtRule) -> Result<(), Memory>
    ensures { OnOk result (map (λ t. t.now) names.new.items ≡ map (λ t. t.now) names.old.items ++ option_to_list rule.now.payload_header) }
{
    match &rule.payload_header {
        Some(name) => {
            names.push(name.as_str())?;
            Ok(())
        }
        None => Ok(()),
    }
}

fn add_places<'a>(names: &mut Vec<&'a str>, places: &'a [TokenPlace]) -> Result<(), Memory>
    ensures { OnOk result (map (λ t. t.now) names.new.items
        ≡ map (λ t. t.now) names.old.items ++ flat_map fault.headers_of_place places.now) }
{
    for place in places {
        if let TokenPlace::Header { name, .. } = place {
            names.push(name.as_str())?;
        }
    }
    Ok(())
}
