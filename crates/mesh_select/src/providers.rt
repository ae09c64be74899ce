// The external authorizers that CUSTOM policies name.
ghost use Rattle.std.specs.Prelude.{◌≡◌, filter, filter_map, find, map, IfOk};
ghost use Rattle.std.specs.Option.{option_copied};
ghost use Rattle.std.specs.Str.{bytes_eq};
ghost use Rattle.mesh_policy.specs.Lists.{first_answer};
ghost use Rattle.mesh_policy.specs.Workload.{is_action};
ghost use Rattle.mesh_policy.specs.declared.policy.Action.TheVariants.{Custom};

use crate::paired::ByPair;
use mesh_policy::{Action, AuthorizationPolicy, Provider};
use mesh_text::Memory;
use std::alloc::Global;

/// The names that the CUSTOM policies write, in the order of the policies.
pub(crate) fn written<'a>(
    alloc: Global,
    policies: &[ByPair<'a, AuthorizationPolicy>],
) -> Result<Vec<&'a str>, Memory>
    ensures { IfOk result (λ v. map (λ t. t.now) v.items
        ≡ filter_map (λ policy. policy.provider) (filter (λ policy. is_action Custom policy.action) policies.now)) }
{
    let mut names = Vec::new(alloc);
    for entry in policies {
        let policy = entry.item;
        if is_action(Action::Custom, policy.action) {
            if let Some(name) = &policy.provider {
                names.push(name.as_str())?;
            }
        }
    }
    Ok(names)
}

/// The names of the authorizers that there are.
pub(crate) fn known<'a>(alloc: Global, providers: &'a [Provider]) -> Result<Vec<&'a str>, Memory>
    ensures { IfOk result (λ v. map (λ t. t.now) v.items ≡ map (λ provider. provider.name) providers.now) }
{
    let mut names = Vec::new(alloc);
    for provider in providers {
        names.push(provider.name.as_str())?;
    }
    Ok(names)
}

/// The authorizer of a name.
pub(crate) fn named<'a>(providers: &'a [Provider], name: &str) -> Option<&'a Provider>
    ensures { option_copied result ≡ find (λ provider. bytes_eq provider.name name.now) providers.now }
{
    for provider in providers {
        if provider.name.as_str() == name {
            return Some(provider);
        }
    }
    None
}

/// Whether a policy has that action.
pub(crate) fn is_action(wanted: Action, action: Action) -> bool
    ensures { result ≡ is_action wanted action }
{
    match wanted {
        Action::Allow => matches!(action, Action::Allow),
        Action::Deny => matches!(action, Action::Deny),
        Action::Audit => matches!(action, Action::Audit),
        Action::Custom => matches!(action, Action::Custom),
    }
}

/// The name that the first of the CUSTOM policies writes.
pub(crate) fn first_written<'a>(policies: &[ByPair<'a, AuthorizationPolicy>]) -> Option<&'a str>
    ensures { option_copied result ≡ first_answer (λ policy. policy.provider) (filter (λ policy. is_action Custom policy.action) policies.now) }
{
    for entry in policies {
        let policy = entry.item;
        if is_action(Action::Custom, policy.action) {
            if let Some(name) = &policy.provider {
                return Some(name.as_str());
            }
        }
    }
    None
}
