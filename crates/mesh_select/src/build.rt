// The workload of a Pod that no reason speaks against.
ghost use Rattle.std.specs.Prelude.{◌≡◌, ◌++◌, Some, None, filter, map, IfOk, OnOk};
ghost use Rattle.std.specs.Option.{option_copied};
ghost use Rattle.mesh_policy.specs.AcceptedBundle.{AcceptedBundle, AcceptedPod};
ghost use Rattle.mesh_policy.specs.SelectFault as fault;
ghost use Rattle.mesh_policy.specs.Workload as seen;
ghost use Rattle.mesh_select.specs.Build as meant;

use crate::modes::PeerLevels;
use crate::paired::ByPair;
use crate::providers;
use crate::selection::Selection;
use crate::workload::{ListedPort, Workload};
use mesh_policy::{Action, AuthorizationPolicy, JwtRule, Protocol, Provider};
use mesh_text::{List, Memory};
use std::alloc::Global;
use std::collections::BTreeSet;

impl Selection<'_> {
    pub(crate) fn workload(&self, alloc: Global) -> Result<Workload, Memory>
        requires accepted { AcceptedBundle self.now.bundle }
        requires pod { AcceptedPod self.now.pod }
        requires judged { fault.fault_for self.now.bundle (Some self.now.pod) ≡ None }
        ensures { IfOk result (λ w. w ≡ seen.workload_of self.now.bundle self.now.pod) }
    {
        let policies = self.policies.as_slice();
        Ok(Workload {
            listed: copy_numbers(alloc, &self.listed)?,
            ports: listed_ports(alloc, &self.listed, &self.http, &self.levels)?,
            other_mode: self.levels.other_mode(),
            allow: with_action(alloc, policies, Action::Allow)?,
            deny: with_action(alloc, policies, Action::Deny)?,
            audit: with_action(alloc, policies, Action::Audit)?,
            custom: with_action(alloc, policies, Action::Custom)?,
            jwt_rules: copy_rules(alloc, &self.rules)?,
            provider: self.provider(alloc)?,
        })
    }

    fn provider(&self, alloc: Global) -> Result<Option<Provider>, Memory>
        ensures { IfOk result (λ p. p ≡ seen.provider_of self.now.bundle self.now.pod) }
    {
        match providers::first_written(&self.policies) {
            Some(name) => copy_provider(alloc, providers::named(&self.bundle.mesh.providers, name)),
            None => Ok(None),
        }
    }
}

fn copy_provider(alloc: Global, provider: Option<&Provider>) -> Result<Option<Provider>, Memory>
    ensures { IfOk result (λ p. p ≡ option_copied provider.entry) }
{
    match provider {
        Some(provider) => Ok(Some(provider.copy(alloc)?)),
        None => Ok(None),
    }
}

fn copy_numbers(alloc: Global, numbers: &[u16]) -> Result<List<u16>, Memory>
    ensures { IfOk result (λ l. l ≡ numbers.now) }
{
    let mut copies = List::with_room(alloc, numbers.len())?;
    for number in numbers {
        copies.push(*number)?;
    }
    Ok(copies)
}

fn listed_ports(
    alloc: Global,
    listed: &[u16],
    http: &BTreeSet<u16>,
    levels: &PeerLevels<'_>,
) -> Result<List<ListedPort>, Memory>
    ensures { IfOk result (λ l. l ≡ map (meant.port_with http.now.keys levels.now) listed.now) }
{
    let mut ports = List::with_room(alloc, listed.len())?;
    for number in listed {
        let number = *number;
        let protocol = protocol_at(http, number);
        let mode = levels.mode(number);
        ports.push(ListedPort {
            number,
            protocol,
            mode,
        })?;
    }
    Ok(ports)
}

fn protocol_at(http: &BTreeSet<u16>, number: u16) -> Protocol
    ensures { result ≡ meant.protocol_in http.now.keys number }
{
    if http.contains(&number) {
        Protocol::Http
    } else {
        Protocol::Tcp
    }
}

fn with_action(
    alloc: Global,
    policies: &[ByPair<'_, AuthorizationPolicy>],
    action: Action,
) -> Result<List<AuthorizationPolicy>, Memory>
    ensures { IfOk result (λ l. l ≡ filter (λ policy. seen.is_action action policy.action) policies.now) }
{
    let mut copies = List::new(alloc);
    for entry in policies {
        let policy = entry.item;
        if providers::is_action(action, policy.action) {
            copies.push(policy.copy(alloc)?)?;
        }
    }
    Ok(copies)
}

fn copy_rules(alloc: Global, rules: &[&JwtRule]) -> Result<List<JwtRule>, Memory>
    ensures { IfOk result (λ l. l ≡ map (λ rule. rule.now) rules.now) }
{
    let mut copies = List::with_room(alloc, rules.len())?;
    for rule in rules {
        copies.push(rule.copy(alloc)?)?;
    }
    Ok(copies)
}
