// What is found for a Pod before it is judged.
ghost use Rattle.std.specs.Prelude.{◌≡◌, ◌++◌, flat_map, map, IfOk, OnOk};
ghost use Rattle.mesh_policy.specs.AcceptedBundle.{AcceptedBundle};

use crate::applying::applying;
use crate::labels::SelectedPod;
use crate::modes::PeerLevels;
use crate::paired::ByPair;
use crate::ports::{GivenPort, given, listed, numbers_with};
use mesh_policy::{AuthorizationPolicy, Bundle, JwtRule, Pod, Protocol, RequestAuthentication};
use mesh_text::Memory;
use std::alloc::Global;
use std::collections::BTreeSet;
use std::marker::Model;

/// A Pod of some manifests with what applies to it: ports, policies and rules, all in order. Contracts see the
/// manifests and the Pod.
#[derive(Drop)]
pub(crate) struct Selection<'a> {
    pub(crate) bundle: &'a Bundle,
    pub(crate) pod: SelectedPod<'a>,
    pub(crate) given: Vec<GivenPort>,
    /// The ports that a Service gives as HTTP.
    pub(crate) http: BTreeSet<u16>,
    pub(crate) levels: PeerLevels<'a>,
    pub(crate) listed: Vec<u16>,
    pub(crate) policies: Vec<ByPair<'a, AuthorizationPolicy>>,
    pub(crate) rules: Vec<&'a JwtRule>,
}

impl<'a> Model for Selection<'a> {
    ghost use Rattle.mesh_select.specs.Chosen.{Chosen};

    ghost Value = { Chosen };

    ghost use Rattle.mesh_select.specs.Selection.{HasParts};

    ghost view = { λ s. record { bundle = s.bundle.now; pod = s.pod } };

    ghost invariant = { HasParts };
}

impl<'a> Selection<'a> {
    pub(crate) fn of(
        alloc: Global,
        bundle: &'a Bundle,
        pod: &'a Pod,
    ) -> Result<Selection<'a>, Memory>
        requires { AcceptedBundle bundle.now }
        ensures { IfOk result (λ s. s ≡ record { bundle = bundle.now; pod = pod.now }) }
    {
        let root = bundle.mesh.root.as_str();
        let pod = SelectedPod::of(alloc, pod)?;
        let given = given(alloc, &pod, &bundle.services)?;
        let http = numbers_with(alloc, &given, Protocol::Http)?;
        let peers = applying(alloc, root, &pod, bundle.peers.as_slice())?;
        let levels = PeerLevels::of(&peers, root);
        let listed = listed(alloc, &given, levels.workload())?;
        let policies = applying(alloc, root, &pod, bundle.authorization.as_slice())?;
        let requests = applying(alloc, root, &pod, bundle.requests.as_slice())?;
        let rules = rules_of(alloc, &requests)?;
        Ok(Selection {
            bundle,
            pod,
            given,
            http,
            levels,
            listed,
            policies,
            rules,
        })
    }
}

fn rules_of<'a>(
    alloc: Global,
    requests: &[ByPair<'a, RequestAuthentication>],
) -> Result<Vec<&'a JwtRule>, Memory>
    ensures { IfOk result (λ v. map (λ rule. rule.now) v.items ≡ flat_map (λ request. request.rules) requests.now) }
{
    let mut rules = Vec::new(alloc);
    for entry in requests {
        let request = entry.item;
        add_rules(&mut rules, &request.rules)?;
    }
    Ok(rules)
}

fn add_rules<'a>(rules: &mut Vec<&'a JwtRule>, more: &'a [JwtRule]) -> Result<(), Memory>
    ensures { OnOk result (map (λ rule. rule.now) rules.new.items ≡ map (λ rule. rule.now) rules.old.items ++ more.now) }
{
    for rule in more {
        rules.push(rule)?;
    }
    Ok(())
}
