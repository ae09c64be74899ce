// The policies that apply to a Pod, in order.
ghost use Rattle.std.specs.Prelude.{◌≡◌, List, IfOk, filter};
ghost use Rattle.mesh_policy.specs.AcceptedLists.{EachOnce};
ghost use Rattle.mesh_policy.specs.Applying as apply;
ghost use Rattle.mesh_policy.specs.Lists.{in_order};
ghost use Rattle.mesh_policy.specs.declared.pod.Label.{Label};
ghost use Rattle.mesh_select.specs.Applying.{placed, same_pair, pair_order};

use crate::labels::SelectedPod;
use crate::paired::{ByPair, Paired};
use mesh_policy::{AuthorizationPolicy, Label, PeerAuthentication, RequestAuthentication};
use mesh_text::{List, Memory};
use std::alloc::Global;
use std::collections::BTreeSet;

/// A policy, which is named by its namespace and its name, and selects Pods by their labels.
pub(crate) trait Policy: Paired {
    ghost selector: { Self → List Label };

    fn labels(&self) -> &[Label]
        ensures { result.now ≡ selector self.now };
}

impl Paired for AuthorizationPolicy {
    ghost pair = { λ policy. (policy.namespace, policy.name) };

    fn first(&self) -> &str {
        self.namespace.as_str()
    }

    fn second(&self) -> &str {
        self.name.as_str()
    }
}

impl Policy for AuthorizationPolicy {
    ghost selector = { λ policy. policy.labels };

    fn labels(&self) -> &[Label] {
        self.labels.as_slice()
    }
}

impl Paired for PeerAuthentication {
    ghost pair = { λ policy. (policy.namespace, policy.name) };

    fn first(&self) -> &str {
        self.namespace.as_str()
    }

    fn second(&self) -> &str {
        self.name.as_str()
    }
}

impl Policy for PeerAuthentication {
    ghost selector = { λ policy. policy.labels };

    fn labels(&self) -> &[Label] {
        self.labels.as_slice()
    }
}

impl Paired for RequestAuthentication {
    ghost pair = { λ policy. (policy.namespace, policy.name) };

    fn first(&self) -> &str {
        self.namespace.as_str()
    }

    fn second(&self) -> &str {
        self.name.as_str()
    }
}

impl Policy for RequestAuthentication {
    ghost selector = { λ policy. policy.labels };

    fn labels(&self) -> &[Label] {
        self.labels.as_slice()
    }
}

/// The policies that apply to a Pod, by namespace, then by name.
pub(crate) fn applying<'a, P: Policy>(
    alloc: Global,
    root: &str,
    pod: &SelectedPod<'a>,
    policies: &'a [P],
) -> Result<Vec<ByPair<'a, P>>, Memory>
    requires { EachOnce (λ p q. same_pair (P.pair p) (P.pair q)) policies.now }
    ensures { IfOk result (λ v. v.items ≡ in_order (λ p q. apply.comes_before (P.pair p) (P.pair q))
        (filter (λ p. apply.applies root.now pod.now (P.pair p).0 (P.selector p)) policies.now)) }
{
    let found = collect(alloc, root, pod, policies)?;
    let list = listed(alloc, found)?;
    Ok(list)
}

fn listed<'a, P: Policy>(
    alloc: Global,
    set: BTreeSet<ByPair<'a, P>>,
) -> Result<Vec<ByPair<'a, P>>, Memory>
    ensures { IfOk result (λ v. v.items ≡ set.entry.keys) }
{
    Ok(set.into_iter().collect(alloc)?)
}

// From the last policy on, as the order is defined.
fn collect<'a, P: Policy>(
    alloc: Global,
    root: &str,
    pod: &SelectedPod<'a>,
    policies: &'a [P],
) -> Result<BTreeSet<ByPair<'a, P>>, Memory>
    ensures { IfOk result (λ s. s.keys ≡ placed (pair_order P.pair)
        (filter (λ p. apply.applies root.now pod.now (P.pair p).0 (P.selector p)) policies.now)) }
{
    let mut found = BTreeSet::new(alloc);
    let mut at = policies.len();
    while at > 0 {
        at -= 1;
        let policy = &policies[at];
        if applies(root, pod, policy) {
            found.insert(ByPair { item: policy })?;
        }
    }
    Ok(found)
}

fn applies<'a, P: Policy>(root: &str, pod: &SelectedPod<'a>, policy: &'a P) -> bool
    ensures { result ≡ apply.applies root.now pod.now (P.pair policy.now).0 (P.selector policy.now) }
{
    let namespace = policy.first();
    (namespace == pod.namespace() || namespace == root) && pod.has_labels(policy.labels())
}
