// The modes of ports: of each width of PeerAuthentications the oldest that applies.
ghost use Rattle.std.specs.Prelude.{◌≡◌, None, filter};
ghost use Rattle.std.specs.Option.{option_and_then, option_copied};
ghost use Rattle.mesh_policy.specs.Modes as modes;
ghost use Rattle.mesh_select.specs.Least.{lesser};
ghost use Rattle.mesh_select.specs.Modes as widths;

use crate::paired::ByPair;
use mesh_policy::{Mode, PeerAuthentication};
use std::cmp::Ordering;
use std::marker::Model;

/// For whom a PeerAuthentication speaks.
#[derive(Clone, Copy, Debug, PartialEq, Eq)]
pub(crate) enum Width {
    Workload,
    Namespace,
    Mesh,
}

/// The oldest PeerAuthentication of each width, where there is one.
#[derive(Drop)]
pub(crate) struct PeerLevels<'a> {
    workload: Option<&'a PeerAuthentication>,
    namespace: Option<&'a PeerAuthentication>,
    mesh: Option<&'a PeerAuthentication>,
}

impl<'a> Model for PeerLevels<'a> {
    ghost use Rattle.std.specs.Option.{option_copied};
    ghost use Rattle.mesh_select.specs.Modes.{Levels};

    ghost Value = { Levels };

    ghost view = { λ l. record { workload = option_copied l.workload; namespace = option_copied l.namespace; mesh = option_copied l.mesh } };
}

impl<'a> PeerLevels<'a> {
    pub(crate) fn of(peers: &[ByPair<'a, PeerAuthentication>], root: &str) -> PeerLevels<'a>
        ensures { result ≡ widths.levels_of root.now peers.now }
    {
        PeerLevels {
            workload: oldest(peers, root, Width::Workload),
            namespace: oldest(peers, root, Width::Namespace),
            mesh: oldest(peers, root, Width::Mesh),
        }
    }

    /// The policy that speaks for the workload alone.
    pub(crate) fn workload(&self) -> Option<&'a PeerAuthentication>
        ensures { option_copied result ≡ self.now.workload }
    {
        self.workload
    }

    /// The mode of a port that the policy for the workload may name.
    pub(crate) fn mode(&self, port: u16) -> Mode
        ensures { result ≡ widths.mode_from (option_and_then (modes.port_mode port) self.now.workload) self.now }
    {
        self.mode_from(port_mode(self.workload, port))
    }

    /// The mode of all other ports.
    pub(crate) fn other_mode(&self) -> Mode
        ensures { result ≡ widths.mode_from None self.now }
    {
        self.mode_from(None)
    }

    fn mode_from(&self, of_port: Option<Mode>) -> Mode
        ensures { result ≡ widths.mode_from of_port self.now }
    {
        let wider = mode_of(self.namespace).or(mode_of(self.mesh));
        of_port
            .or(mode_of(self.workload).or(wider))
            .unwrap_or(Mode::Permissive)
    }
}

fn mode_of(policy: Option<&PeerAuthentication>) -> Option<Mode>
    ensures { result ≡ option_and_then (λ policy. policy.mode) (option_copied policy.entry) }
{
    match policy {
        Some(policy) => policy.mode,
        None => None,
    }
}

fn port_mode(policy: Option<&PeerAuthentication>, port: u16) -> Option<Mode>
    ensures { result ≡ option_and_then (modes.port_mode port) (option_copied policy.entry) }
{
    match policy {
        Some(policy) => written_mode(policy, port),
        None => None,
    }
}

fn written_mode(policy: &PeerAuthentication, port: u16) -> Option<Mode>
    ensures { result ≡ modes.port_mode port policy.now }
{
    for entry in policy.ports.as_slice() {
        if entry.port == port {
            return entry.mode;
        }
    }
    None
}

fn oldest<'a>(
    peers: &[ByPair<'a, PeerAuthentication>],
    root: &str,
    width: Width,
) -> Option<&'a PeerAuthentication>
    ensures { option_copied result ≡ modes.oldest (filter (widths.has_width width root.now) peers.now) }
{
    let mut found = None;
    for peer in peers {
        let policy = peer.item;
        if has_width(policy, root, width) {
            found = Some(older(found, policy));
        }
    }
    found
}

fn has_width(policy: &PeerAuthentication, root: &str, width: Width) -> bool
    ensures { result ≡ widths.has_width width root.now policy.now }
{
    let has_selector = !policy.labels.is_empty();
    match width {
        Width::Workload => has_selector,
        Width::Namespace => !has_selector && policy.namespace.as_str() != root,
        Width::Mesh => !has_selector && policy.namespace.as_str() == root,
    }
}

fn older<'a>(
    found: Option<&'a PeerAuthentication>,
    policy: &'a PeerAuthentication,
) -> &'a PeerAuthentication
    ensures { result.now ≡ lesser modes.is_older (option_copied found.entry) policy.now }
{
    match found {
        Some(oldest) => {
            if is_older(policy, oldest) {
                policy
            } else {
                oldest
            }
        }
        None => policy,
    }
}

fn is_older(policy: &PeerAuthentication, other: &PeerAuthentication) -> bool
    ensures { result ≡ modes.is_older policy.now other.now }
{
    let by_name = policy
        .namespace
        .cmp(&other.namespace)
        .then(policy.name.cmp(&other.name));
    by_age(policy, other).then(by_name).is_lt()
}

// Times of one form in UTC, so their texts compare as they do; one that isn't written is the newest.
fn by_age(policy: &PeerAuthentication, other: &PeerAuthentication) -> Ordering
    ensures { result ≡ modes.age_cmp policy.now.age other.now.age }
{
    match (&policy.age, &other.age) {
        (Some(age), Some(other)) => age.cmp(other),
        (Some(_), None) => Ordering::Less,
        (None, Some(_)) => Ordering::Greater,
        (None, None) => Ordering::Equal,
    }
}
