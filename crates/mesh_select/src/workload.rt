// The workload of a Pod: its ports and their modes, and the policies that apply to it.
ghost use Rattle.std.specs.Prelude.{◌≡◌, ◌==◌, find};
ghost use Rattle.std.specs.Option.{option_copied};
ghost use Rattle.mesh_policy.specs.Workload as seen;
ghost use Rattle.mesh_select.specs.Workload.{KeepsLimits};

use mesh_policy::{Action, AuthorizationPolicy, JwtRule, Mode, Protocol, Provider};
use mesh_text::List;
use std::marker::Model;

/// A port that has a say of its own.
#[derive(Debug, Drop)]
pub(crate) struct ListedPort {
    pub(crate) number: u16,
    pub(crate) protocol: Protocol,
    pub(crate) mode: Mode,
}

impl Model for ListedPort {
    ghost use Rattle.mesh_policy.specs.Workload.{ListedPort};

    ghost Value = { ListedPort };

    ghost view = { λ p. record { number = p.number; protocol = p.protocol; mode = p.mode } };
}

/// What selection gives for a Pod: its ports and their modes, and the policies that apply to it. `select` alone makes
/// one. Its policies and rules are accepted, each policy under its action, and the CUSTOM policies name its provider. It
/// lists 16 ports at most, ascending, and its policies and rules hold 2,048 values, 1,024 entries and 65,536 bytes at most.
#[derive(Debug, Drop)]
pub struct Workload {
    pub(crate) listed: List<u16>,
    pub(crate) ports: List<ListedPort>,
    pub(crate) other_mode: Mode,
    pub(crate) allow: List<AuthorizationPolicy>,
    pub(crate) deny: List<AuthorizationPolicy>,
    pub(crate) audit: List<AuthorizationPolicy>,
    pub(crate) custom: List<AuthorizationPolicy>,
    pub(crate) jwt_rules: List<JwtRule>,
    pub(crate) provider: Option<Provider>,
}

impl Model for Workload {
    ghost use Rattle.std.specs.Prelude.{◌≡◌};
    ghost use Rattle.mesh_policy.specs.Workload as seen;

    ghost Value = { seen.Workload };

    ghost use Rattle.mesh_select.specs.Workload.{view_of, KeepsLimits};

    ghost view = { view_of };

    ghost invariant = { λ w. (w.listed ≡ seen.listed_of (view_of w)) × KeepsLimits (view_of w) };
}

impl Workload {
    /// The mode of a port.
    pub fn mode(&self, port: u16) -> Mode
        ensures { result ≡ seen.mode_of self.now port }
    {
        match port_at(&self.ports, port) {
            Some(listed) => listed.mode,
            None => self.other_mode,
        }
    }

    /// What a port speaks: TCP where no Service gives it.
    pub fn protocol(&self, port: u16) -> Protocol
        ensures { result ≡ seen.protocol_of self.now port }
    {
        match port_at(&self.ports, port) {
            Some(listed) => listed.protocol,
            None => Protocol::Tcp,
        }
    }

    /// The mode of the ports that aren't listed.
    pub fn other_mode(&self) -> Mode
        ensures { result ≡ self.now.other_mode }
    {
        self.other_mode
    }

    /// The ports that have a say of their own, ascending: 16 at most.
    pub fn listed(&self) -> &List<u16>
        ensures { result.now ≡ seen.listed_of self.now }
    {
        &self.listed
    }

    /// The policies of an action that apply, by namespace, then by name.
    pub fn policies(&self, action: Action) -> &List<AuthorizationPolicy>
        ensures { result.now ≡ seen.with_action self.now action }
    {
        match action {
            Action::Allow => &self.allow,
            Action::Deny => &self.deny,
            Action::Audit => &self.audit,
            Action::Custom => &self.custom,
        }
    }

    /// The rules of tokens that apply, in the order in which they are tried.
    pub fn jwt_rules(&self) -> &List<JwtRule>
        ensures { result.now ≡ self.now.jwt_rules }
    {
        &self.jwt_rules
    }

    /// The external authorizer that the CUSTOM policies name.
    pub fn provider(&self) -> Option<&Provider>
        ensures { option_copied result ≡ self.now.provider }
    {
        self.provider.as_ref()
    }

    /// A law of every workload: it keeps the limits, its ports are in range and listed in order, its policies and rules are
    /// accepted, each policy under its action, and the CUSTOM policies name its provider. The call does nothing.
    pub fn limits(&self)
        ensures { KeepsLimits self.now }
    {
        let _ = &self.listed;
    }
}

fn port_at(ports: &[ListedPort], number: u16) -> Option<&ListedPort>
    ensures { option_copied result ≡ find (λ port. port.number == number) ports.now }
{
    for port in ports {
        if port.number == number {
            return Some(port);
        }
    }
    None
}
