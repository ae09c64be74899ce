// AuthorizationPolicies and the parts of their rules.
ghost use Rattle.std.specs.Prelude.{◌≡◌, IfOk};

use crate::copies::TryCopy;
use crate::{Condition, Label};
use mesh_net::Cidr;
use mesh_text::{List, Memory, Text};
use std::alloc::Global;

/// What comes of it when a rule of a policy holds (Istio reference, AuthorizationPolicy, Action).
#[derive(Clone, Copy, Debug, PartialEq, Eq)]
pub enum Action {
    Allow,
    Deny,
    Audit,
    /// An external authorizer decides.
    Custom,
}

/// An AuthorizationPolicy (Istio reference, Authorization Policy). It holds where one of its rules does, so without
/// rules it never holds.
#[derive(Debug, Drop, PartialEq, Eq)]
pub struct AuthorizationPolicy {
    pub name: Text,
    pub namespace: Text,
    /// What the labels of a Pod have to hold. It selects every Pod of its namespace where there are none.
    pub labels: List<Label>,
    pub action: Action,
    /// The external authorizer by name, exactly where the action is CUSTOM.
    pub provider: Option<Text>,
    pub rules: List<Rule>,
}

/// One rule (Istio reference, Rule). It holds where one source, one operation and all conditions do. A part without
/// entries always holds.
#[derive(Debug, Drop, PartialEq, Eq)]
pub struct Rule {
    pub sources: List<SourceSpec>,
    pub operations: List<OperationSpec>,
    pub conditions: List<Condition>,
}

/// Who a request comes from (Istio reference, Source). It holds where all its fields do. An empty list is a field that
/// isn't written, and holds; of a `not` list no entry may match.
#[derive(Debug, Drop, PartialEq, Eq)]
pub struct SourceSpec {
    pub principals: List<Text>,
    pub not_principals: List<Text>,
    pub request_principals: List<Text>,
    pub not_request_principals: List<Text>,
    pub namespaces: List<Text>,
    pub not_namespaces: List<Text>,
    pub ip_blocks: List<Cidr>,
    pub not_ip_blocks: List<Cidr>,
    pub remote_ip_blocks: List<Cidr>,
    pub not_remote_ip_blocks: List<Cidr>,
}

/// What a request asks for (Istio reference, Operation). Its fields hold as those of a source do.
#[derive(Debug, Drop, PartialEq, Eq)]
pub struct OperationSpec {
    pub hosts: List<Text>,
    pub not_hosts: List<Text>,
    /// Destination ports, each from 1 to 65,535.
    pub ports: List<u16>,
    pub not_ports: List<u16>,
    pub methods: List<Text>,
    pub not_methods: List<Text>,
    pub paths: List<Text>,
    pub not_paths: List<Text>,
}

impl AuthorizationPolicy {
    /// An equal policy of its own.
    pub fn copy(&self, alloc: Global) -> Result<AuthorizationPolicy, Memory>
        ensures { IfOk result (λ p. p ≡ self.now) }
    {
        Ok(AuthorizationPolicy {
            name: self.name.copy(alloc)?,
            namespace: self.namespace.copy(alloc)?,
            labels: self.labels.try_copy(alloc)?,
            action: self.action,
            provider: self.provider.try_copy(alloc)?,
            rules: self.rules.try_copy(alloc)?,
        })
    }
}
