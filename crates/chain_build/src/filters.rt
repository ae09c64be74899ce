// What a chain does with a connection: its filters in order, and the cluster behind them.
ghost use Rattle.std.specs.Prelude.{◌≡◌, ◌≢◌, ◌++◌, map, IfOk, OnOk};
ghost use Rattle.mesh_policy.specs.Workload.{with_action};
ghost use Rattle.mesh_policy.specs.declared.policy.Action.TheVariants.{Custom};
ghost use Rattle.mesh_policy.specs.declared.service.Protocol.TheVariants.{Http};
ghost use Rattle.envoy_types.specs.declared.chains.HttpFilter.TheVariants as http;
ghost use Rattle.envoy_types.specs.declared.chains.NetworkFilter.TheVariants as network;
ghost use Rattle.authz_gen.specs.Policies.{AreToldOn, ArePoliciesOf, rbac_on as filter_on};
ghost use Rattle.chain_build.specs.Buildable.{IsBuildable};
ghost use Rattle.chain_build.specs.Filters as meaning;

use authz_gen::{http_rbac, tcp_rbac};
use envoy_types::{ChainBody, HttpFilter, NetworkFilter, Rbac};
use mesh_policy::{Action, AuthorizationPolicy, Protocol};
use mesh_select::Workload;
use mesh_text::{List, Memory, Text};
use std::alloc::Global;

// Filters of connections on a TCP port, and of requests on an HTTP port.
#[tactic(auto, unfolding(crate::specs::Filters::body_on))]
pub fn body_on(
    alloc: Global,
    protocol: Protocol,
    workload: &Workload,
    cluster: Text,
) -> Result<ChainBody, Memory>
    requires { IsBuildable workload.now }
    ensures { IfOk result (λ body. body ≡ meaning.body_on protocol workload.now cluster) }
{
    let filters = rbac_filters(alloc, protocol, workload)?;
    match protocol {
        Protocol::Tcp => Ok(ChainBody::Tcp {
            filters: network_filters(alloc, filters)?,
            cluster,
        }),
        Protocol::Http => Ok(ChainBody::Http {
            filters: http_filters(alloc, filters)?,
            cluster,
        }),
    }
}

fn network_filters(alloc: Global, filters: List<Rbac>) -> Result<List<NetworkFilter>, Memory>
    ensures { IfOk result (λ fs. fs ≡ map network.Rbac filters) }
{
    let mut network = List::new(alloc);
    for filter in filters.into_vec() {
        network.push(NetworkFilter::Rbac(filter))?;
    }
    Ok(network)
}

fn http_filters(alloc: Global, filters: List<Rbac>) -> Result<List<HttpFilter>, Memory>
    ensures { IfOk result (λ fs. fs ≡ map http.Rbac filters) }
{
    let mut http = List::new(alloc);
    for filter in filters.into_vec() {
        http.push(HttpFilter::Rbac(filter))?;
    }
    Ok(http)
}

// In the order in which the actions decide.
#[tactic(auto, unfolding(crate::specs::Filters::rbac_filters))]
fn rbac_filters(
    alloc: Global,
    protocol: Protocol,
    workload: &Workload,
) -> Result<List<Rbac>, Memory>
    requires { IsBuildable workload.now }
    ensures { IfOk result (λ filters. filters ≡ meaning.rbac_filters protocol workload.now) }
{
    let mut filters = List::new(alloc);
    push_filter(alloc, &mut filters, protocol, workload, Action::Audit)?;
    push_filter(alloc, &mut filters, protocol, workload, Action::Deny)?;
    push_filter(alloc, &mut filters, protocol, workload, Action::Allow)?;
    Ok(filters)
}

// That of the policies of an action, where one applies.
fn push_filter(
    alloc: Global,
    filters: &mut List<Rbac>,
    protocol: Protocol,
    workload: &Workload,
    action: Action,
) -> Result<(), Memory>
    requires buildable { IsBuildable workload.now }
    requires decided { action ≢ Custom }
    ensures { OnOk result (filters.new ≡ filters.old ++ meaning.rbac_for protocol action (with_action workload.now action)) }
{
    workload.limits();
    let policies = workload.policies(action);
    if policies.is_empty() {
        return Ok(());
    }
    filters.push(rbac_on(alloc, protocol, policies, action)?)?;
    Ok(())
}

fn rbac_on(
    alloc: Global,
    protocol: Protocol,
    policies: &List<AuthorizationPolicy>,
    action: Action,
) -> Result<Rbac, Memory>
    requires policies { ArePoliciesOf action policies.now }
    requires told { AreToldOn Http policies.now }
    ensures { IfOk result (λ filter. filter ≡ filter_on protocol action policies.now) }
{
    match protocol {
        Protocol::Tcp => tcp_rbac(alloc, policies, action),
        Protocol::Http => http_rbac(alloc, policies, action),
    }
}
