// Builds the inbound listener that enforces the policies of a workload.
ghost use Rattle.std.specs.Prelude.{◌≡◌, ◌≤◌, ◌++◌, false, Some, flat_map, IfOk, IsTrue};
ghost use Rattle.serde_json.specs.Data.{depth};
ghost use Rattle.serde_json.specs.Written.{has_float};
ghost use Rattle.mesh_policy.specs.Verdicts.{verdict_of};
ghost use Rattle.mesh_policy.specs.WellFormedCase.{WellFormedCase};
ghost use Rattle.mesh_policy.specs.Workload.{listed_of, mode_of, protocol_of};
ghost use Rattle.mesh_policy.specs.declared.case.Case.{Case};
ghost use Rattle.envoy_types.specs.ListenerForms.{is_printable, listener_written};
ghost use Rattle.envoy_types.specs.ListenerVerdict.{envoy_verdict};
ghost use Rattle.chain_build.specs.Buildable.{IsBuildable};
ghost use Rattle.chain_build.specs.Listener as meaning;

use crate::chains::push_chains;
use authz_gen::filters_enforce;
use envoy_types::{FilterChain, Listener};
use mesh_policy::Protocol;
use mesh_select::Workload;
use mesh_text::{List, Memory, Text};
use std::alloc::Global;

/// The listener of a workload. It has the chains of each listed port, ascending, by what the port speaks and its mode, and then those
/// of all other ports, which name none. It can be written as JSON, which is nested at most 126 deep, and gives each well-formed
/// connection the verdict of the policies.
pub fn build(alloc: Global, w: &Workload) -> Result<Listener, Memory>
    requires { IsBuildable w.now }
    ensures shape { IfOk result (λ listener. listener ≡ meaning.built w.now) }
    ensures printable { IfOk result (λ listener. IsTrue (is_printable listener)) }
    ensures shallow { IfOk result (λ listener. depth (listener_written listener) ≤ 126) }
    ensures no_float { IfOk result (λ listener. has_float (listener_written listener) ≡ false) }
    ensures verdicts { IfOk result (λ listener.
        (case : Case) → WellFormedCase case w.now.jwt_rules → envoy_verdict listener case ≡ verdict_of w.now case) }
{
    w.limits();
    filters_enforce();
    built(alloc, w)
}

#[tactic(auto, unfolding(crate::specs::Listener::built))]
fn built(alloc: Global, workload: &Workload) -> Result<Listener, Memory>
    requires { IsBuildable workload.now }
    ensures { IfOk result (λ listener. listener ≡ meaning.built workload.now) }
{
    let chains = chains_of(alloc, workload)?;
    Ok(Listener {
        name: Text::of(alloc, "virtualInbound")?,
        address: Text::of(alloc, "0.0.0.0")?,
        port: 15006,
        chains,
    })
}

// Those of the listed ports, and behind them those of all other ports, which speak TCP.
fn chains_of(alloc: Global, workload: &Workload) -> Result<List<FilterChain>, Memory>
    requires { IsBuildable workload.now }
    ensures { IfOk result (λ chains. chains ≡ meaning.chains_of workload.now) }
{
    workload.limits();
    let mut chains = listed_chains(alloc, workload)?;
    let other_mode = workload.other_mode();
    push_chains(
        alloc,
        &mut chains,
        workload,
        Protocol::Tcp,
        other_mode,
        None,
    )?;
    Ok(chains)
}

fn listed_chains(alloc: Global, workload: &Workload) -> Result<List<FilterChain>, Memory>
    requires { IsBuildable workload.now }
    ensures { IfOk result (λ chains. chains ≡ flat_map
        (λ port. meaning.chains_at workload.now (protocol_of workload.now port) (mode_of workload.now port) (Some port))
        (listed_of workload.now)) }
{
    let mut chains = List::new(alloc);
    let listed = workload.listed();
    for port in listed.iter() {
        let protocol = workload.protocol(*port);
        let mode = workload.mode(*port);
        push_chains(alloc, &mut chains, workload, protocol, mode, Some(*port))?;
    }
    Ok(chains)
}
