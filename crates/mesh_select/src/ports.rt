// The ports that Services give a Pod, and what each speaks.
ghost use Rattle.std.specs.Prelude.{◌≡◌, ◌&&◌, ◌++◌, ◌^◌, ◌<◌, ◌≤◌, nat_lt, filter, filter_map, length, map, IfOk, OnOk};
ghost use Rattle.std.specs.BTreeMap.{is_at};
ghost use Rattle.std.specs.List.{fold, list_any};
ghost use Rattle.std.specs.List.Sorted.{IsStrictlySortedBy};
ghost use Rattle.std.specs.Ordering.{nat_cmp};
ghost use Rattle.std.specs.BTreeSet.{insert_key};
ghost use Rattle.mesh_policy.specs.Lists.{ascending, least};
ghost use Rattle.mesh_policy.specs.Ports as ports;
ghost use Rattle.mesh_select.specs.Least.{lesser};
ghost use Rattle.mesh_select.specs.Ports as meant;

use crate::labels::SelectedPod;
use mesh_policy::{PeerAuthentication, Protocol, Service, ServicePort, Target};
use mesh_text::{Memory, eq_fold};
use std::alloc::Global;
use std::collections::BTreeSet;
use std::marker::Model;

/// A port of the workload and what a Service says that it speaks.
#[derive(Drop)]
pub(crate) struct GivenPort {
    number: u16,
    protocol: Protocol,
}

impl Model for GivenPort {
    ghost use Rattle.mesh_policy.specs.Ports.{GivenPort};

    ghost Value = { GivenPort };

    ghost view = { λ p. record { number = p.number; protocol = p.protocol } };
}

/// The ports that Services give the Pod.
pub(crate) fn given<'a>(
    alloc: Global,
    pod: &SelectedPod<'a>,
    services: &'a [Service],
) -> Result<Vec<GivenPort>, Memory>
    ensures { IfOk result (λ v. v.items ≡ meant.given_by_all pod.now services.now) }
{
    let mut given = Vec::new(alloc);
    for service in services {
        if selects(pod, service) {
            add_given(&mut given, pod, &service.ports)?;
        }
    }
    Ok(given)
}

fn selects<'a>(pod: &SelectedPod<'a>, service: &'a Service) -> bool
    ensures { result ≡ ports.selects pod.now service.now }
{
    service.namespace.as_str() == pod.namespace()
        && !service.selector.is_empty()
        && pod.has_labels(&service.selector)
}

fn add_given<'a>(
    given: &mut Vec<GivenPort>,
    pod: &SelectedPod<'a>,
    entries: &'a [ServicePort],
) -> Result<(), Memory>
    ensures { OnOk result (given.new.items ≡ given.old.items ++ filter_map (ports.given_by pod.now) entries.now) }
{
    for entry in entries {
        if let Some(number) = target_number(pod, entry) {
            let protocol = protocol_of(entry);
            given.push(GivenPort { number, protocol })?;
        }
    }
    Ok(())
}

fn target_number<'a>(pod: &SelectedPod<'a>, entry: &'a ServicePort) -> Option<u16>
    ensures { result ≡ ports.target_number pod.now entry.now.port entry.now.target }
{
    match &entry.target {
        Target::Same => Some(entry.port),
        Target::Number(number) => Some(*number),
        Target::Named(name) => pod.port(name),
    }
}

fn protocol_of(entry: &ServicePort) -> Protocol
    ensures { result ≡ ports.protocol_of entry.now }
{
    match (&entry.app_protocol, &entry.name) {
        (Some(app_protocol), _) => protocol_named(app_protocol),
        (None, Some(name)) => protocol_named(front_of(name)),
        (None, None) => Protocol::Tcp,
    }
}

fn front_of(name: &str) -> &str
    ensures { result.now ≡ ports.front_of name.now }
{
    match name.split_once('-') {
        None => name,
        Some((front, _)) => front,
    }
}

fn protocol_named(name: &str) -> Protocol
    ensures { result ≡ ports.protocol_named name.now }
{
    if carries_http(name) {
        Protocol::Http
    } else {
        Protocol::Tcp
    }
}

fn carries_http(name: &str) -> bool
    ensures { result ≡ meant.carries_http name.now }
{
    eq_fold(name, "http")
        || eq_fold(name, "http2")
        || eq_fold(name, "grpc")
        || eq_fold(name, "grpc-web")
}

/// The numbers of the ports that speak a protocol.
pub(crate) fn numbers_with(
    alloc: Global,
    given: &[GivenPort],
    protocol: Protocol,
) -> Result<BTreeSet<u16>, Memory>
    ensures { IfOk result (λ s. s.keys ≡ meant.numbers_with protocol given.now) }
{
    let mut numbers = BTreeSet::new(alloc);
    for port in given {
        if speaks(port.protocol, protocol) {
            numbers.insert(port.number)?;
        }
    }
    Ok(numbers)
}

fn speaks(protocol: Protocol, wanted: Protocol) -> bool
    ensures { result ≡ meant.speaks wanted protocol }
{
    match wanted {
        Protocol::Http => matches!(protocol, Protocol::Http),
        Protocol::Tcp => matches!(protocol, Protocol::Tcp),
    }
}

/// The least port that is in both sets.
pub(crate) fn conflict(
    given: &[GivenPort],
    http: &BTreeSet<u16>,
    tcp: &BTreeSet<u16>,
) -> Option<u16>
    ensures { result ≡ least nat_lt (filter (λ port. list_any (is_at (nat_cmp port)) http.now.keys && list_any (is_at (nat_cmp port)) tcp.now.keys)
        (map (λ entry. entry.number) given.now)) }
{
    let mut found = None;
    for port in given {
        let number = port.number;
        if http.contains(&number) && tcp.contains(&number) {
            found = Some(lesser(found, number));
        }
    }
    found
}

fn lesser(found: Option<u16>, number: u16) -> u16
    ensures { result ≡ lesser nat_lt found number }
{
    match found {
        Some(least) => { if number < least { number } else { least } }
        None => number,
    }
}

/// The ports that have a say of their own, ascending: those of Services, and those of the policy for the workload.
pub(crate) fn listed(
    alloc: Global,
    given: &[GivenPort],
    policy: Option<&PeerAuthentication>,
) -> Result<Vec<u16>, Memory>
    ensures ports { IfOk result (λ v. v.items ≡ ascending (map (λ entry. entry.number) given.now ++ ports.ports_of (meant.copied policy.entry))) }
    ensures bound { IfOk result (λ v. length v.items < 2 ^ 32) }
{
    let numbers = listed_set(alloc, given, policy)?;
    let list = in_turn(alloc, numbers)?;
    few(&list);
    Ok(list)
}

// Numbers of 16 bits that rise are at most as many as there are.
fn few(numbers: &[u16])
    requires { IsStrictlySortedBy nat_cmp numbers.now }
    ensures { length numbers.now ≤ 65536 }
{}

fn in_turn(alloc: Global, numbers: BTreeSet<u16>) -> Result<Vec<u16>, Memory>
    ensures items { IfOk result (λ v. v.items ≡ numbers.keys) }
    ensures rising { IfOk result (λ v. IsStrictlySortedBy nat_cmp v.items) }
{
    Ok(numbers.into_iter().collect(alloc)?)
}

fn listed_set(
    alloc: Global,
    given: &[GivenPort],
    policy: Option<&PeerAuthentication>,
) -> Result<BTreeSet<u16>, Memory>
    ensures { IfOk result (λ s. s.keys ≡ ascending (map (λ entry. entry.number) given.now ++ ports.ports_of (meant.copied policy.entry))) }
{
    let mut numbers = BTreeSet::new(alloc);
    for port in given {
        numbers.insert(port.number)?;
    }
    match policy {
        Some(policy) => {
            add_ports(&mut numbers, policy)?;
            Ok(numbers)
        }
        None => Ok(numbers),
    }
}

fn add_ports(numbers: &mut BTreeSet<u16>, policy: &PeerAuthentication) -> Result<(), Memory>
    ensures { OnOk result (numbers.new.keys ≡ fold (insert_key nat_cmp) numbers.old.keys (map (λ entry. entry.port) policy.now.ports)) }
{
    for entry in policy.ports.as_slice() {
        numbers.insert(entry.port)?;
    }
    Ok(())
}
