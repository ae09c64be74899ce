//! Chains that take the same connections as an earlier one. The kinds of connections that the earlier ones are for are kept in a
//! set, so that no two chains are compared.
ghost use Rattle.std.specs.Prelude.{◌≡◌, ◌<◌, ◌^◌, ◌||◌, [], OnOk, Some, length};
ghost use Rattle.std.specs.List.{list_any};
ghost use Rattle.std.specs.Option.{option_copied};
ghost use Rattle.mesh_doc.specs.Faults.{Reads};
ghost use Rattle.envoy_types.specs.ChainForms as form;
ghost use Rattle.listener_reader.specs.Targets as targets;
ghost use Rattle.listener_reader.specs.Targets.{Kind};

use envoy_types::{ChainMatch, FilterChain, Transport};
use mesh_doc::{DocError, Reason, Spot};
use mesh_text::{Memory, Text};
use std::alloc::Global;
use std::collections::BTreeSet;

// A kind of connections, as the set keeps it.
#[derive(Clone, Copy, PartialEq, Eq, PartialOrd, Ord)]
struct Key<'a> {
    port: Option<u16>,
    protocol: Protocol,
    name: Option<&'a str>,
}

// The transport protocol of a kind, in an order.
#[derive(Clone, Copy, PartialEq, Eq, PartialOrd, Ord)]
enum Protocol {
    Unnamed,
    RawBuffer,
    Tls,
}

/// DuplicateMatch at the first chain of the list at `at` that clashes with an earlier one.
pub(crate) fn distinct(alloc: Global, chains: &[FilterChain], at: &Spot) -> Result<(), DocError>
    requires { length chains.now < 2 ^ 32 }
    ensures { Reads result (form.duplicates [] 0 chains.now at.now) tt }
{
    let mut kinds = BTreeSet::new(alloc);
    for (i, chain) in chains.iter().enumerate() {
        if is_taken(&kinds, &chain.matching) {
            return Err(Spot::index(at, i as u32).refuse(alloc, Reason::DuplicateMatch));
        }
        keep(&mut kinds, &chain.matching)?;
    }
    Ok(())
}

// One of the kinds that the chain is for is there.
fn is_taken<'a>(kinds: &BTreeSet<Key<'a>>, matching: &'a ChainMatch) -> bool
    ensures { result ≡ list_any (λ kind. targets.has kinds.now kind) (targets.kinds_of matching.now) }
{
    if matching.alpn.is_empty() {
        return has(kinds, &key_of(matching, None));
    }
    has_one(kinds, matching, &matching.alpn)
}

fn has_one<'a>(kinds: &BTreeSet<Key<'a>>, matching: &ChainMatch, names: &'a [Text]) -> bool
    ensures { result ≡ list_any (λ n. targets.has kinds.now (targets.kind_of matching.now (Some n))) names.now }
{
    for name in names {
        if has(kinds, &key_of(matching, Some(name.as_str()))) {
            return true;
        }
    }
    false
}

fn has<'a>(kinds: &BTreeSet<Key<'a>>, key: &Key<'a>) -> bool
    ensures { result ≡ targets.has kinds.now (targets.kind_in key.now) }
{
    kinds.contains(key)
}

// The kinds that the chain is for are there from now on.
fn keep<'a>(kinds: &mut BTreeSet<Key<'a>>, matching: &'a ChainMatch) -> Result<(), Memory>
    ensures { OnOk result ((kind : Kind) → targets.has kinds.new kind
        ≡ (targets.has kinds.old kind || targets.is_for kind matching.now)) }
{
    if matching.alpn.is_empty() {
        return put(kinds, &key_of(matching, None));
    }
    put_all(kinds, matching, &matching.alpn)
}

fn put_all<'a>(
    kinds: &mut BTreeSet<Key<'a>>,
    matching: &ChainMatch,
    names: &'a [Text],
) -> Result<(), Memory>
    ensures { OnOk result ((kind : Kind) → targets.has kinds.new kind
        ≡ (targets.has kinds.old kind || list_any (λ n. targets.same (targets.kind_of matching.now (Some n)) kind) names.now)) }
{
    for name in names {
        put(kinds, &key_of(matching, Some(name.as_str())))?;
    }
    Ok(())
}

fn put<'a>(kinds: &mut BTreeSet<Key<'a>>, key: &Key<'a>) -> Result<(), Memory>
    ensures { OnOk result ((kind : Kind) → targets.has kinds.new kind
        ≡ (targets.has kinds.old kind || targets.same (targets.kind_in key.now) kind)) }
{
    kinds.insert(*key)?;
    Ok(())
}

fn key_of<'a>(matching: &ChainMatch, name: Option<&'a str>) -> Key<'a>
    ensures { targets.kind_in result ≡ targets.kind_of matching.now (option_copied name.entry) }
{
    Key {
        port: matching.port,
        protocol: protocol_of(matching.transport),
        name,
    }
}

fn protocol_of(transport: Option<Transport>) -> Protocol
    ensures { targets.transport_of result ≡ transport }
{
    match transport {
        None => Protocol::Unnamed,
        Some(Transport::RawBuffer) => Protocol::RawBuffer,
        Some(Transport::Tls) => Protocol::Tls,
    }
}
