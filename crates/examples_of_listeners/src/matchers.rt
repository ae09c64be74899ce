// String matchers of listeners, and the leaves of their trees.
use call_lines::{Call, Stop, text_of, truth};
use envoy_types::{MatchKind, PermissionLeaf, PrincipalLeaf, State, StringMatcher};
use mesh_net::IpAddr;
use mesh_policy::{Case, Pattern, Tls};
use mesh_text::{List, Text};
use mesh_tree::Tree;
use std::alloc::Global;

/// The matcher of a pattern that is the first argument folds where the second one is 1. The leaf of a permission is for port
/// 9000, and the argument is the port of a connection. The leaf of a principal is for the peers of such a matcher, and the
/// third argument is the name of a peer that is known.
pub fn answer(alloc: Global, call: &Call) -> Result<Option<String>, Stop> {
    match call.name {
        "StringMatcher::of" => shown(alloc, &matcher(alloc, call)?),
        "StringMatcher::holds" => truth(alloc, matcher(alloc, call)?.holds(call.text(2)?)),
        "PermissionLeaf::judge" => permission(alloc, call),
        "PrincipalLeaf::judge" => principal(alloc, call),
        _ => Ok(None),
    }
}

/// The matcher of the first two arguments.
pub fn matcher(alloc: Global, call: &Call) -> Result<StringMatcher, Stop> {
    let text = call.text(0)?;
    if text.is_empty() {
        return Err(Stop::Arguments);
    }
    let pattern = Pattern::parse(alloc, text)?;
    match &pattern {
        Pattern::Present => Err(Stop::Arguments),
        _ => Ok(StringMatcher::of(alloc, &pattern, call.number(1)? == 1)?),
    }
}

// Its parts, and whether a copy is equal.
fn shown(alloc: Global, matcher: &StringMatcher) -> Result<Option<String>, Stop> {
    let kind = match matcher.kind {
        MatchKind::Exact => "exact",
        MatchKind::Prefix => "prefix",
        MatchKind::Suffix => "suffix",
        MatchKind::Contains => "contains",
    };
    let same = matcher.copy(alloc)? == *matcher;
    let text = &matcher.text;
    let folds = matcher.ignore_case;
    Ok(Some(format!(in alloc; "{kind} \"{text}\", folds: {folds}, the same as its copy: {same}")?))
}

fn permission(alloc: Global, call: &Call) -> Result<Option<String>, Stop> {
    let Ok(port) = u16::try_from(call.number(0)?) else {
        return Err(Stop::Arguments);
    };
    let tree = Tree::leaf(PermissionLeaf::DestinationPort(9000));
    let same = tree.copy(alloc)? == tree;
    let holds = tree.judge(&connection(alloc, port, None), &known(false));
    judged(alloc, holds, same)
}

fn principal(alloc: Global, call: &Call) -> Result<Option<String>, Stop> {
    let tree = Tree::leaf(PrincipalLeaf::Authenticated(Some(matcher(alloc, call)?)));
    let same = tree.copy(alloc)? == tree;
    let tls = tls(alloc, call)?;
    let is_known = tls.is_some();
    let holds = tree.judge(&connection(alloc, 9000, tls), &known(is_known));
    judged(alloc, holds, same)
}

fn judged(alloc: Global, holds: bool, same: bool) -> Result<Option<String>, Stop> {
    Ok(Some(format!(in alloc; "{holds}, the same as its copy: {same}")?))
}

fn tls(alloc: Global, call: &Call) -> Result<Option<Tls>, Stop> {
    let Some(peer) = call.arguments.get(2) else {
        return Ok(None);
    };
    Ok(Some(Tls {
        peer: Some(Text::of(alloc, text_of(peer)?)?),
        sni: None,
        alpn: List::new(alloc),
    }))
}

// What is known in a TCP chain.
fn known(peer_seen: bool) -> State {
    State {
        request_seen: false,
        peer_seen,
        verdict: None,
    }
}

// A connection without a request.
fn connection(alloc: Global, port: u16, tls: Option<Tls>) -> Case {
    Case {
        source: IpAddr::V4(0x0a000001),
        remote: IpAddr::V4(0x0a000001),
        destination: IpAddr::V4(0x0a000002),
        port,
        tls,
        request: None,
        verdicts: List::new(alloc),
        answers: List::new(alloc),
    }
}
