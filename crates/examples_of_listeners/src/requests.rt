// What rules ask of a request, as trees.
use crate::peers::{pattern, shown};
use call_lines::{Call, Stop, request_of, truth};
use envoy_types::{PermissionLeaf, PrincipalLeaf, State};
use mesh_net::IpAddr;
use mesh_policy::{Case, Pattern, Request};
use mesh_text::{List, is_token};
use mesh_tree::Tree;
use serde_json::Value;
use std::alloc::Global;
use str_match::{header_tree, host_tree, method_tree, path_tree};

/// The first argument is a match value, and of `header_tree` the second one is the name. The answer is the tree as JSON; or, where
/// there is one more argument, whether the tree holds: for that request, or for a connection without one where it is `null`.
pub fn answer(alloc: Global, call: &Call) -> Result<Option<String>, Stop> {
    match call.name {
        "host_tree" => asked(alloc, call, &host_tree(alloc, &pattern(alloc, call)?)?),
        "method_tree" => asked(alloc, call, &method_tree(alloc, &pattern(alloc, call)?)?),
        "path_tree" => asked(alloc, call, &path(alloc, call)?),
        "header_tree" => asking(alloc, call, &header(alloc, call)?),
        _ => Ok(None),
    }
}

fn path(alloc: Global, call: &Call) -> Result<Tree<PermissionLeaf>, Stop> {
    let value = call.text(0)?;
    if value.is_empty() {
        return Err(Stop::Arguments);
    }
    Ok(path_tree(alloc, value)?)
}

fn header(alloc: Global, call: &Call) -> Result<Tree<PrincipalLeaf>, Stop> {
    let name = call.text(1)?;
    if !is_token(name) {
        return Err(Stop::Arguments);
    }
    Ok(header_tree(alloc, name, &pattern(alloc, call)?)?)
}

fn asked(alloc: Global, call: &Call, tree: &Tree<PermissionLeaf>) -> Result<Option<String>, Stop> {
    match call.arguments.get(1) {
        None => shown(alloc, tree),
        Some(request) => truth(alloc, tree.judge(&case_of(alloc, request)?, &seen())),
    }
}

fn asking(alloc: Global, call: &Call, tree: &Tree<PrincipalLeaf>) -> Result<Option<String>, Stop> {
    match call.arguments.get(2) {
        None => shown(alloc, tree),
        Some(request) => truth(alloc, tree.judge(&case_of(alloc, request)?, &seen())),
    }
}

// What is known in an HTTP chain of plain text.
fn seen() -> State {
    State {
        request_seen: true,
        peer_seen: false,
        verdict: None,
    }
}

fn case_of(alloc: Global, request: &Value) -> Result<Case, Stop> {
    Ok(Case {
        source: IpAddr::V4(0x0a000001),
        remote: IpAddr::V4(0x0a000001),
        destination: IpAddr::V4(0x0a000002),
        port: 8000,
        tls: None,
        request: given(alloc, request)?,
        verdicts: List::new(alloc),
        answers: List::new(alloc),
    })
}

fn given(alloc: Global, request: &Value) -> Result<Option<Request>, Stop> {
    match request {
        Value::Null => Ok(None),
        _ => Ok(Some(request_of(alloc, request)?)),
    }
}
