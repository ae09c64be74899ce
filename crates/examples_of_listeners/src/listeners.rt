// Listeners as JSON: one that has every form, two that have nothing but defaults, and those that are read.
use crate::listener_rules::{logged, network_rules, no_rules, request_rules, told};
use crate::matchers::matcher;
use crate::token_filters::{claims_filter, plain_filter, whole_filter};
use call_lines::{Call, Stop, joined, refused};
use envoy_types::{
    AuthService, ChainBody, ChainMatch, ExtAuthz, FilterChain, HttpFilter, Listener, MatchKind,
    NetworkFilter, PermissionLeaf, StringMatcher, Transport,
};
use leaf_json::{string_to_value, tree_to_value};
use listener_reader::from_value;
use listener_writer::to_value;
use mesh_doc::Place;
use mesh_text::{List, Memory, Text};
use mesh_tree::Tree;
use serde_json::Value;
use std::alloc::Global;

/// The listener that is written is one of three, by its name, and one that is read is shown as it is written, or its first fault
/// is. Of one in parts is told whether it is written as the value that it was read from. The matcher is that of a pattern, as in
/// `StringMatcher::of`, and the tree is that of a permission for all ports but the argument.
pub fn answer(alloc: Global, call: &Call) -> Result<Option<String>, Stop> {
    match call.name {
        "to_value" => listener_value(alloc, call),
        "from_value" => match call.value(0)? {
            Value::Array(parts) => read_parts(alloc, parts.as_slice()),
            v => read(alloc, v),
        },
        "string_to_value" => shown(alloc, &string_to_value(alloc, &matcher(alloc, call)?)?),
        "tree_to_value" => tree_value(alloc, call),
        _ => Ok(None),
    }
}

fn read(alloc: Global, v: &Value) -> Result<Option<String>, Stop> {
    let whole: Place = List::new(alloc);
    match from_value(alloc, v, &whole) {
        Ok(listener) => shown(alloc, &to_value(alloc, &listener)?),
        Err(error) => Ok(Some(refused(alloc, error)?)),
    }
}

fn read_parts(alloc: Global, parts: &[Value]) -> Result<Option<String>, Stop> {
    let v = joined(alloc, parts)?;
    let whole: Place = List::new(alloc);
    match from_value(alloc, &v, &whole) {
        Ok(listener) => {
            let is_equal = to_value(alloc, &listener)? == v;
            Ok(Some(format!(in alloc; "equal {is_equal}")?))
        }
        Err(error) => Ok(Some(refused(alloc, error)?)),
    }
}

fn shown(alloc: Global, value: &Value) -> Result<Option<String>, Stop> {
    Ok(Some(value.to_string(alloc)?))
}

fn tree_value(alloc: Global, call: &Call) -> Result<Option<String>, Stop> {
    let Ok(port) = u16::try_from(call.number(0)?) else {
        return Err(Stop::Arguments);
    };
    let tree = Tree::not(alloc, Tree::leaf(PermissionLeaf::DestinationPort(port)))?;
    shown(alloc, &tree_to_value(alloc, &tree)?)
}

fn listener_value(alloc: Global, call: &Call) -> Result<Option<String>, Stop> {
    let chains = match call.text(0)? {
        "every form" => every_form(alloc)?,
        "defaults" => http_defaults(alloc)?,
        "defaults of TCP" => tcp_defaults(alloc)?,
        _ => return Err(Stop::Arguments),
    };
    let listener = Listener {
        name: Text::of(alloc, "inbound")?,
        address: Text::of(alloc, "0.0.0.0")?,
        port: 15006,
        chains,
    };
    shown(alloc, &to_value(alloc, &listener)?)
}

fn texts(alloc: Global, words: &[&str]) -> Result<List<Text>, Memory> {
    let mut texts = List::new(alloc);
    for word in words {
        texts.push(Text::of(alloc, word)?)?;
    }
    Ok(texts)
}

// ---- every form

fn every_form(alloc: Global) -> Result<List<FilterChain>, Stop> {
    let mut chains = List::new(alloc);
    chains.push(encrypted_requests(alloc)?)?;
    chains.push(plain_requests(alloc)?)?;
    chains.push(encrypted_bytes(alloc)?)?;
    chains.push(agreed_bytes(alloc)?)?;
    chains.push(other_bytes(alloc)?)?;
    Ok(chains)
}

fn encrypted_requests(alloc: Global) -> Result<FilterChain, Stop> {
    let mut filters = List::new(alloc);
    filters.push(HttpFilter::Jwt(whole_filter(alloc)?))?;
    filters.push(HttpFilter::Rbac(request_rules(alloc)?))?;
    filters.push(HttpFilter::ExtAuthz(grpc(alloc, true)?))?;
    Ok(FilterChain {
        name: Text::of(alloc, "8080-mtls")?,
        matching: ChainMatch {
            port: Some(8080),
            transport: Some(Transport::Tls),
            alpn: texts(alloc, &["istio", "istio-http/1.1", "h2"])?,
        },
        mutual_tls: true,
        body: http(alloc, filters, "inbound|8080||")?,
    })
}

fn plain_requests(alloc: Global) -> Result<FilterChain, Stop> {
    let mut filters = List::new(alloc);
    filters.push(HttpFilter::Rbac(told(alloc)?))?;
    filters.push(HttpFilter::ExtAuthz(over_http(alloc, false)?))?;
    filters.push(HttpFilter::ExtAuthz(over_http(alloc, true)?))?;
    filters.push(HttpFilter::Jwt(claims_filter(alloc)?))?;
    Ok(FilterChain {
        name: Text::of(alloc, "8080-plain")?,
        matching: ChainMatch {
            port: Some(8080),
            transport: Some(Transport::RawBuffer),
            alpn: List::new(alloc),
        },
        mutual_tls: false,
        body: http(alloc, filters, "inbound|8080||")?,
    })
}

fn encrypted_bytes(alloc: Global) -> Result<FilterChain, Stop> {
    let mut filters = List::new(alloc);
    filters.push(NetworkFilter::Rbac(network_rules(alloc)?))?;
    filters.push(NetworkFilter::ExtAuthz(grpc(alloc, true)?))?;
    filters.push(NetworkFilter::ExtAuthz(grpc(alloc, false)?))?;
    filters.push(NetworkFilter::Rbac(logged(alloc)?))?;
    Ok(FilterChain {
        name: Text::of(alloc, "any-mtls")?,
        matching: ChainMatch {
            port: None,
            transport: Some(Transport::Tls),
            alpn: List::new(alloc),
        },
        mutual_tls: true,
        body: tcp(alloc, filters, "InboundPassthroughCluster")?,
    })
}

fn agreed_bytes(alloc: Global) -> Result<FilterChain, Stop> {
    Ok(FilterChain {
        name: Text::of(alloc, "65535-agreed")?,
        matching: ChainMatch {
            port: Some(65535),
            transport: None,
            alpn: texts(alloc, &["istio"])?,
        },
        mutual_tls: false,
        body: tcp(alloc, List::new(alloc), "inbound|65535||")?,
    })
}

fn other_bytes(alloc: Global) -> Result<FilterChain, Stop> {
    Ok(FilterChain {
        name: Text::of(alloc, "1-other")?,
        matching: ChainMatch {
            port: Some(1),
            transport: None,
            alpn: List::new(alloc),
        },
        mutual_tls: true,
        body: tcp(alloc, List::new(alloc), "inbound|1||")?,
    })
}

fn http(alloc: Global, filters: List<HttpFilter>, cluster: &str) -> Result<ChainBody, Memory> {
    Ok(ChainBody::Http {
        filters,
        cluster: Text::of(alloc, cluster)?,
    })
}

fn tcp(alloc: Global, filters: List<NetworkFilter>, cluster: &str) -> Result<ChainBody, Memory> {
    Ok(ChainBody::Tcp {
        filters,
        cluster: Text::of(alloc, cluster)?,
    })
}

// Over gRPC, where the name of a policy begins like this.
fn grpc(alloc: Global, fail_open: bool) -> Result<ExtAuthz, Memory> {
    Ok(ExtAuthz {
        service: AuthService::Grpc {
            cluster: Text::of(alloc, "outbound|9000||authz.foo")?,
        },
        fail_open,
        enabled_key: Text::of(alloc, "istio_ext_authz_shadow_effective_policy_id")?,
        enabled: StringMatcher {
            kind: MatchKind::Prefix,
            text: Text::of(alloc, "istio-ext-authz")?,
            ignore_case: false,
        },
    })
}

// Over HTTP, where the name of a policy is this one in letters of either case.
fn over_http(alloc: Global, fail_open: bool) -> Result<ExtAuthz, Memory> {
    Ok(ExtAuthz {
        service: AuthService::Http {
            cluster: Text::of(alloc, "outbound|8000||authz.foo")?,
            uri: Text::of(alloc, "http://authz.foo:8000")?,
        },
        fail_open,
        enabled_key: Text::of(alloc, "shadow_effective_policy_id")?,
        enabled: StringMatcher {
            kind: MatchKind::Exact,
            text: Text::of(alloc, "Ask")?,
            ignore_case: true,
        },
    })
}

// ---- defaults alone

fn http_defaults(alloc: Global) -> Result<List<FilterChain>, Stop> {
    let mut filters = List::new(alloc);
    filters.push(HttpFilter::Jwt(plain_filter(alloc)?))?;
    filters.push(HttpFilter::Rbac(no_rules(alloc)?))?;
    filters.push(HttpFilter::ExtAuthz(grpc(alloc, false)?))?;
    sole_chain(alloc, http(alloc, filters, "c")?)
}

fn tcp_defaults(alloc: Global) -> Result<List<FilterChain>, Stop> {
    let mut filters = List::new(alloc);
    filters.push(NetworkFilter::Rbac(no_rules(alloc)?))?;
    filters.push(NetworkFilter::ExtAuthz(grpc(alloc, false)?))?;
    sole_chain(alloc, tcp(alloc, filters, "c")?)
}

// A chain for every connection, without the socket.
fn sole_chain(alloc: Global, body: ChainBody) -> Result<List<FilterChain>, Stop> {
    let mut chains = List::new(alloc);
    chains.push(FilterChain {
        name: Text::of(alloc, "any")?,
        matching: ChainMatch {
            port: None,
            transport: None,
            alpn: List::new(alloc),
        },
        mutual_tls: false,
        body,
    })?;
    Ok(chains)
}
