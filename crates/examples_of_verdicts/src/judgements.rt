// What listeners decide of cases: the verdict, the chain, and the policies that are hit.
use crate::cases::case_of;
use call_lines::{Call, Stop, none, refused};
use envoy_eval::{Hit, Hits, choose, effective, judge, trace};
use envoy_types::{ChainBody, FilterChain, HttpFilter, Listener, NetworkFilter, RbacRules, State};
use listener_reader::from_value;
use mesh_doc::Place;
use mesh_policy::{Case, Outcome, Verdict};
use mesh_text::List;
use std::alloc::{AllocError, Global};

/// The first argument is a listener, and the second one a case in short.
pub fn answer(alloc: Global, call: &Call) -> Result<Option<String>, Stop> {
    match call.name {
        "judge" | "effective" => of_case(alloc, call),
        _ => Ok(None),
    }
}

fn of_case(alloc: Global, call: &Call) -> Result<Option<String>, Stop> {
    let case = case_of(alloc, call.value(1)?)?;
    let whole: Place = List::new(alloc);
    match from_value(alloc, call.value(0)?, &whole) {
        Ok(listener) => told(alloc, call.name, &listener, &case),
        Err(error) => Ok(Some(refused(alloc, error)?)),
    }
}

fn told(
    alloc: Global,
    name: &str,
    listener: &Listener,
    case: &Case,
) -> Result<Option<String>, Stop> {
    if name == "judge" {
        return Ok(Some(judged(alloc, listener, case)?));
    }
    match first_held(listener, case) {
        None => none(alloc),
        Some(position) => Ok(Some(format!(in alloc; "{position}")?)),
    }
}

// ---- what is decided

/// The verdict, the chain, and of each stage that has a hit the filter and its policy.
pub fn judged(alloc: Global, listener: &Listener, case: &Case) -> Result<String, AllocError> {
    let mut out = String::new(alloc);
    push_verdict(&mut out, judge(listener, case))?;
    push_chain(&mut out, listener, choose(listener, case))?;
    push_hits(&mut out, trace(listener, case))?;
    Ok(out)
}

fn push_verdict(out: &mut String, verdict: Verdict) -> Result<(), AllocError> {
    let mark = if verdict.audited { ", marked" } else { "" };
    write!(out, "{}{mark}", outcome_words(verdict.outcome))
}

fn outcome_words(outcome: Outcome) -> &'static str {
    match outcome {
        Outcome::Admitted => "admitted",
        Outcome::Refused401 => "refused 401",
        Outcome::Refused403 => "refused 403",
        Outcome::Closed => "closed",
    }
}

fn push_chain(
    out: &mut String,
    listener: &Listener,
    position: Option<usize>,
) -> Result<(), AllocError> {
    match chain_at(listener, position) {
        None => out.push_str(", no chain"),
        Some((at, chain)) => write!(out, ", chain {at} {}", chain.name),
    }
}

fn chain_at(listener: &Listener, position: Option<usize>) -> Option<(usize, &FilterChain)> {
    match position {
        None => None,
        Some(at) => match listener.chains.as_slice().get(at) {
            None => None,
            Some(chain) => Some((at, chain)),
        },
    }
}

// Of each stage that has a hit the filter and its policy.
fn push_hits(out: &mut String, hits: Hits) -> Result<(), AllocError> {
    push_hit(out, "custom", hits.custom)?;
    push_hit(out, "audit", hits.audit)?;
    push_hit(out, "deny", hits.deny)?;
    push_hit(out, "allow", hits.allow)
}

fn push_hit(out: &mut String, stage: &str, hit: Option<Hit>) -> Result<(), AllocError> {
    match hit {
        None => Ok(()),
        Some(hit) => write!(out, ", {stage} {}/{}", hit.filter, hit.policy),
    }
}

// ---- the first rules of the chain

fn first_held(listener: &Listener, case: &Case) -> Option<usize> {
    match chain_at(listener, choose(listener, case)) {
        None => None,
        Some((_, chain)) => held_in(chain, case),
    }
}

fn held_in(chain: &FilterChain, case: &Case) -> Option<usize> {
    match first_rules(&chain.body) {
        None => None,
        Some(rules) => effective(rules, case, &known_in(chain)),
    }
}

fn first_rules(body: &ChainBody) -> Option<&RbacRules> {
    match body {
        ChainBody::Tcp { filters, .. } => network_rules(filters.as_slice()),
        ChainBody::Http { filters, .. } => request_rules(filters.as_slice()),
    }
}

fn network_rules(filters: &[NetworkFilter]) -> Option<&RbacRules> {
    match filters.get(0) {
        Some(NetworkFilter::Rbac(rbac)) => rbac.rules.as_ref(),
        _ => None,
    }
}

fn request_rules(filters: &[HttpFilter]) -> Option<&RbacRules> {
    match filters.get(0) {
        Some(HttpFilter::Rbac(rbac)) => rbac.rules.as_ref(),
        _ => None,
    }
}

// What is known before the first filter.
fn known_in(chain: &FilterChain) -> State {
    State {
        request_seen: matches!(chain.body, ChainBody::Http { .. }),
        peer_seen: chain.mutual_tls,
        verdict: None,
    }
}
