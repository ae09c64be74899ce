// The verdict of a listener, and the trace of what its filters hit.
ghost use Rattle.std.specs.Prelude.{◌≡◌, ℕ, List};
ghost use Rattle.std.specs.List.{slice_get};
ghost use Rattle.std.specs.Option.{option_and_then, option_copied};
ghost use Rattle.envoy_types.specs.ListenerVerdict as meaning;
ghost use Rattle.envoy_types.specs.declared.chains.ChainBody.TheVariants.{Http};
ghost use Rattle.envoy_eval.specs.Steps.{decision_of};
ghost use Rattle.envoy_eval.specs.Trace as trace;

use crate::chains::choose;
use crate::hits::{Hits, StageHits, no_hits};
use crate::run::run_filters;
use crate::steps::{Decision, FilterStep};
use envoy_types::{ChainBody, FilterChain, HttpFilter, Listener, State};
use mesh_policy::{Case, Outcome, Tls, Verdict};

/// What a chain decides, and what its filters hit.
#[derive(Clone, Copy)]
struct Judged {
    verdict: Verdict,
    hits: StageHits,
}

/// The verdict of a listener for a case, with the audit mark.
#[tactic(auto, unfolding(crate::specs::Trace::trace_of))]
pub fn judge(listener: &Listener, case: &Case) -> Verdict
    ensures { result ≡ meaning.envoy_verdict listener.now case.now }
{
    trace(listener, case).verdict
}

/// The chain that is chosen, the policies that the filters which ran have hit, and the verdict.
#[tactic(auto, unfolding(crate::specs::Trace::trace_of, envoy_types::specs::ListenerVerdict::envoy_verdict))]
pub fn trace(listener: &Listener, case: &Case) -> Hits
    ensures { result ≡ trace.trace_of listener.now case.now }
{
    let chain = choose(listener, case);
    let judged = judge_chosen(chain_at(&listener.chains, chain), case);
    Hits {
        chain,
        custom: judged.hits.custom,
        audit: judged.hits.audit,
        deny: judged.hits.deny,
        allow: judged.hits.allow,
        verdict: judged.verdict,
    }
}

fn chain_at(chains: &[FilterChain], position: Option<usize>) -> Option<&FilterChain>
    ensures { option_copied result ≡ option_and_then (slice_get chains.now) position }
{
    match position {
        None => None,
        Some(at) => chains.get(at),
    }
}

fn judge_chosen(chain: Option<&FilterChain>, case: &Case) -> Judged
    ensures verdict { result.verdict ≡ meaning.verdict_by (option_copied chain.entry) case.now }
    ensures hits { result.hits ≡ trace.chosen_hits (option_copied chain.entry) case.now }
{
    match chain {
        None => without_run(Outcome::Closed),
        Some(chain) => judge_chain(chain, case),
    }
}

fn judge_chain(chain: &FilterChain, case: &Case) -> Judged
    ensures verdict { result.verdict ≡ meaning.chain_verdict chain.now case.now }
    ensures hits { result.hits ≡ trace.chain_hits chain.now case.now }
{
    if chain.mutual_tls && !shows_peer(case.tls.as_ref()) {
        return without_run(Outcome::Closed);
    }
    judge_body(chain.mutual_tls, &chain.body, case)
}

fn shows_peer(tls: Option<&Tls>) -> bool
    ensures { result ≡ meaning.shows_peer (option_copied tls.entry) }
{
    match tls {
        None => false,
        Some(tls) => tls.peer.is_some(),
    }
}

fn judge_body(mutual_tls: bool, body: &ChainBody, case: &Case) -> Judged
    ensures verdict { result.verdict ≡ meaning.body_verdict mutual_tls body.now case.now }
    ensures hits { result.hits ≡ trace.body_hits mutual_tls body.now case.now }
{
    match body {
        ChainBody::Tcp { filters, .. } => with_outcome(
            Outcome::Closed,
            run_filters(filters.as_slice(), case, start(false, mutual_tls)),
        ),
        ChainBody::Http { filters, .. } => judge_http(mutual_tls, filters.as_slice(), case),
    }
}

fn judge_http(mutual_tls: bool, filters: &[HttpFilter], case: &Case) -> Judged
    ensures verdict { (cluster : List ℕ) → result.verdict ≡ meaning.body_verdict mutual_tls (Http filters.now cluster) case.now }
    ensures hits { result.hits ≡ trace.http_hits mutual_tls filters.now case.now }
{
    if !mutual_tls && case.tls.is_some() {
        return without_run(Outcome::Closed);
    }
    if case.request.is_none() {
        return without_run(Outcome::Admitted);
    }
    with_outcome(
        Outcome::Refused403,
        run_filters(filters, case, start(true, mutual_tls)),
    )
}

// what is known before the first filter
fn start(is_http: bool, mutual_tls: bool) -> State
    ensures { result ≡ trace.start is_http mutual_tls }
{
    State {
        request_seen: is_http,
        peer_seen: mutual_tls,
        verdict: None,
    }
}

// no filter runs
fn without_run(outcome: Outcome) -> Judged
    ensures verdict { result.verdict ≡ meaning.unmarked outcome }
    ensures hits { result.hits ≡ trace.no_hits }
{
    Judged {
        verdict: Verdict {
            outcome,
            audited: false,
        },
        hits: no_hits(),
    }
}

// by what the filters have decided, and what a refusal is
fn with_outcome(refusal: Outcome, ran: FilterStep) -> Judged
    ensures verdict { result.verdict
        ≡ record { outcome = meaning.outcome_of refusal (decision_of ran.decision); audited = ran.after.audited } }
    ensures hits { result.hits ≡ ran.hits }
{
    Judged {
        verdict: Verdict {
            outcome: outcome_of(refusal, ran.decision),
            audited: ran.after.audited,
        },
        hits: ran.hits,
    }
}

fn outcome_of(refusal: Outcome, decision: Decision) -> Outcome
    ensures { result ≡ meaning.outcome_of refusal (decision_of decision) }
{
    match decision {
        Decision::GoesOn => Outcome::Admitted,
        Decision::Unauthenticated => Outcome::Refused401,
        Decision::Refuses => refusal,
    }
}
