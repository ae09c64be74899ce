// What the leaves of a tree are judged by, beside the case.
ghost use Rattle.std.specs.Prelude.{◌≡◌};
ghost use Rattle.std.specs.Option.{option_copied};
ghost use Rattle.mesh_policy.specs.Attributes as attributes;
ghost use Rattle.envoy_types.specs.State as meaning;

use mesh_policy::{Case, ClaimField, Request};
use mesh_text::List;

/// What the filters of a chain know of a case before one of them judges.
#[derive(Clone, Copy, Debug, PartialEq, Eq)]
pub struct State {
    /// Whether an HTTP chain judges a request.
    pub request_seen: bool,
    /// Whether the chain's TLS socket has made the peer's name known.
    pub peer_seen: bool,
    /// The position in the case's `verdicts` whose claims are known. One past the end counts as none.
    pub verdict: Option<usize>,
}

/// The request, where one is judged.
pub(crate) fn request_of<'a>(case: &'a Case, state: &State) -> Option<&'a Request>
    ensures { option_copied result ≡ attributes.seen_request case.now (meaning.seen_of case.now state.now) }
{
    if !state.request_seen {
        return None;
    }
    case.request.as_ref()
}

/// The peer's name, where it is known.
pub(crate) fn peer_of<'a>(case: &'a Case, state: &State) -> Option<&'a str>
    ensures { option_copied result ≡ attributes.seen_peer case.now (meaning.seen_of case.now state.now) }
{
    if !state.peer_seen {
        return None;
    }
    match &case.tls {
        None => None,
        Some(tls) => match &tls.peer {
            None => None,
            Some(peer) => Some(peer.as_str()),
        },
    }
}

/// The claims that are known.
pub(crate) fn claims_of<'a>(case: &'a Case, state: &State) -> Option<&'a List<ClaimField>>
    ensures { option_copied result ≡ meaning.claims_of case.now state.now.verdict }
{
    let Some(position) = state.verdict else {
        return None;
    };
    match case.verdicts.get(position) {
        None => None,
        Some(verdict) => Some(&verdict.claims),
    }
}
