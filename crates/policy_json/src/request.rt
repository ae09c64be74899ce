// The `spec` of a RequestAuthentication.
ghost use Rattle.std.specs.Prelude.{◌≡◌, IfOk, IsTrue, option_map};
ghost use Rattle.serde_json.specs.View.{view};
ghost use Rattle.mesh_doc.specs.Faults.{Reads};
ghost use Rattle.mesh_doc.specs.Fields.{spec_of};
ghost use Rattle.mesh_policy.specs.AcceptedTokens.{AcceptedRequest};
ghost use Rattle.mesh_text.specs.Dns.{is_label, is_subdomain};
ghost use Rattle.policy_json.specs.Request.{request_faults, request_in};

use crate::jwt_rules::RuleForm;
use crate::labels::{SELECTOR, Selector};
use crate::target_refs::{TARGET_REF, TARGET_REFS, no_targets};
use mesh_doc::{DocError, Place, Spot, empty_object, listed, optional};
use mesh_policy::{MOST_ENTRIES, RequestAuthentication};
use mesh_text::{List, Text};
use serde_json::Value;
use std::alloc::Global;

const JWT_RULES: &str = "jwtRules";

/// The RequestAuthentication that the `spec` at `at` means (Istio reference, RequestAuthentication), or its first
/// fault: UnknownField, WrongType, MissingField, BadName, BadValue, TargetRefs, JwtKeys, TooMany for a list of more
/// than 2,048 entries. None stands for a `spec` that is not written or `null`.
pub fn read_request_at(
    alloc: Global,
    name: Text,
    namespace: Text,
    spec: Option<&Value>,
    at: &Spot,
) -> Result<RequestAuthentication, DocError>
    ensures reads { Reads result
        (request_faults (spec_of (option_map (λ v. view v.now) spec.entry)) at.now)
        (request_in name namespace (spec_of (option_map (λ v. view v.now) spec.entry))) }
    ensures accepted { IsTrue (is_subdomain name) → IsTrue (is_label namespace) → IfOk result AcceptedRequest }
{
    let empty = empty_object(alloc);
    read_spec(alloc, name, namespace, spec.unwrap_or(&empty), at)
}

/// As `read_request_at`, of the `spec` at `place`.
pub fn read_request(
    alloc: Global,
    name: Text,
    namespace: Text,
    spec: Option<&Value>,
    place: &Place,
) -> Result<RequestAuthentication, DocError>
    ensures reads { Reads result
        (request_faults (spec_of (option_map (λ v. view v.now) spec.entry)) place.now)
        (request_in name namespace (spec_of (option_map (λ v. view v.now) spec.entry))) }
    ensures accepted { IsTrue (is_subdomain name) → IsTrue (is_label namespace) → IfOk result AcceptedRequest }
{
    read_request_at(alloc, name, namespace, spec, &Spot::of(place))
}

#[tactic(auto, unfolding(crate::specs::Request::request_faults, crate::specs::Request::request_in))]
fn read_spec(
    alloc: Global,
    name: Text,
    namespace: Text,
    v: &Value,
    at: &Spot,
) -> Result<RequestAuthentication, DocError>
    ensures { Reads result
        (request_faults (view v.now) at.now)
        (request_in name namespace (view v.now)) }
{
    at.only_fields(alloc, v, &[SELECTOR, TARGET_REFS, TARGET_REF, JWT_RULES])?;
    let labels = optional::<Selector>(alloc, v, SELECTOR, at)?;
    no_targets(alloc, v, at)?;
    let rules = listed::<RuleForm>(alloc, v, JWT_RULES, MOST_ENTRIES, at)?;
    Ok(RequestAuthentication {
        name,
        namespace,
        labels: labels.unwrap_or(List::new(alloc)),
        rules,
    })
}
