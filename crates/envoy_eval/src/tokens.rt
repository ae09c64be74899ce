// What the token filter asks of a request, and where the case tells which tokens are valid.
ghost use Rattle.std.specs.Prelude.{◌≡◌, find};
ghost use Rattle.std.specs.List.{list_any, position_from};
ghost use Rattle.std.specs.Option.{option_copied};
ghost use Rattle.mesh_text.specs.Parts.{is_prefix};
ghost use Rattle.mesh_policy.specs.Authenticated as authenticated;
ghost use Rattle.mesh_policy.specs.Lists.{first_answer};
ghost use Rattle.mesh_policy.specs.Token.{token_at};
ghost use Rattle.envoy_types.specs.Jwt as jwt;
ghost use Rattle.envoy_eval.specs.Tokens as tokens;

use envoy_types::{JwtAuthn, JwtCheck, JwtProvider, Requirement, provider_named};
use mesh_policy::{Case, JwtRule, Keys, Request, TokenPlace, TokenVerdict, find_token};
use mesh_text::{Text, is_prefix};

/// What the first rule whose prefix begins the request's path requires, if anything.
pub(crate) fn required<'a>(filter: &'a JwtAuthn, case: &Case) -> Option<&'a Requirement>
    ensures { option_copied result ≡ jwt.required filter.now case.now }
{
    match &case.request {
        None => None,
        Some(request) => required_of(&filter.rules, request),
    }
}

fn required_of<'a>(rules: &'a [JwtCheck], request: &Request) -> Option<&'a Requirement>
    ensures { option_copied result ≡ jwt.required_of rules.now request.now }
{
    match rule_of(rules, &request.path) {
        None => None,
        Some(rule) => rule.requirement.as_ref(),
    }
}

fn rule_of<'a>(rules: &'a [JwtCheck], path: &str) -> Option<&'a JwtCheck>
    ensures { option_copied result ≡ find (λ rule. is_prefix rule.prefix path.now) rules.now }
{
    rules.iter().find(|rule| is_prefix(&rule.prefix, path))
}

/// Where the case lists the valid token of the first provider of a requirement that holds.
pub(crate) fn first_position_by(
    filter: &JwtAuthn,
    requirement: &Requirement,
    case: &Case,
) -> Option<usize>
    ensures { result ≡ tokens.first_position_by filter.now.providers case.now (jwt.names_of requirement.now) }
{
    match requirement {
        Requirement::One(name) => position_by(filter, case, name),
        Requirement::AnyOf { names, .. } => first_of(filter, case, names),
    }
}

fn first_of(filter: &JwtAuthn, case: &Case, names: &[Text]) -> Option<usize>
    ensures { result ≡ tokens.first_position_by filter.now.providers case.now names.now }
{
    for name in names {
        if let Some(position) = position_by(filter, case, name) {
            return Some(position);
        }
    }
    None
}

/// Whether a requirement is met by a request in which none of its providers finds a token.
pub(crate) fn may_miss(filter: &JwtAuthn, requirement: &Requirement, case: &Case) -> bool
    ensures { result ≡ tokens.may_miss filter.now.providers case.now requirement.now }
{
    match requirement {
        Requirement::One(_) => false,
        Requirement::AnyOf {
            names,
            allow_missing,
        } => { *allow_missing && !one_has_token(filter, case, names) }
    }
}

fn one_has_token(filter: &JwtAuthn, case: &Case, names: &[Text]) -> bool
    ensures { result ≡ list_any (jwt.has_token filter.now.providers case.now) names.now }
{
    names.iter().any(|name| has_token(filter, case, name))
}

// ---- one provider

fn has_token(filter: &JwtAuthn, case: &Case, name: &str) -> bool
    ensures { result ≡ jwt.has_token filter.now.providers case.now name.now }
{
    match provider_of(filter, name) {
        None => false,
        Some(provider) => token_of(case, &provider.rule).is_some(),
    }
}

fn position_by(filter: &JwtAuthn, case: &Case, name: &str) -> Option<usize>
    ensures { result ≡ tokens.position_by filter.now.providers case.now name.now }
{
    match provider_of(filter, name) {
        None => None,
        Some(provider) => position_for(case, &provider.rule),
    }
}

// the provider of a name, by halving
fn provider_of<'a>(filter: &'a JwtAuthn, name: &str) -> Option<&'a JwtProvider>
    ensures { option_copied result ≡ jwt.provider_named filter.now.providers name.now }
{
    provider_named(&filter.providers, name)
}

// where the case answers the question of a rule
fn position_for(case: &Case, rule: &JwtRule) -> Option<usize>
    ensures { result ≡ tokens.position_for case.now rule.now }
{
    match token_of(case, rule) {
        None => None,
        Some(token) => position_of_answer(&case.verdicts, rule, token),
    }
}

fn position_of_answer(verdicts: &[TokenVerdict], rule: &JwtRule, token: &str) -> Option<usize>
    ensures { result ≡ position_from (authenticated.is_answer (authenticated.question_of rule.now token.now)) 0 verdicts.now }
{
    verdicts
        .iter()
        .position(|verdict| is_answer(rule, token, verdict))
}

fn is_answer(rule: &JwtRule, token: &str, verdict: &TokenVerdict) -> bool
    ensures { result ≡ authenticated.is_answer (authenticated.question_of rule.now token.now) verdict.now }
{
    verdict.token.as_str() == token
        && verdict.issuer == rule.issuer
        && verdict.audiences == rule.audiences
        && verdict.keys.as_str() == text_of(&rule.keys)
}

fn text_of(keys: &Keys) -> &str
    ensures { result.now ≡ authenticated.text_of keys.now }
{
    match keys {
        Keys::Inline(set) => set.as_str(),
        Keys::Uri(uri) => uri.as_str(),
    }
}

// the token of the first place that finds one
fn token_of<'a>(case: &'a Case, rule: &JwtRule) -> Option<&'a str>
    ensures { option_copied result ≡ authenticated.token_of case.now rule.now }
{
    match &case.request {
        None => None,
        Some(request) => first_token(&rule.places, request),
    }
}

fn first_token<'a>(places: &[TokenPlace], request: &'a Request) -> Option<&'a str>
    ensures { option_copied result ≡ first_answer (λ place. token_at place request.now) places.now }
{
    for place in places {
        if let Some(token) = find_token(place, request) {
            return Some(token);
        }
    }
    None
}
