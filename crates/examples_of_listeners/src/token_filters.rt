// Filters of tokens that have every form of providers and requirements.
ghost use Rattle.std.specs.Prelude.{◌≡◌, IfOk, IsTrue};
ghost use Rattle.mesh_policy.specs.declared.jwt.TokenPlace.TheVariants as place;
ghost use Rattle.envoy_types.specs.Order.{are_places};

use call_lines::Stop;
use envoy_types::{JwtAuthn, JwtCheck, JwtProvider, Requirement};
use mesh_policy::{JwtRule, Keys, TokenPlace};
use mesh_text::{List, Memory, Text};
use std::alloc::Global;

/// Two providers, and a rule of every kind of requirement.
pub fn whole_filter(alloc: Global) -> Result<JwtAuthn, Stop> {
    let first = whole_provider(alloc)?;
    let second = plain_provider(alloc, "a", param(alloc, "access_token")?)?;
    if !(first.name < second.name) {
        return Err(Stop::Arguments);
    }
    let mut providers = List::new(alloc);
    providers.push(first)?;
    providers.push(second)?;
    Ok(JwtAuthn {
        providers,
        rules: checks(alloc)?,
    })
}

/// One provider with one header, and no rule.
pub fn claims_filter(alloc: Global) -> Result<JwtAuthn, Stop> {
    let place = header(alloc, "authorization", "Bearer ")?;
    sole_provider(alloc, plain_provider(alloc, "c", place)?, List::new(alloc))
}

/// One provider with one header that has no prefix, and one rule that requires nothing.
pub fn plain_filter(alloc: Global) -> Result<JwtAuthn, Stop> {
    let place = header(alloc, "x-token", "")?;
    let provider = plain_provider(alloc, "c", place)?;
    let mut rules = List::new(alloc);
    rules.push(check(alloc, "/", None)?)?;
    sole_provider(alloc, provider, rules)
}

fn sole_provider(
    alloc: Global,
    provider: JwtProvider,
    rules: List<JwtCheck>,
) -> Result<JwtAuthn, Stop> {
    let mut providers = List::new(alloc);
    providers.push(provider)?;
    Ok(JwtAuthn { providers, rules })
}

// ---- providers

// Every field is written.
fn whole_provider(alloc: Global) -> Result<JwtProvider, Stop> {
    let places = places(alloc)?;
    Ok(JwtProvider {
        name: Text::of(alloc, "B")?,
        rule: JwtRule {
            issuer: Text::of(alloc, "https://issuer.example")?,
            audiences: names(alloc, "web", "api")?,
            keys: Keys::Inline(Text::of(alloc, "{\"keys\":[]}")?),
            places,
            forward: true,
            payload_header: Some(Text::of(alloc, "x-payload")?),
        },
    })
}

// Of the fields that may be absent, none is written but that of the place.
fn plain_provider(alloc: Global, name: &str, place: TokenPlace) -> Result<JwtProvider, Stop> {
    let mut places = List::new(alloc);
    places.push(place)?;
    Ok(JwtProvider {
        name: Text::of(alloc, name)?,
        rule: JwtRule {
            issuer: Text::of(alloc, "testing@secure.istio.io")?,
            audiences: List::new(alloc),
            keys: Keys::Uri(Text::of(alloc, "https://keys.example/jwks.json")?),
            places,
            forward: false,
            payload_header: None,
        },
    })
}

// Headers with and without a prefix, and parameters behind them.
fn places(alloc: Global) -> Result<List<TokenPlace>, Memory>
    ensures { IfOk result (λ places. IsTrue (are_places places)) }
{
    let mut places = List::new(alloc);
    places.push(header(alloc, "x-token", "Token ")?)?;
    places.push(header(alloc, "authorization", "")?)?;
    places.push(param(alloc, "token")?)?;
    places.push(param(alloc, "jwt")?)?;
    Ok(places)
}

fn header(alloc: Global, name: &str, prefix: &str) -> Result<TokenPlace, Memory>
    ensures { IfOk result (λ p. p ≡ place.Header name.now prefix.now) }
{
    Ok(TokenPlace::Header {
        name: Text::of(alloc, name)?,
        prefix: Text::of(alloc, prefix)?,
    })
}

fn param(alloc: Global, name: &str) -> Result<TokenPlace, Memory>
    ensures { IfOk result (λ p. p ≡ place.Param name.now) }
{
    Ok(TokenPlace::Param(Text::of(alloc, name)?))
}

fn names(alloc: Global, first: &str, second: &str) -> Result<List<Text>, Memory> {
    let mut names = List::new(alloc);
    names.push(Text::of(alloc, first)?)?;
    names.push(Text::of(alloc, second)?)?;
    Ok(names)
}

// ---- requirements

fn checks(alloc: Global) -> Result<List<JwtCheck>, Memory> {
    let mut checks = List::new(alloc);
    checks.push(check(alloc, "/open", None)?)?;
    let one = Requirement::One(Text::of(alloc, "a")?);
    checks.push(check(alloc, "/one", Some(one))?)?;
    let either = any_of(names(alloc, "a", "B")?, false);
    checks.push(check(alloc, "/either?x=1", Some(either))?)?;
    let missing = any_of(names(alloc, "B", "a")?, true);
    checks.push(check(alloc, "/", Some(missing))?)?;
    Ok(checks)
}

fn any_of(names: List<Text>, allow_missing: bool) -> Requirement {
    Requirement::AnyOf {
        names,
        allow_missing,
    }
}

fn check(
    alloc: Global,
    prefix: &str,
    requirement: Option<Requirement>,
) -> Result<JwtCheck, Memory> {
    Ok(JwtCheck {
        prefix: Text::of(alloc, prefix)?,
        requirement,
    })
}
