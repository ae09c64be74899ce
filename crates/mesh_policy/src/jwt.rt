// RequestAuthentications: whose tokens a workload takes, and where a request shows them.
ghost use Rattle.std.specs.Prelude.{◌≡◌, IfOk};
ghost use Rattle.mesh_policy.specs.Jwt.{default_places, or_default};

use crate::Label;
use crate::copies::TryCopy;
use crate::names::{ACCESS_TOKEN, AUTHORIZATION, BEARER};
use mesh_text::{List, Memory, Text};
use std::alloc::Global;

/// A RequestAuthentication (Istio reference, RequestAuthentication): whose tokens a workload takes.
#[derive(Debug, Drop, PartialEq, Eq)]
pub struct RequestAuthentication {
    pub name: Text,
    pub namespace: Text,
    /// What the labels of a Pod have to hold. It selects every Pod of its namespace where there are none.
    pub labels: List<Label>,
    pub rules: List<JwtRule>,
}

/// How the tokens of one issuer are found and checked (Istio reference, RequestAuthentication, JWTRule).
#[derive(Debug, Drop, PartialEq, Eq)]
pub struct JwtRule {
    pub issuer: Text,
    pub audiences: List<Text>,
    pub keys: Keys,
    /// Where a token may stand: one place at least, the headers before the parameters. The first place that
    /// finds one counts.
    pub places: List<TokenPlace>,
    /// Whether the token goes on to the application.
    pub forward: bool,
    /// The header that hands the checked payload to the application, if any.
    pub payload_header: Option<Text>,
}

/// The key set of an issuer (RFC 7517, section 5).
#[derive(Debug, Drop, PartialEq, Eq)]
pub enum Keys {
    /// The set itself (`jwks`).
    Inline(Text),
    /// Where it is fetched from (`jwksUri`).
    Uri(Text),
}

/// Where a request shows a token (Istio reference, JWTRule: `fromHeaders` and `fromParams`).
#[derive(Debug, Drop, PartialEq, Eq)]
pub enum TokenPlace {
    /// The value of a header, behind a prefix.
    Header { name: Text, prefix: Text },
    /// A parameter of the query.
    Param(Text),
}

impl JwtRule {
    /// An equal rule of its own.
    pub fn copy(&self, alloc: Global) -> Result<JwtRule, Memory>
        ensures { IfOk result (λ r. r ≡ self.now) }
    {
        Ok(JwtRule {
            issuer: self.issuer.copy(alloc)?,
            audiences: self.audiences.try_copy(alloc)?,
            keys: self.keys.copy(alloc)?,
            places: self.places.try_copy(alloc)?,
            forward: self.forward,
            payload_header: self.payload_header.try_copy(alloc)?,
        })
    }
}

impl Keys {
    /// Equal keys of their own.
    pub fn copy(&self, alloc: Global) -> Result<Keys, Memory>
        ensures { IfOk result (λ k. k ≡ self.now) }
    {
        match self {
            Keys::Inline(set) => Ok(Keys::Inline(set.copy(alloc)?)),
            Keys::Uri(uri) => Ok(Keys::Uri(uri.copy(alloc)?)),
        }
    }
}

/// These places, or where there are none those of a bearer token (RFC 6750, sections 2.1 and 2.3): the header
/// `authorization` behind `Bearer `, and then the parameter `access_token`.
pub fn places_or_default(
    alloc: Global,
    places: List<TokenPlace>,
) -> Result<List<TokenPlace>, Memory>
    ensures { IfOk result (λ known. known ≡ or_default places) }
{
    if places.is_empty() {
        return default_places(alloc);
    }
    Ok(places)
}

fn default_places(alloc: Global) -> Result<List<TokenPlace>, Memory>
    ensures { IfOk result (λ places. places ≡ default_places) }
{
    let mut places = List::new(alloc);
    places.push(TokenPlace::Header {
        name: Text::of(alloc, AUTHORIZATION)?,
        prefix: Text::of(alloc, BEARER)?,
    })?;
    places.push(TokenPlace::Param(Text::of(alloc, ACCESS_TOKEN)?))?;
    Ok(places)
}
