// Matchers of a token's claims, which stand in the metadata of a request.
ghost use Rattle.std.specs.Prelude.{◌≡◌, IfOk};
ghost use Rattle.std.specs.List.{list_any};
ghost use Rattle.std.specs.Option.{option_and_then, option_copied};
ghost use Rattle.mesh_policy.specs.Attributes as attributes;
ghost use Rattle.mesh_policy.specs.declared.token_verdict.Claim.{out-Claim};
ghost use Rattle.envoy_types.specs.Metadata as meaning;
ghost use Rattle.envoy_types.specs.State.{holds_of};
ghost use Rattle.envoy_types.specs.Strings.{string_holds};

use crate::strings::StringMatcher;
use mesh_policy::{Claim, ClaimField};
use mesh_text::{List, Memory, Text};
use std::alloc::Global;

/// A test of a claim (Envoy v3 API, `type.matcher.v3.ValueMatcher`).
#[derive(Debug, Drop, PartialEq, Eq, Hash)]
pub enum ValueMatcher {
    /// A text (`present_match`).
    Present,
    /// A text that matches (`string_match`).
    Words(StringMatcher),
    /// A list with a text (`list_match.one_of.present_match`).
    OneOfPresent,
    /// A list with a text that matches (`list_match.one_of.string_match`).
    OneOf(StringMatcher),
}

impl ValueMatcher {
    /// Whether it holds for a claim. It takes no memory.
    pub fn holds(&self, claim: &Claim) -> bool
        ensures { result ≡ meaning.value_holds self.now (out-Claim claim.now) }
    {
        match claim {
            Claim::Word(text) => self.holds_text(text),
            Claim::Words(texts) => self.holds_list(texts),
            Claim::Object(_) => false,
        }
    }

    fn holds_text(&self, text: &str) -> bool
        ensures { result ≡ meaning.text_holds self.now text.now }
    {
        match self {
            ValueMatcher::Present => true,
            ValueMatcher::Words(matcher) => matcher.holds(text),
            ValueMatcher::OneOfPresent | ValueMatcher::OneOf(_) => false,
        }
    }

    fn holds_list(&self, texts: &[Text]) -> bool
        ensures { result ≡ meaning.list_holds self.now texts.now }
    {
        match self {
            ValueMatcher::Present | ValueMatcher::Words(_) => false,
            ValueMatcher::OneOfPresent => !texts.is_empty(),
            ValueMatcher::OneOf(matcher) => one_holds(matcher, texts),
        }
    }

    /// An equal matcher of its own.
    pub fn copy(&self, alloc: Global) -> Result<ValueMatcher, Memory>
        ensures { IfOk result (λ v. v ≡ self.now) }
    {
        match self {
            ValueMatcher::Present => Ok(ValueMatcher::Present),
            ValueMatcher::Words(matcher) => Ok(ValueMatcher::Words(matcher.copy(alloc)?)),
            ValueMatcher::OneOfPresent => Ok(ValueMatcher::OneOfPresent),
            ValueMatcher::OneOf(matcher) => Ok(ValueMatcher::OneOf(matcher.copy(alloc)?)),
        }
    }
}

fn one_holds(matcher: &StringMatcher, texts: &[Text]) -> bool
    ensures { result ≡ list_any (string_holds matcher.now) texts.now }
{
    texts.iter().any(|text| matcher.holds(text))
}

/// Whether the matcher holds for the claim at a path of keys, each but the last one that of an object.
pub(crate) fn claim_holds(
    value: &ValueMatcher,
    path: &[Text],
    claims: Option<&List<ClaimField>>,
) -> bool
    ensures { result ≡ meaning.claim_holds value.now path.now (option_copied claims.entry) }
{
    match claims {
        None => false,
        Some(claims) => holds_at(value, path, claims),
    }
}

fn holds_at(value: &ValueMatcher, path: &[Text], claims: &[ClaimField]) -> bool
    ensures { result ≡ holds_of (meaning.is_match value.now) (attributes.claim_at path.now claims.now) }
{
    match claim_at(path, claims) {
        None => false,
        Some(claim) => value.holds(claim),
    }
}

fn claim_at<'a>(path: &[Text], claims: &'a [ClaimField]) -> Option<&'a Claim>
    ensures { option_copied result ≡ attributes.claim_at path.now claims.now }
{
    let mut rest = path;
    let mut fields = claims;
    'keys: while let Some((name, more)) = rest.split_first() {
        let Some(claim) = field_of(name, fields) else {
            return None;
        };
        if more.is_empty() {
            return Some(claim);
        }
        let Claim::Object(inner) = claim else {
            return None;
        };
        fields = inner.as_slice();
        rest = more;
    }
    None
}

// the first claim of the name
fn field_of<'a>(name: &str, fields: &'a [ClaimField]) -> Option<&'a Claim>
    ensures { option_copied result ≡ attributes.field_of name.now fields.now }
{
    match fields.iter().find(|field| field.key.as_str() == name) {
        None => None,
        Some(field) => Some(&field.value),
    }
}
