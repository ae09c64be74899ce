// Texts that pass a test: bounds of length, tokens, and names that are kept in lower case.
ghost use Rattle.std.specs.Prelude.{◌≡◌, IfOk};
ghost use Rattle.mesh_doc.specs.declared.reason.Reason.TheVariants.{BadName, BadValue};
ghost use Rattle.mesh_policy.specs.Values.{is_bounded, is_name, is_short, lowered};
ghost use Rattle.mesh_text.specs.Token as token;
ghost use Rattle.policy_json.specs.Texts.{lower_name_faults, lower_name_in};

use mesh_doc::{DocError, Form, Reason, Spot, Tested, TextTest};
use mesh_policy::MOST_VALUE_BYTES;
use mesh_text::{Memory, Text, is_token};
use serde_json::Value;
use std::alloc::Global;

/// A text of 1 to 1,024 bytes: BadValue for another length.
pub(crate) type ShortText = Tested<IsShort>;

pub(crate) struct IsShort;

impl TextTest for IsShort {
    ghost passes = { is_short };

    ghost reason = { BadValue };

    fn passes(text: &str) -> bool {
        is_short(text)
    }

    fn reason() -> Reason {
        Reason::BadValue
    }
}

/// A text of at most 1,024 bytes: BadValue for a longer one.
pub(crate) type BoundedText = Tested<IsBounded>;

pub(crate) struct IsBounded;

impl TextTest for IsBounded {
    ghost passes = { is_bounded };

    ghost reason = { BadValue };

    fn passes(text: &str) -> bool {
        is_bounded(text)
    }

    fn reason() -> Reason {
        Reason::BadValue
    }
}

/// A test of texts: a token (RFC 9110, section 5.6.2), else BadName.
pub struct IsToken;

impl TextTest for IsToken {
    ghost passes = { token.is_token };

    ghost reason = { BadName };

    fn passes(text: &str) -> bool {
        is_token(text)
    }

    fn reason() -> Reason {
        Reason::BadName
    }
}

/// The name of a header field, a token of at most 1,024 bytes that is kept in lower case: BadName for another text.
pub(crate) struct LowerName;

impl Form for LowerName {
    type Out = Text;

    ghost faults = { lower_name_faults };

    ghost value = { lower_name_in };

    #[tactic(auto, unfolding(crate::specs::Texts::lower_name_in))]
    fn read(alloc: Global, v: &Value, at: &Spot) -> Result<Text, DocError> {
        let name = Tested::<IsName>::read(alloc, v, at)?;
        Ok(lower(alloc, &name)?)
    }
}

struct IsName;

impl TextTest for IsName {
    ghost passes = { is_name };

    ghost reason = { BadName };

    fn passes(text: &str) -> bool {
        is_name(text)
    }

    fn reason() -> Reason {
        Reason::BadName
    }
}

/// The text with `A` to `Z` as `a` to `z`.
pub(crate) fn lower(alloc: Global, text: &str) -> Result<Text, Memory>
    ensures { IfOk result (λ t. t ≡ lowered text.now) }
{
    Ok(Text::from_string(text.to_ascii_lowercase(alloc)?))
}

/// Whether a text has 1 to 1,024 bytes.
pub(crate) fn is_short(text: &str) -> bool
    ensures { result ≡ is_short text.now }
{
    !text.is_empty() && is_bounded(text)
}

/// Whether a text has at most 1,024 bytes.
pub(crate) fn is_bounded(text: &str) -> bool
    ensures { result ≡ is_bounded text.now }
{
    text.len() <= MOST_VALUE_BYTES
}

/// Whether a text is a token of at most 1,024 bytes.
pub(crate) fn is_name(text: &str) -> bool
    ensures { result ≡ is_name text.now }
{
    is_token(text) && is_bounded(text)
}
