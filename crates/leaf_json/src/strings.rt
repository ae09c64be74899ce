//! String matchers as JSON.
ghost use Rattle.std.specs.Prelude.{◌≡◌, IfOk, option_map, unwrap_or};
ghost use Rattle.serde_json.specs.View.{view};
ghost use Rattle.mesh_doc.specs.Faults.{Reads};
ghost use Rattle.mesh_doc.specs.declared.reason.Reason.TheVariants as why;
ghost use Rattle.envoy_types.specs.StringForms.{is_filled, match_key, string_faults, string_in, string_written};
ghost use Rattle.envoy_types.specs.Strings.{matcher_with};

use crate::alternatives::one_of;
use crate::fields::Fields;
use envoy_types::keys::{CONTAINS, EXACT, IGNORE_CASE, PREFIX, SUFFIX};
use envoy_types::{MatchKind, StringMatcher};
use mesh_doc::{
    AnyText, AnyTruth, DocError, Form, Place, Reason, Spot, Tested, TextTest, optional_written,
};
use mesh_text::{Memory, Text};
use serde_json::Value;
use std::alloc::Global;

/// The value that spells a matcher (Envoy v3 API, `type.matcher.v3.StringMatcher`), with `ignore_case` only where it is
/// `true`; `Memory` where there is no room.
#[tactic(auto, unfolding(envoy_types::specs::StringForms::string_written))]
pub fn string_to_value(alloc: Global, matcher: &StringMatcher) -> Result<Value, Memory>
    ensures { IfOk result (λ v. view v ≡ string_written matcher.now) }
{
    let mut fields = Fields::new(alloc);
    fields.put_text(alloc, match_key(matcher.kind), &matcher.text)?;
    fields.put_true(alloc, IGNORE_CASE, matcher.ignore_case)?;
    Ok(fields.into_value())
}

// The alternative of a kind.
fn match_key(kind: MatchKind) -> &'static str
    ensures { result.now ≡ match_key kind }
{
    match kind {
        MatchKind::Exact => EXACT,
        MatchKind::Prefix => PREFIX,
        MatchKind::Suffix => SUFFIX,
        MatchKind::Contains => CONTAINS,
    }
}

/// The matcher that `v`, which stands at `place`, spells, or its first fault: UnknownField, WrongType, BadForm.
pub fn string_from_value(alloc: Global, v: &Value, place: &Place) -> Result<StringMatcher, DocError>
    ensures { Reads result (string_faults (view v.now) place.now) (string_in (view v.now)) }
{
    StringForm::read(alloc, v, &Spot::of(place))
}

/// A string matcher, as `string_from_value` reads it.
pub struct StringForm;

impl Form for StringForm {
    type Out = StringMatcher;

    ghost faults = { string_faults };

    ghost value = { string_in };

    #[tactic(auto, unfolding(envoy_types::specs::StringForms::string_faults))]
    fn read(alloc: Global, v: &Value, at: &Spot) -> Result<StringMatcher, DocError> {
        at.only_fields(alloc, v, &[CONTAINS, EXACT, PREFIX, SUFFIX, IGNORE_CASE])?;
        one_of(alloc, v, &[CONTAINS, EXACT, PREFIX, SUFFIX], at)?;
        let contains = optional_written::<Tested<Filled>>(alloc, v, CONTAINS, at)?;
        let exact = optional_written::<AnyText>(alloc, v, EXACT, at)?;
        let prefix = optional_written::<Tested<Filled>>(alloc, v, PREFIX, at)?;
        let suffix = optional_written::<Tested<Filled>>(alloc, v, SUFFIX, at)?;
        let ignore_case = optional_written::<AnyTruth>(alloc, v, IGNORE_CASE, at)?;
        let ignore_case = ignore_case.unwrap_or(false);
        let no_text = Text::from_string(String::new(alloc));
        Ok(alternative(
            contains,
            exact,
            prefix,
            suffix.unwrap_or(no_text),
            ignore_case,
        ))
    }
}

// The matcher of the first text that is there.
fn alternative(
    contains: Option<Text>,
    exact: Option<Text>,
    prefix: Option<Text>,
    suffix: Text,
    ignore_case: bool,
) -> StringMatcher
    ensures { result ≡
        unwrap_or (option_map (λ t. matcher_with MatchKind.Contains t ignore_case) contains)
        (unwrap_or (option_map (λ t. matcher_with MatchKind.Exact t ignore_case) exact)
        (unwrap_or (option_map (λ t. matcher_with MatchKind.Prefix t ignore_case) prefix)
        (matcher_with MatchKind.Suffix suffix ignore_case))) }
{
    if let Some(text) = contains {
        return matcher(MatchKind::Contains, text, ignore_case);
    }
    if let Some(text) = exact {
        return matcher(MatchKind::Exact, text, ignore_case);
    }
    if let Some(text) = prefix {
        return matcher(MatchKind::Prefix, text, ignore_case);
    }
    matcher(MatchKind::Suffix, suffix, ignore_case)
}

fn matcher(kind: MatchKind, text: Text, ignore_case: bool) -> StringMatcher
    ensures { result ≡ matcher_with kind text ignore_case }
{
    StringMatcher {
        kind,
        text,
        ignore_case,
    }
}

// A text that is not empty.
struct Filled;

impl TextTest for Filled {
    ghost passes = { is_filled };

    ghost reason = { why.BadForm };

    fn passes(text: &str) -> bool {
        !text.is_empty()
    }

    fn reason() -> Reason {
        Reason::BadForm
    }
}
