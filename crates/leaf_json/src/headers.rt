//! Header matchers as JSON.
ghost use Rattle.std.specs.Prelude.{◌≡◌, not, IfOk, OnOk, option_map, unwrap_or};
ghost use Rattle.std.specs.List.{list_all};
ghost use Rattle.serde_json.specs.View.{view};
ghost use Rattle.mesh_doc.specs.declared.reason.Reason.TheVariants.{BadForm};
ghost use Rattle.mesh_policy.specs.Values.{is_upper};
ghost use Rattle.envoy_types.specs.HeaderForms as form;
ghost use Rattle.envoy_types.specs.HeaderForms.{header_test_field, header_written};
ghost use Rattle.envoy_types.specs.WrittenFields.{with_field};
ghost use Rattle.leaf_json.specs.Fields.{members_of};

use crate::alternatives::{TrueAlone, one_of};
use crate::fields::Fields;
use crate::strings::{StringForm, string_to_value};
use envoy_types::keys::{NAME, PRESENT_MATCH, STRING_MATCH};
use envoy_types::{
    AUTHORITY_HEADER, HeaderMatch, HeaderTest, METHOD_HEADER, PATH_HEADER, StringMatcher,
};
use mesh_doc::{
    DocError, Form, Reason, Spot, Tested, TextTest, optional_written, required_written,
};
use mesh_text::{Memory, is_token};
use serde_json::Value;
use std::alloc::Global;

/// A test of a header (Envoy v3 API, `config.route.v3.HeaderMatcher`).
#[tactic(auto, unfolding(envoy_types::specs::HeaderForms::header_written))]
pub(crate) fn header_value(alloc: Global, header: &HeaderMatch) -> Result<Value, Memory>
    ensures { IfOk result (λ v. view v ≡ header_written header.now) }
{
    let mut fields = Fields::new(alloc);
    fields.put_text(alloc, NAME, &header.name)?;
    put_test(alloc, &mut fields, &header.test)?;
    Ok(fields.into_value())
}

// The test, beside the name.
fn put_test(alloc: Global, fields: &mut Fields, test: &HeaderTest) -> Result<(), Memory>
    ensures { OnOk result (members_of fields.new ≡ with_field (members_of fields.old) (header_test_field test.now)) }
{
    match test {
        HeaderTest::Present => fields.put(alloc, PRESENT_MATCH, Value::Bool(true)),
        HeaderTest::Words(matcher) => {
            let value = string_to_value(alloc, matcher)?;
            fields.put(alloc, STRING_MATCH, value)
        }
    }
}

/// A test of a header: `name`, and either `present_match` or `string_match`.
pub(crate) struct HeaderForm;

impl Form for HeaderForm {
    type Out = HeaderMatch;

    ghost faults = { form.header_faults };

    ghost value = { form.header_in };

    #[tactic(auto, unfolding(envoy_types::specs::HeaderForms::header_faults, envoy_types::specs::HeaderForms::header_in, mesh_doc::specs::Fields::optional_written_in))]
    fn read(alloc: Global, v: &Value, at: &Spot) -> Result<HeaderMatch, DocError> {
        at.only_fields(alloc, v, &[NAME, PRESENT_MATCH, STRING_MATCH])?;
        one_of(alloc, v, &[PRESENT_MATCH, STRING_MATCH], at)?;
        let name = required_written::<Tested<HeaderName>>(alloc, v, NAME, at)?;
        optional_written::<TrueAlone>(alloc, v, PRESENT_MATCH, at)?;
        let matcher = optional_written::<StringForm>(alloc, v, STRING_MATCH, at)?;
        Ok(HeaderMatch {
            name,
            test: test_of(matcher),
        })
    }
}

// That the value matches, or that the header is there.
fn test_of(matcher: Option<StringMatcher>) -> HeaderTest
    ensures { result ≡ unwrap_or (option_map HeaderTest.Words matcher) HeaderTest.Present }
{
    match matcher {
        Some(matcher) => HeaderTest::Words(matcher),
        None => HeaderTest::Present,
    }
}

// The name of a header, or of the pseudo-header of method, authority or path.
struct HeaderName;

impl TextTest for HeaderName {
    ghost passes = { form.is_header_name };

    ghost reason = { BadForm };

    #[tactic(auto, unfolding(envoy_types::specs::HeaderForms::is_header_name))]
    fn passes(text: &str) -> bool {
        is_lower_token(text)
            || text == METHOD_HEADER
            || text == AUTHORITY_HEADER
            || text == PATH_HEADER
    }

    fn reason() -> Reason {
        Reason::BadForm
    }
}

/// A token in lower case (RFC 9110, section 5.6.2; RFC 9113, section 8.2.1): BadForm for another text.
pub struct LowerToken;

impl TextTest for LowerToken {
    ghost passes = { form.is_lower_token };

    ghost reason = { BadForm };

    fn passes(text: &str) -> bool {
        is_lower_token(text)
    }

    fn reason() -> Reason {
        Reason::BadForm
    }
}

#[tactic(auto, unfolding(envoy_types::specs::HeaderForms::is_lower_token))]
fn is_lower_token(text: &str) -> bool
    ensures { result ≡ form.is_lower_token text.now }
{
    is_token(text) && none_is_upper(text.as_bytes())
}

fn none_is_upper(bytes: &[u8]) -> bool
    ensures { result ≡ list_all (λ c. not (is_upper c)) bytes.now }
{
    bytes.iter().all(|c| !matches!(*c, b'A'..=b'Z'))
}
