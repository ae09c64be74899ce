// Where a request shows a token.
ghost use Rattle.std.specs.Prelude.{◌≡◌};
ghost use Rattle.std.specs.Option.{option_copied};
ghost use Rattle.mesh_policy.specs.Token as token;

use crate::path::before_fragment;
use crate::{Header, Request, TokenPlace};
use mesh_text::eq_fold;

/// The token that a request shows at a place, raw (Istio reference, RequestAuthentication, JWTRule; RFC 6750,
/// section 2). None where there is none, or it is empty. It takes no memory.
pub fn find_token<'a>(place: &TokenPlace, request: &'a Request) -> Option<&'a str>
    ensures { option_copied result ≡ token.token_at place.now request.now }
{
    match place {
        TokenPlace::Header { name, prefix } => {
            not_empty(behind(prefix, value_of(name, &request.headers)))
        }
        TokenPlace::Param(name) => not_empty(parameter(name, query_of(&request.path))),
    }
}

fn not_empty<'a>(found: Option<&'a str>) -> Option<&'a str>
    ensures { option_copied result ≡ token.not_empty (option_copied found.entry) }
{
    match found {
        None => None,
        Some(token) => {
            if token.is_empty() {
                return None;
            }
            Some(token)
        }
    }
}

fn value_of<'a>(name: &str, headers: &'a [Header]) -> Option<&'a str>
    ensures { option_copied result ≡ token.value_of name.now headers.now }
{
    for header in headers {
        if eq_fold(&header.name, name) {
            return Some(header.value.as_str());
        }
    }
    None
}

fn behind<'a>(prefix: &str, value: Option<&'a str>) -> Option<&'a str>
    ensures { option_copied result ≡ token.behind prefix.now (option_copied value.entry) }
{
    match value {
        None => None,
        Some(value) => value.strip_prefix(prefix),
    }
}

// the empty text where there is none
fn query_of(path: &str) -> &str
    ensures { result.now ≡ token.query_of path.now }
{
    after_mark(before_fragment(path))
}

fn after_mark(path: &str) -> &str
    ensures { result.now ≡ token.after_mark path.now }
{
    match path.split_once('?') {
        None => "",
        Some((_, query)) => query,
    }
}

fn parameter<'a>(name: &str, query: &'a str) -> Option<&'a str>
    ensures { option_copied result ≡ token.parameter name.now query.now }
{
    match query.split('&').find(|piece| is_named(name, piece)) {
        None => None,
        Some(piece) => Some(value_in(piece)),
    }
}

fn is_named(name: &str, piece: &str) -> bool
    ensures { result ≡ token.is_named name.now piece.now }
{
    match piece.split_once('=') {
        None => false,
        Some((front, _)) => front == name,
    }
}

fn value_in(piece: &str) -> &str
    ensures { result.now ≡ token.value_in piece.now }
{
    match piece.split_once('=') {
        None => "",
        Some((_, value)) => value,
    }
}
