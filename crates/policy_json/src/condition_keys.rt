// The keys of conditions: names of attributes.
ghost use Rattle.std.specs.Prelude.{◌≡◌, IfOk, map};
ghost use Rattle.std.specs.List.{after_first, before_first, list_all, slice_split};
ghost use Rattle.policy_json.specs.ConditionKeys as keys;
ghost use Rattle.policy_json.specs.ConditionKeys.{key_faults, key_in};

use crate::texts::{is_bounded, lower};
use mesh_doc::{DocError, Form, Reason, Spot};
use mesh_policy::{BlockKey, TextKey};
use mesh_text::{List, Memory, Text, is_token};
use serde_json::Value;
use std::alloc::Global;

const SOURCE_IP: &str = "source.ip";

const REMOTE_IP: &str = "remote.ip";

const DESTINATION_IP: &str = "destination.ip";

pub const SOURCE_PRINCIPAL: &str = "source.principal";

pub const SOURCE_NAMESPACE: &str = "source.namespace";

pub const SNI: &str = "connection.sni";

pub const AUTH_PRINCIPAL: &str = "request.auth.principal";

pub const AUDIENCES: &str = "request.auth.audiences";

pub const PRESENTER: &str = "request.auth.presenter";

pub const DESTINATION_PORT: &str = "destination.port";

pub const HEADERS: &str = "request.headers";

pub const CLAIMS: &str = "request.auth.claims";

/// The key of a condition, by the form that its values have.
#[derive(Debug, Drop, PartialEq, Eq)]
pub enum ConditionKey {
    /// Texts.
    Words(TextKey),
    /// `request.auth.principal`: request principals.
    Principals,
    /// Address blocks.
    Blocks(BlockKey),
    /// `destination.port`: ports.
    Ports,
}

/// The name of an attribute (Istio reference, "Authorization Policy Conditions"): BadKey for every other text, and for
/// one of more than 1,024 bytes.
pub(crate) struct KeyName;

impl Form for KeyName {
    type Out = ConditionKey;

    ghost faults = { key_faults };

    ghost value = { key_in };

    #[tactic(auto, unfolding(crate::specs::ConditionKeys::key_faults, crate::specs::ConditionKeys::key_in, mesh_doc::specs::Kinds::text_faults, mesh_doc::specs::Kinds::text_in))]
    fn read(alloc: Global, v: &Value, at: &Spot) -> Result<ConditionKey, DocError> {
        let Value::String(text) = v else {
            return Err(at.refuse(alloc, Reason::WrongType));
        };
        match key_named(alloc, text.as_str())? {
            Some(key) => Ok(key),
            None => Err(at.refuse(alloc, Reason::BadKey)),
        }
    }
}

fn key_named(alloc: Global, text: &str) -> Result<Option<ConditionKey>, Memory>
    ensures { IfOk result (λ key. key ≡ keys.key_of text.now) }
{
    if !is_bounded(text) {
        return Ok(None);
    }
    known_key(alloc, text)
}

fn known_key(alloc: Global, text: &str) -> Result<Option<ConditionKey>, Memory>
    ensures { IfOk result (λ key. key ≡ keys.known_key_of text.now) }
{
    if text == AUTH_PRINCIPAL {
        return Ok(Some(ConditionKey::Principals));
    }
    if text == DESTINATION_PORT {
        return Ok(Some(ConditionKey::Ports));
    }
    if let Some(key) = block_key(text) {
        return Ok(Some(ConditionKey::Blocks(key)));
    }
    if let Some(key) = text_key(text) {
        return Ok(Some(ConditionKey::Words(key)));
    }
    match bracketed_key(alloc, text)? {
        Some(key) => Ok(Some(ConditionKey::Words(key))),
        None => Ok(None),
    }
}

fn block_key(text: &str) -> Option<BlockKey>
    ensures { result ≡ keys.block_key_of text.now }
{
    if text == SOURCE_IP {
        return Some(BlockKey::SourceIp);
    }
    if text == REMOTE_IP {
        return Some(BlockKey::RemoteIp);
    }
    if text == DESTINATION_IP {
        return Some(BlockKey::DestinationIp);
    }
    None
}

fn text_key(text: &str) -> Option<TextKey>
    ensures { result ≡ keys.text_key_of text.now }
{
    if text == SOURCE_PRINCIPAL {
        return Some(TextKey::SourcePrincipal);
    }
    if text == SOURCE_NAMESPACE {
        return Some(TextKey::SourceNamespace);
    }
    if text == SNI {
        return Some(TextKey::Sni);
    }
    if text == AUDIENCES {
        return Some(TextKey::Audiences);
    }
    if text == PRESENTER {
        return Some(TextKey::Presenter);
    }
    None
}

// The key of a header or a claim.
fn bracketed_key(alloc: Global, text: &str) -> Result<Option<TextKey>, Memory>
    ensures { IfOk result (λ key. key ≡ keys.bracketed_key_of text.now) }
{
    let front = before_bracket(text);
    let Some(names) = names_in(alloc, after_bracket(text))? else {
        return Ok(None);
    };
    if front == HEADERS {
        return header(alloc, &names);
    }
    if front == CLAIMS {
        return Ok(Some(TextKey::Claim(names)));
    }
    Ok(None)
}

fn header(alloc: Global, names: &[Text]) -> Result<Option<TextKey>, Memory>
    ensures { IfOk result (λ key. key ≡ keys.header_of names.now) }
{
    let [name] = names else {
        return Ok(None);
    };
    if !is_token(name) {
        return Ok(None);
    }
    Ok(Some(TextKey::Header(lower(alloc, name)?)))
}

fn before_bracket(text: &str) -> &str
    ensures { result.now ≡ before_first keys.is_open text.now }
{
    match text.split_once('[') {
        None => text,
        Some((front, _)) => front,
    }
}

// The empty text where there is no bracket.
fn after_bracket(text: &str) -> &str
    ensures { result.now ≡ after_first keys.is_open text.now }
{
    match text.split_once('[') {
        None => "",
        Some((_, rest)) => rest,
    }
}

fn names_in(alloc: Global, text: &str) -> Result<Option<List<Text>>, Memory>
    ensures { IfOk result (λ names. names ≡ keys.names_of text.now) }
{
    if !all_closed(text) {
        return Ok(None);
    }
    let mut names = List::new(alloc);
    for piece in pieces_of(alloc, text)?.as_slice() {
        names.push(Text::of(alloc, name_in(piece))?)?;
    }
    Ok(Some(names))
}

fn all_closed(text: &str) -> bool
    ensures { result ≡ list_all keys.is_closed (slice_split keys.is_open text.now) }
{
    text.split('[').all(|piece| is_closed(piece))
}

fn pieces_of(alloc: Global, text: &str) -> Result<Vec<&str>, Memory>
    ensures { IfOk result (λ pieces. map (λ x. x.now) pieces.items ≡ slice_split keys.is_open text.now) }
{
    Ok(text.split('[').collect(alloc)?)
}

fn is_closed(piece: &str) -> bool
    ensures { result ≡ keys.is_closed piece.now }
{
    let name = name_in(piece);
    !name.is_empty() && piece.len() == name.len() + 1
}

fn name_in(piece: &str) -> &str
    ensures { result.now ≡ keys.name_in piece.now }
{
    match piece.split_once(']') {
        None => piece,
        Some((name, _)) => name,
    }
}
