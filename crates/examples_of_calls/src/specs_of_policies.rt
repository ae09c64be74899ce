// Policies read from a `spec` at the place `$/spec`, and labels at the whole.
use crate::shown::push_labels;
use crate::{authorization, peers, requests};
use call_lines::{Call, Stop, refused};
use mesh_doc::{DocError, Place, Step};
use mesh_policy::{AuthorizationPolicy, RequestAuthentication};
use mesh_text::{List, Text};
use policy_json::{read_authorization, read_labels, read_peer, read_request};
use serde_json::Value;
use std::alloc::Global;

pub fn answer(alloc: Global, call: &Call) -> Result<Option<String>, Stop> {
    match call.name {
        "read_labels" => Ok(Some(labels(alloc, call.value(0)?)?)),
        "read_authorization" => Ok(Some(authorization(alloc, call.arguments.first())?)),
        "read_peer" => Ok(Some(peer(alloc, call.arguments.first())?)),
        "read_request" => Ok(Some(request(alloc, call.arguments.first())?)),
        _ => Ok(None),
    }
}

fn labels(alloc: Global, v: &Value) -> Result<String, Stop> {
    let whole: Place = List::new(alloc);
    match read_labels(alloc, v, &whole) {
        Ok(labels) => {
            let mut out = String::new(alloc);
            push_labels(&mut out, &labels)?;
            Ok(out)
        }
        Err(error) => refused(alloc, error),
    }
}

/// The place `$/spec`.
fn spec_place(alloc: Global) -> Result<Place, Stop> {
    let mut place = List::new(alloc);
    place.push(Step::Key(Text::of(alloc, "spec")?))?;
    Ok(place)
}

/// The policy `foo/m` of a `spec`.
pub fn authorization_of(
    alloc: Global,
    spec: Option<&Value>,
) -> Result<Result<AuthorizationPolicy, DocError>, Stop> {
    let place = spec_place(alloc)?;
    let (name, namespace) = (Text::of(alloc, "m")?, Text::of(alloc, "foo")?);
    Ok(read_authorization(alloc, name, namespace, spec, &place))
}

fn authorization(alloc: Global, spec: Option<&Value>) -> Result<String, Stop> {
    match authorization_of(alloc, spec)? {
        Ok(policy) => authorization::shown(alloc, &policy),
        Err(error) => refused(alloc, error),
    }
}

// The policy is of the second 2024-05-01T10:00:00Z.
fn peer(alloc: Global, spec: Option<&Value>) -> Result<String, Stop> {
    let place = spec_place(alloc)?;
    let (name, namespace) = (Text::of(alloc, "m")?, Text::of(alloc, "foo")?);
    let age = Some(Text::of(alloc, "2024-05-01T10:00:00Z")?);
    match read_peer(alloc, name, namespace, age, spec, &place) {
        Ok(policy) => peers::shown(alloc, &policy),
        Err(error) => refused(alloc, error),
    }
}

/// The policy `foo/m` of a `spec`.
pub fn request_of(
    alloc: Global,
    spec: Option<&Value>,
) -> Result<Result<RequestAuthentication, DocError>, Stop> {
    let place = spec_place(alloc)?;
    let (name, namespace) = (Text::of(alloc, "m")?, Text::of(alloc, "foo")?);
    Ok(read_request(alloc, name, namespace, spec, &place))
}

fn request(alloc: Global, spec: Option<&Value>) -> Result<String, Stop> {
    match request_of(alloc, spec)? {
        Ok(policy) => requests::shown(alloc, &policy),
        Err(error) => refused(alloc, error),
    }
}
