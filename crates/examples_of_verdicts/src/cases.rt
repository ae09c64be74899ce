// The cases that are judged.
use call_lines::{Stop, is_in, number_in, request_of, text_of, texts_of};
use mesh_net::{IpAddr, parse_ip};
use mesh_policy::{Case, Request, Tls};
use mesh_text::{List, Text};
use serde_json::Value;
use std::alloc::Global;

/// The case in short that `v` is: docs/EXAMPLES.md has its fields.
pub fn case_of(alloc: Global, v: &Value) -> Result<Case, Stop> {
    let Ok(port) = u16::try_from(number_in(v, "port", 0)?) else {
        return Err(Stop::Arguments);
    };
    let source = address_in(v, "source", IpAddr::V4(0x0a000001))?;
    Ok(Case {
        source,
        remote: address_in(v, "remote", source)?,
        destination: address_in(v, "destination", IpAddr::V4(0x0a000002))?,
        port,
        tls: tls_in(alloc, v)?,
        request: request_in(alloc, v)?,
        verdicts: List::new(alloc),
        answers: List::new(alloc),
    })
}

// The address in the field `name` of `v`, or `other` where it has none.
fn address_in(v: &Value, name: &str, other: IpAddr) -> Result<IpAddr, Stop> {
    match v.get(name) {
        None => Ok(other),
        Some(text) => parse_ip(text_of(text)?).ok_or(Stop::Arguments),
    }
}

fn tls_in(alloc: Global, v: &Value) -> Result<Option<Tls>, Stop> {
    if !is_in(v, "tls") {
        return Ok(None);
    }
    Ok(Some(Tls {
        peer: text_if(alloc, v, "peer")?,
        sni: text_if(alloc, v, "sni")?,
        alpn: texts_if(alloc, v, "alpn")?,
    }))
}

fn text_if(alloc: Global, v: &Value, name: &str) -> Result<Option<Text>, Stop> {
    match v.get(name) {
        None => Ok(None),
        Some(text) => Ok(Some(Text::of(alloc, text_of(text)?)?)),
    }
}

fn texts_if(alloc: Global, v: &Value, name: &str) -> Result<List<Text>, Stop> {
    match v.get(name) {
        None => Ok(List::new(alloc)),
        Some(list) => texts_of(alloc, list),
    }
}

fn request_in(alloc: Global, v: &Value) -> Result<Option<Request>, Stop> {
    if v.get("path").is_none() {
        return Ok(None);
    }
    Ok(Some(request_of(alloc, v)?))
}
