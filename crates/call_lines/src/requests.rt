// A request that stands in a line.
use crate::call::{items_of, text_in, text_of};
use crate::stop::Stop;
use mesh_policy::{Header, Request};
use mesh_text::{List, Text};
use serde_json::Value;
use std::alloc::Global;

/// `{"path": TEXT, "method": TEXT, "authority": TEXT, "headers": [[NAME, VALUE], ..]}`; a GET, and without a host or headers, where
/// these are absent.
pub fn request_of(alloc: Global, v: &Value) -> Result<Request, Stop> {
    Ok(Request {
        method: Text::of(alloc, method_in(v)?)?,
        path: Text::of(alloc, text_in(v, "path")?)?,
        authority: authority_in(alloc, v)?,
        headers: headers_in(alloc, v)?,
    })
}

fn method_in(v: &Value) -> Result<&str, Stop> {
    match v.get("method") {
        None => Ok("GET"),
        Some(method) => text_of(method),
    }
}

fn authority_in(alloc: Global, v: &Value) -> Result<Option<Text>, Stop> {
    match v.get("authority") {
        None => Ok(None),
        Some(host) => Ok(Some(Text::of(alloc, text_of(host)?)?)),
    }
}

fn headers_in(alloc: Global, v: &Value) -> Result<List<Header>, Stop> {
    let mut headers = List::new(alloc);
    let Some(listed) = v.get("headers") else {
        return Ok(headers);
    };
    for pair in items_of(listed)? {
        headers.push(header_of(alloc, pair)?)?;
    }
    Ok(headers)
}

fn header_of(alloc: Global, pair: &Value) -> Result<Header, Stop> {
    let [name, value] = items_of(pair)? else {
        return Err(Stop::Arguments);
    };
    Ok(Header {
        name: Text::of(alloc, text_of(name)?)?,
        value: Text::of(alloc, text_of(value)?)?,
    })
}
