// Tokens of requests, and the clusters of authorizers.
use call_lines::{Call, Stop, number_in, quoted, request_of, text_in};
use mesh_policy::{Provider, TokenPlace, cluster_of, find_token};
use mesh_text::Text;
use serde_json::Value;
use std::alloc::Global;

pub fn answer(alloc: Global, call: &Call) -> Result<Option<String>, Stop> {
    match call.name {
        "find_token" => found(alloc, call),
        "cluster_of" => cluster(alloc, call.value(0)?),
        "Provider::copy" => copied(alloc, call.value(0)?),
        _ => Ok(None),
    }
}

fn found(alloc: Global, call: &Call) -> Result<Option<String>, Stop> {
    let place = place_of(alloc, call.value(0)?)?;
    let request = request_of(alloc, call.value(1)?)?;
    quoted(alloc, find_token(&place, &request))
}

// `{"header": NAME, "prefix": TEXT}` or `{"parameter": NAME}`.
fn place_of(alloc: Global, v: &Value) -> Result<TokenPlace, Stop> {
    if v.get("parameter").is_some() {
        return Ok(TokenPlace::Param(Text::of(alloc, text_in(v, "parameter")?)?));
    }
    Ok(TokenPlace::Header {
        name: Text::of(alloc, text_in(v, "header")?)?,
        prefix: Text::of(alloc, text_in(v, "prefix")?)?,
    })
}

// `{"name": NAME, "service": NAME, "port": NUMBER}`, an authorizer over HTTP.
fn provider_of(alloc: Global, v: &Value) -> Result<Provider, Stop> {
    let Ok(port) = u16::try_from(number_in(v, "port", 0)?) else {
        return Err(Stop::Arguments);
    };
    Ok(Provider {
        name: Text::of(alloc, text_in(v, "name")?)?,
        service: Text::of(alloc, text_in(v, "service")?)?,
        port,
        fail_open: false,
        http: true,
    })
}

fn cluster(alloc: Global, v: &Value) -> Result<Option<String>, Stop> {
    let provider = provider_of(alloc, v)?;
    quoted(alloc, Some(cluster_of(alloc, &provider)?.as_str()))
}

fn copied(alloc: Global, v: &Value) -> Result<Option<String>, Stop> {
    let provider = provider_of(alloc, v)?;
    let copy = provider.copy(alloc)?;
    let is_equal = copy == provider;
    let (name, service) = (copy.name.as_str(), copy.service.as_str());
    Ok(Some(format!(in alloc; "{name} {service}:{}, equal {is_equal}", copy.port)?))
}
