// String forms, paths and path templates.
use call_lines::{Call, Stop, none, quoted, truth};
use mesh_policy::{Pattern, Template, path_of};
use mesh_text::Text;
use std::alloc::Global;

pub fn answer(alloc: Global, call: &Call) -> Result<Option<String>, Stop> {
    match call.name {
        "path_of" => quoted(alloc, Some(path_of(call.text(0)?))),
        "Pattern::parse" => form(alloc, &pattern(alloc, call)?),
        "Pattern::holds" => truth(alloc, pattern(alloc, call)?.holds(call.text(1)?)),
        "Pattern::holds_folded" => truth(alloc, pattern(alloc, call)?.holds_folded(call.text(1)?)),
        "Template::is_template" => truth(alloc, Template::is_template(call.text(0)?)),
        "Template::parse" => uri(alloc, Template::parse(alloc, call.text(0)?)?),
        "Template::from_uri" => uri(alloc, Template::from_uri(alloc, call.text(0)?)?),
        "Template::copy" => copied(alloc, Template::from_uri(alloc, call.text(0)?)?),
        "Template::matches" => matched(alloc, call),
        _ => Ok(None),
    }
}

// A form is made of a text that is not empty.
fn pattern(alloc: Global, call: &Call) -> Result<Pattern, Stop> {
    let text = call.text(0)?;
    if text.is_empty() {
        return Err(Stop::Arguments);
    }
    Ok(Pattern::parse(alloc, text)?)
}

fn form(alloc: Global, pattern: &Pattern) -> Result<Option<String>, Stop> {
    match pattern {
        Pattern::Exact(text) => named(alloc, "exact", text),
        Pattern::Prefix(text) => named(alloc, "prefix", text),
        Pattern::Suffix(text) => named(alloc, "suffix", text),
        Pattern::Present => Ok(Some(format!(in alloc; "present")?)),
    }
}

fn named(alloc: Global, name: &str, text: &Text) -> Result<Option<String>, Stop> {
    Ok(Some(format!(in alloc; "{name} \"{text}\"")?))
}

fn uri(alloc: Global, template: Option<Template>) -> Result<Option<String>, Stop> {
    match template {
        None => none(alloc),
        Some(template) => quoted(alloc, Some(template.to_uri(alloc)?.as_str())),
    }
}

// The copy's own URI form, and whether it is equal.
fn copied(alloc: Global, template: Option<Template>) -> Result<Option<String>, Stop> {
    let template = template.ok_or(Stop::Arguments)?;
    let copy = template.copy(alloc)?;
    let is_equal = copy == template;
    Ok(Some(format!(in alloc; "\"{}\", equal {is_equal}", copy.as_uri())?))
}

fn matched(alloc: Global, call: &Call) -> Result<Option<String>, Stop> {
    match Template::parse(alloc, call.text(0)?)? {
        None => none(alloc),
        Some(template) => truth(alloc, template.matches(call.text(1)?)),
    }
}
