// Tests of texts.
use call_lines::{Call, Stop, none, truth};
use mesh_text::{
    contains, contains_fold, decimal, eq_fold, is_dns_label, is_dns_subdomain, is_prefix,
    is_prefix_fold, is_suffix, is_suffix_fold, is_time, is_token,
};
use std::alloc::Global;

pub fn answer(alloc: Global, call: &Call) -> Result<Option<String>, Stop> {
    match call.name {
        "decimal" => number(alloc, call.text(0)?),
        "is_dns_label" => truth(alloc, is_dns_label(call.text(0)?)),
        "is_dns_subdomain" => truth(alloc, is_dns_subdomain(call.text(0)?)),
        "is_token" => truth(alloc, is_token(call.text(0)?)),
        "is_time" => truth(alloc, is_time(call.text(0)?)),
        _ => of_two(alloc, call),
    }
}

fn number(alloc: Global, text: &str) -> Result<Option<String>, Stop> {
    match decimal(text) {
        None => none(alloc),
        Some(number) => Ok(Some(format!(in alloc; "{number}")?)),
    }
}

// The tests of a part and a whole.
fn of_two(alloc: Global, call: &Call) -> Result<Option<String>, Stop> {
    match call.name {
        "is_prefix" => truth(alloc, is_prefix(call.text(0)?, call.text(1)?)),
        "is_suffix" => truth(alloc, is_suffix(call.text(0)?, call.text(1)?)),
        "contains" => truth(alloc, contains(call.text(0)?, call.text(1)?)),
        _ => folded(alloc, call),
    }
}

fn folded(alloc: Global, call: &Call) -> Result<Option<String>, Stop> {
    match call.name {
        "eq_fold" => truth(alloc, eq_fold(call.text(0)?, call.text(1)?)),
        "is_prefix_fold" => truth(alloc, is_prefix_fold(call.text(0)?, call.text(1)?)),
        "is_suffix_fold" => truth(alloc, is_suffix_fold(call.text(0)?, call.text(1)?)),
        "contains_fold" => truth(alloc, contains_fold(call.text(0)?, call.text(1)?)),
        _ => Ok(None),
    }
}
