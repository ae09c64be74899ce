// Addresses and blocks of addresses.
use crate::shown::{address, block};
use call_lines::{Call, Stop, none, truth};
use mesh_net::{Cidr, IpAddr, parse_cidr, parse_ip};
use std::alloc::Global;

pub fn answer(alloc: Global, call: &Call) -> Result<Option<String>, Stop> {
    match call.name {
        "parse_ip" => shown(alloc, parse_ip(call.text(0)?)),
        "parse_cidr" => shown_block(alloc, parse_cidr(call.text(0)?)),
        "IpAddr::width" => width(alloc, call),
        "Cidr::new" => cut(alloc, call),
        "Cidr::contains" => holds(alloc, call),
        _ => Ok(None),
    }
}

fn shown(alloc: Global, ip: Option<IpAddr>) -> Result<Option<String>, Stop> {
    match ip {
        None => none(alloc),
        Some(ip) => Ok(Some(address(alloc, &ip)?)),
    }
}

fn shown_block(alloc: Global, found: Option<Cidr>) -> Result<Option<String>, Stop> {
    match found {
        None => none(alloc),
        Some(found) => Ok(Some(block(alloc, &found)?)),
    }
}

fn address_in(call: &Call, number: usize) -> Result<IpAddr, Stop> {
    parse_ip(call.text(number)?).ok_or(Stop::Arguments)
}

fn width(alloc: Global, call: &Call) -> Result<Option<String>, Stop> {
    Ok(Some(format!(in alloc; "{}", address_in(call, 0)?.width())?))
}

fn cut(alloc: Global, call: &Call) -> Result<Option<String>, Stop> {
    let Ok(len) = u16::try_from(call.number(1)?) else {
        return Err(Stop::Arguments);
    };
    shown_block(alloc, Cidr::new(address_in(call, 0)?, len))
}

fn holds(alloc: Global, call: &Call) -> Result<Option<String>, Stop> {
    let block = parse_cidr(call.text(0)?).ok_or(Stop::Arguments)?;
    truth(alloc, block.contains(&address_in(call, 1)?))
}
