// Values in short.
use call_lines::Stop;
use mesh_net::{Cidr, IpAddr, write_ip};
use mesh_policy::Label;
use mesh_text::{List, Text};
use std::alloc::{AllocError, Global};

pub fn address(alloc: Global, ip: &IpAddr) -> Result<String, Stop> {
    let text = write_ip(alloc, ip)?;
    Ok(format!(in alloc; "{text}")?)
}

pub fn block(alloc: Global, block: &Cidr) -> Result<String, Stop> {
    let text = write_ip(alloc, &block.addr)?;
    Ok(format!(in alloc; "{}/{}", text, block.len)?)
}

/// The labels, each with a space behind it.
pub fn push_labels(out: &mut String, labels: &List<Label>) -> Result<(), AllocError> {
    for label in labels {
        write!(out, "{}={} ", label.key, label.value)?;
    }
    Ok(())
}

/// The name and the texts, as ` NAME=TEXT,TEXT`; nothing where there are none.
pub fn push_texts(out: &mut String, name: &str, texts: &List<Text>) -> Result<(), Stop> {
    for (i, text) in texts.as_slice().iter().enumerate() {
        push_mark(out, name, i)?;
        out.push_str(text.as_str())?;
    }
    Ok(())
}

pub fn push_ports(out: &mut String, name: &str, ports: &List<u16>) -> Result<(), Stop> {
    for (i, port) in ports.as_slice().iter().enumerate() {
        push_mark(out, name, i)?;
        write!(out, "{port}")?;
    }
    Ok(())
}

pub fn push_blocks(
    alloc: Global,
    out: &mut String,
    name: &str,
    blocks: &List<Cidr>,
) -> Result<(), Stop> {
    for (i, item) in blocks.as_slice().iter().enumerate() {
        push_mark(out, name, i)?;
        out.push_str(block(alloc, item)?.as_str())?;
    }
    Ok(())
}

// What stands before the entry of that number.
fn push_mark(out: &mut String, name: &str, number: usize) -> Result<(), AllocError> {
    if number == 0 {
        write!(out, " {name}=")
    } else {
        out.push_str(",")
    }
}
