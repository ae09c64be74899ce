// A PeerAuthentication in short: its name and age, its labels, its mode, and the modes of its ports.
use crate::shown::push_labels;
use call_lines::Stop;
use mesh_policy::{Mode, PeerAuthentication};
use std::alloc::Global;

pub fn shown(alloc: Global, peer: &PeerAuthentication) -> Result<String, Stop> {
    let mut out = String::new(alloc);
    write!(out, "{}/{}", peer.namespace, peer.name)?;
    if let Some(age) = &peer.age {
        write!(out, " {age}")?;
    }
    out.push_str(": ")?;
    push_labels(&mut out, &peer.labels)?;
    out.push_str(mode_word(peer.mode))?;
    for port in &peer.ports {
        write!(out, " {}:{}", port.port, mode_word(port.mode))?;
    }
    Ok(out)
}

fn mode_word(mode: Option<Mode>) -> &'static str {
    match mode {
        None => "-",
        Some(Mode::Disable) => "disable",
        Some(Mode::Permissive) => "permissive",
        Some(Mode::Strict) => "strict",
    }
}
