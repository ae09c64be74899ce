// The parts of peers' names, and match values as trees.
ghost use Rattle.std.specs.Prelude.{IfOk};
ghost use Rattle.mesh_policy.specs.Pattern.{HasNoEmptyText};

use call_lines::{Call, Stop, none};
use leaf_json::{Form, tree_to_value};
use mesh_policy::Pattern;
use mesh_tree::Tree;
use peer_name::{PeerName, namespace_tree, principal_tree};
use std::alloc::Global;
use str_match::sni_tree;

/// The argument is a name, or a match value; the answer is where the parts of the name stand, or the tree as JSON.
pub fn answer(alloc: Global, call: &Call) -> Result<Option<String>, Stop> {
    match call.name {
        "PeerName::parse" => parts(alloc, call.text(0)?),
        "principal_tree" => shown(alloc, &principal_tree(alloc, &pattern(alloc, call)?)?),
        "namespace_tree" => shown(alloc, &namespace_tree(alloc, &pattern(alloc, call)?)?),
        "sni_tree" => shown(alloc, &sni_tree(alloc, &pattern(alloc, call)?)?),
        _ => Ok(None),
    }
}

fn parts(alloc: Global, name: &str) -> Result<Option<String>, Stop> {
    let Some(found) = PeerName::parse(name) else {
        return none(alloc);
    };
    let (trust, namespace, account) = (found.trust, found.namespace, found.account);
    Ok(Some(format!(in alloc;
        "trust domain {}..{}, namespace {}..{}, account {}..{}",
        trust.start, trust.end, namespace.start, namespace.end, account.start, account.end
    )?))
}

/// The match value that is the first argument.
pub fn pattern(alloc: Global, call: &Call) -> Result<Pattern, Stop>
    ensures { IfOk result HasNoEmptyText }
{
    let value = call.text(0)?;
    if value.is_empty() {
        return Err(Stop::Arguments);
    }
    Ok(Pattern::parse(alloc, value)?)
}

/// The tree as JSON.
pub fn shown<L: Form>(alloc: Global, tree: &Tree<L>) -> Result<Option<String>, Stop> {
    let value = tree_to_value(alloc, tree)?;
    Ok(Some(value.to_string(alloc)?))
}
