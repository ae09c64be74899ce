// Policies of a filter in byte order of their names.
ghost use Rattle.std.specs.Prelude.{◌≡◌, IfOk};
ghost use Rattle.mesh_policy.specs.Lists as lists;
ghost use Rattle.authz_gen.specs.Policies.{name_before};

use envoy_types::RbacPolicy;
use mesh_text::{List, Memory};

// By a stable sort, which leaves policies of one name as they stood.
pub fn in_order(policies: List<RbacPolicy>) -> Result<List<RbacPolicy>, Memory>
    ensures { IfOk result (λ ps. ps ≡ lists.in_order name_before policies) }
{
    let mut found = policies.into_vec();
    found.sort_by(|a, b| a.name.cmp(&b.name))?;
    Ok(List::from_vec(found))
}
