// The fields by which a policy names what it holds for; here they may name nothing.
ghost use Rattle.std.specs.Prelude.{◌≡◌};
ghost use Rattle.serde_json.specs.View.{view, items_view};
ghost use Rattle.mesh_doc.specs.Faults.{Reads};
ghost use Rattle.policy_json.specs.TargetRefs.{has_no_entry, no_target_faults, targets_faults};

use mesh_doc::{DocError, Form, Reason, Spot, optional};
use serde_json::Value;
use std::alloc::Global;

pub(crate) const TARGET_REFS: &str = "targetRefs";

pub(crate) const TARGET_REF: &str = "targetRef";

/// Reads the fields `targetRefs` and `targetRef` of the policy `v` at `at`, which name no target: TargetRefs at
/// the first with a value other than `null` and the empty list (Istio reference, PolicyTargetReference).
#[tactic(auto, unfolding(crate::specs::TargetRefs::targets_faults))]
pub(crate) fn no_targets(alloc: Global, v: &Value, at: &Spot) -> Result<(), DocError>
    ensures { Reads result (targets_faults (view v.now) at.now) tt }
{
    optional::<NoTarget>(alloc, v, TARGET_REFS, at)?;
    optional::<NoTarget>(alloc, v, TARGET_REF, at)?;
    Ok(())
}

struct NoTarget;

impl Form for NoTarget {
    type Out = ();

    ghost faults = { no_target_faults };

    ghost value = { λ _. tt };

    #[tactic(auto, unfolding(crate::specs::TargetRefs::no_target_faults))]
    fn read(alloc: Global, v: &Value, at: &Spot) -> Result<(), DocError> {
        match v {
            Value::Array(entries) if has_no_entry(entries.as_slice()) => Ok(()),
            _ => Err(at.refuse(alloc, Reason::TargetRefs)),
        }
    }
}

fn has_no_entry(entries: &[Value]) -> bool
    ensures { result ≡ has_no_entry (items_view entries.now) }
{
    entries.iter().next().is_none()
}
