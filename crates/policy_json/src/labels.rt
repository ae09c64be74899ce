// Labels, and the selector of a policy, which asks for some.
ghost use Rattle.std.specs.Prelude.{IfOk};
ghost use Rattle.serde_json.specs.View.{view};
ghost use Rattle.mesh_doc.specs.Faults.{Reads};
ghost use Rattle.mesh_policy.specs.AcceptedLists.{AcceptedLabels};
ghost use Rattle.policy_json.specs.Labels.{label_faults, label_in, labels_faults, labels_in, selector_faults, selector_in};

use mesh_doc::{AnyText, DocError, Entry, Form, Place, Spot, members, optional};
use mesh_policy::Label;
use mesh_text::{List, Text};
use serde_json::Value;
use std::alloc::Global;

pub(crate) const SELECTOR: &str = "selector";

const MATCH_LABELS: &str = "matchLabels";

struct LabelEntry;

impl Entry for LabelEntry {
    type Out = Label;

    ghost faults = { label_faults };

    ghost value = { label_in };

    #[tactic(auto, unfolding(crate::specs::Labels::label_faults, crate::specs::Labels::label_in))]
    fn read(alloc: Global, key: &str, v: &Value, at: &Spot) -> Result<Label, DocError> {
        let value = AnyText::read(alloc, v, at)?;
        Ok(Label {
            key: Text::of(alloc, key)?,
            value,
        })
    }
}

/// The labels that an object of texts gives (Kubernetes, "Labels and Selectors"), in byte order of their keys, each
/// key once. WrongType at `place` where `v` is no object, and else WrongType at the first key whose value is no text;
/// a `null` is none.
pub fn read_labels(alloc: Global, v: &Value, place: &Place) -> Result<List<Label>, DocError>
    ensures reads { Reads result (labels_faults (view v.now) place.now) (labels_in (view v.now)) }
    ensures accepted { IfOk result AcceptedLabels }
{
    Labels::read(alloc, v, &Spot::of(place))
}

/// The form of `read_labels`.
pub struct Labels;

impl Form for Labels {
    type Out = List<Label>;

    ghost faults = { labels_faults };

    ghost value = { labels_in };

    #[tactic(auto, unfolding(crate::specs::Labels::labels_faults, crate::specs::Labels::labels_in))]
    fn read(alloc: Global, v: &Value, at: &Spot) -> Result<List<Label>, DocError> {
        members::<LabelEntry>(alloc, v, at)
    }
}

/// The selector of a policy (Istio reference, WorkloadSelector): the labels that a Pod has to have.
pub(crate) struct Selector;

impl Form for Selector {
    type Out = List<Label>;

    ghost faults = { selector_faults };

    ghost value = { selector_in };

    #[tactic(auto, unfolding(crate::specs::Labels::selector_faults, crate::specs::Labels::selector_in))]
    fn read(alloc: Global, v: &Value, at: &Spot) -> Result<List<Label>, DocError> {
        at.only_fields(alloc, v, &[MATCH_LABELS])?;
        let labels = optional::<Labels>(alloc, v, MATCH_LABELS, at)?;
        Ok(labels.unwrap_or(List::new(alloc)))
    }
}
