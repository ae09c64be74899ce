// A Pod whose labels and named ports are looked up.
ghost use Rattle.std.specs.Prelude.{◌≡◌, IfOk, find};
ghost use Rattle.std.specs.List.{list_any};
ghost use Rattle.std.specs.Option.{option_map};
ghost use Rattle.std.specs.Str.{bytes_eq};
ghost use Rattle.mesh_policy.specs.Applying.{has_labels, is_same_label};
ghost use Rattle.mesh_select.specs.Labels as look;

use crate::paired::{ByPair, Paired};
use mesh_policy::{Label, NamedPort, Pod};
use mesh_text::Memory;
use std::alloc::Global;
use std::collections::{BTreeMap, BTreeSet};
use std::marker::Model;

impl Paired for Label {
    ghost pair = { λ label. (label.key, label.value) };

    fn first(&self) -> &str {
        self.key.as_str()
    }

    fn second(&self) -> &str {
        self.value.as_str()
    }
}

/// A Pod whose labels and named ports are found without a walk over all of them. Contracts see the Pod.
#[derive(Drop)]
pub(crate) struct SelectedPod<'a> {
    pod: &'a Pod,
    labels: BTreeSet<ByPair<'a, Label>>,
    ports: BTreeMap<&'a str, u16>,
}

impl<'a> Model for SelectedPod<'a> {
    ghost use Rattle.mesh_policy.specs.declared.pod.Pod.{Pod};

    ghost Value = { Pod };

    ghost use Rattle.mesh_select.specs.Labels.{HasLabelsOf, HasPortsOf};

    ghost view = { λ s. s.pod.now };

    ghost invariant = { λ s. HasLabelsOf s.labels s.pod.now × HasPortsOf s.ports s.pod.now };
}

impl<'a> SelectedPod<'a> {
    pub(crate) fn of(alloc: Global, pod: &'a Pod) -> Result<SelectedPod<'a>, Memory>
        ensures { IfOk result (λ s. s ≡ pod.now) }
    {
        Ok(SelectedPod {
            pod,
            labels: in_order(alloc, &pod.labels)?,
            ports: by_name(alloc, &pod.ports)?,
        })
    }

    pub(crate) fn namespace(&self) -> &str
        ensures { result.now ≡ self.now.namespace }
    {
        self.pod.namespace.as_str()
    }

    /// Whether each label that is asked for is one of the Pod.
    pub(crate) fn has_labels(&self, labels: &'a [Label]) -> bool
        ensures { result ≡ has_labels self.now labels.now }
    {
        for label in labels {
            if !self.has(label) {
                return false;
            }
        }
        true
    }

    fn has(&self, wanted: &'a Label) -> bool
        ensures { result ≡ list_any (is_same_label wanted.now) self.now.labels }
    {
        self.labels.contains(&ByPair { item: wanted })
    }

    /// The container port of a name, and of two the first.
    pub(crate) fn port(&self, name: &'a str) -> Option<u16>
        ensures { result ≡ option_map (λ entry. entry.port) (find (λ entry. bytes_eq entry.name name.now) self.now.ports) }
    {
        self.ports.get(name).copied()
    }
}

fn in_order(alloc: Global, labels: &[Label]) -> Result<BTreeSet<ByPair<'_, Label>>, Memory>
    ensures { IfOk result (λ s. s.keys ≡ look.inserted labels.now) }
{
    let mut set = BTreeSet::new(alloc);
    for label in labels {
        set.insert(ByPair { item: label })?;
    }
    Ok(set)
}

// From the last port on, so that the first of a name stays.
fn by_name(alloc: Global, ports: &[NamedPort]) -> Result<BTreeMap<&str, u16>, Memory>
    ensures { IfOk result (λ m. look.HasPorts m ports.now) }
{
    let mut map = BTreeMap::new(alloc);
    let mut at = ports.len();
    while at > 0 {
        at -= 1;
        let entry = &ports[at];
        map.insert(entry.name.as_str(), entry.port)?;
    }
    Ok(map)
}
