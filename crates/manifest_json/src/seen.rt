// The names that stood before, each once.
ghost use Rattle.std.specs.Prelude.{◌≡◌, [], not, IfOk, OnOk};
ghost use Rattle.std.specs.List.{list_any};
ghost use Rattle.indexmap.specs.IndexSet.{insert_key};

use indexmap::IndexSet;
use mesh_text::Memory;
use std::alloc::Global;
use std::hash::Hash;
use std::marker::Model;

/// The names that stood before, each once. Contracts see them as a list, in the order in which they came. A test takes
/// the same time however many there are.
#[derive(Drop)]
pub(crate) struct Seen<T: Eq + Hash> {
    names: IndexSet<T>,
}

impl<T: Eq + Hash> Model for Seen<T> {
    ghost use Rattle.std.specs.Prelude.{List};
    ghost use Rattle.std.specs.Coded.{coded_list};

    ghost Value = { List T };

    ghost coded = { coded_list T.code };

    ghost view = { λ s. s.names.keys };
}

impl<T: Eq + Hash + Drop> Seen<T> {
    pub(crate) fn new(alloc: Global) -> Seen<T>
        ensures { result ≡ [] }
    {
        Seen {
            names: IndexSet::new(alloc),
        }
    }

    /// Whether the name is new. It has been seen from now on.
    pub(crate) fn note(&mut self, name: T) -> Result<bool, Memory>
        ensures new { IfOk result (λ is_new. is_new ≡ not (list_any (T.eq name) self.old)) }
        ensures kept { OnOk result (self.new ≡ insert_key T.eq self.old name) }
    {
        let (_, is_new) = self.names.insert_full(name)?;
        Ok(is_new)
    }
}
