// What a tree asks of its leaves.
ghost use Rattle.std.specs.Prelude.{◌≡◌, Bool, true, IfOk};

use mesh_text::Memory;
use std::alloc::Global;
use std::hash::Hash;

/// A test at the end of a tree: of a scene, which stays as it is, and of a state, which changes on the way.
/// Equality and hash are by contents.
pub trait Leaf: Hash + Drop {
    type Scene;

    type State;

    ghost holds: { Self → Self.Scene → Self.State → Bool };

    /// Whether the test holds. Takes no memory.
    fn judge(&self, scene: &Self::Scene, state: &Self::State) -> bool
        ensures { result ≡ holds self.now scene.now state.now };

    /// An equal leaf of its own.
    fn copy(&self, alloc: Global) -> Result<Self, Memory>
        ensures { IfOk result (λ leaf. leaf ≡ self.now) };

    // Leaves that `==` finds equal are the same, so they judge alike.
    ghost same: { (a b : Self) → Self.eq a b ≡ true → a ≡ b };
}
