// Things that two texts name, in the order of their texts.
ghost use Rattle.std.specs.Prelude.{◌≡◌, ℕ, List, ◌==◌};
ghost use Rattle.std.proofs.Common.{rules};
ghost use Rattle.std.specs.Cmp.{partial_order_from_own_ties};
ghost use Rattle.std.specs.Cmp.Lexicographic.{pointwise, slice_cmp};
ghost use Rattle.std.specs.Cmp.Rules.{comparing};
ghost use Rattle.std.specs.Ordering.{nat_cmp, on, then_cmp, eq_of_both, as_partial_cmp};

use std::cmp::Ordering;
use std::marker::Model;

/// A thing that two texts name: the key and value of a label, the namespace and name of a policy.
pub(crate) trait Paired {
    ghost pair: { Self → List ℕ × List ℕ };

    fn first(&self) -> &str
        ensures { result.now ≡ (pair self.now).0 };

    fn second(&self) -> &str
        ensures { result.now ≡ (pair self.now).1 };
}

/// A thing in the order of its two texts, byte by byte. Contracts see the thing.
#[derive(Drop)]
pub(crate) struct ByPair<'a, T> {
    pub(crate) item: &'a T,
}

impl<'a, T> Model for ByPair<'a, T> {
    ghost Value = { T };

    ghost coded = { T.code };

    ghost view = { λ p. p.item.now };
}

impl<'a, T: Paired> PartialEq for ByPair<'a, T> {
    ghost eq = { eq_of_both (on (λ p. (T.pair p).0) (pointwise ◌==◌)) (on (λ p. (T.pair p).1) (pointwise ◌==◌)) };

    ghost laws = { Prim.search (comparing, rules) };

    fn eq(&self, other: &ByPair<'a, T>) -> bool {
        self.item.first() == other.item.first() && self.item.second() == other.item.second()
    }
}

impl<'a, T: Paired> Eq for ByPair<'a, T> {
    ghost laws = { Prim.search (comparing, rules) };
}

impl<'a, T: Paired> PartialOrd for ByPair<'a, T> {
    ghost partial_cmp = { as_partial_cmp (then_cmp (on (λ p. (T.pair p).0) (slice_cmp nat_cmp)) (on (λ p. (T.pair p).1) (slice_cmp nat_cmp))) };

    ghost laws = { partial_order_from_own_ties (Prim.search (comparing, rules)) (Prim.search (comparing, rules)) };

    fn partial_cmp(&self, other: &ByPair<'a, T>) -> Option<Ordering> {
        Some(self.cmp(other))
    }
}

impl<'a, T: Paired> Ord for ByPair<'a, T> {
    ghost cmp = { then_cmp (on (λ p. (T.pair p).0) (slice_cmp nat_cmp)) (on (λ p. (T.pair p).1) (slice_cmp nat_cmp)) };

    ghost total = { Prim.search (comparing, rules) };

    ghost matches_partial_cmp = { Prim.search (comparing, rules) };

    ghost matches_eq = { Prim.search (comparing, rules) };

    fn cmp(&self, other: &ByPair<'a, T>) -> Ordering {
        self.item
            .first()
            .cmp(other.item.first())
            .then(self.item.second().cmp(other.item.second()))
    }
}
