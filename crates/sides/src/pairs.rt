// The distinct pairs of content and rest on the right of an inequality under a name.
ghost use Rattle.std.specs.Prelude.{◌≡◌, length, take, IfSome, nat_le};
ghost use Rattle.std.specs.Option.{is_some};
ghost use Rattle.std.specs.Result.{is_ok};
ghost use Rattle.theory.specs.Inequality.{pairs_of, all_pairs, pairs as distinct_pairs};
ghost use Rattle.sides.specs.Gathers.{Gathers};
ghost use Rattle.sides.specs.Steps.{pair_of};
ghost use Rattle.sides.specs.View.{seen, covers_of};

use crate::setting::Setting;
use arrayvec::{ArrayVec, CapacityError};
use book::find;
use model::machine::Derivative;
use model::sets::StateSet;

// A content with a rest.
pub type Pair = (usize, usize);

// An inequality that has more pairs than this under a name is wide.
pub const MOST_PAIRS: usize = 8;

// Distinct pairs, at most eight.
pub type Pairs = ArrayVec<Pair, MOST_PAIRS>;

impl Setting<'_> {
    // Enters the pair of a derivative if its label covers t.
    fn enter_pair<const N: usize>(
        &self,
        t: usize,
        derivative: Derivative,
        pairs: &mut ArrayVec<Pair, N>,
    ) -> Result<(), CapacityError<Pair>>
        ensures { Gathers N pairs.old.items pairs.new.items (pair_of (covers_of self.now.covers.now) t derivative) (is_ok result) }
    {
        let (label, content, rest) = derivative;
        if !self.covers.get(label, t) {
            return Ok(());
        }
        let pair = (content, rest);
        match find(pairs, &pair) {
            Some(_) => Ok(()),
            None => pairs.try_push(pair),
        }
    }

    // Enters the pairs of the derivatives of the state q whose label covers t, in order.
    fn enter_state<const N: usize>(
        &self,
        t: usize,
        q: usize,
        pairs: &mut ArrayVec<Pair, N>,
    ) -> Result<(), CapacityError<Pair>>
        ensures { Gathers N pairs.old.items pairs.new.items (pairs_of (seen self.now) t q) (is_ok result) }
    {
        for derivative in self.machine.derivatives(q) {
            self.enter_pair(t, *derivative, pairs)?;
        }
        Ok(())
    }

    // Enters the pairs of all states of the set, by rising state.
    fn enter_set<const N: usize>(
        &self,
        t: usize,
        set: &StateSet,
        pairs: &mut ArrayVec<Pair, N>,
    ) -> Result<(), CapacityError<Pair>>
        ensures { Gathers N pairs.old.items pairs.new.items (all_pairs (seen self.now) t set.now.bits) (is_ok result) }
    {
        for q in 0..self.machine.count() {
            if set.contains(q) {
                self.enter_state(t, q, pairs)?;
            }
        }
        Ok(())
    }

    // The distinct pairs of the set under the name t, or None where there are more than N.
    pub fn pairs<const N: usize>(&self, t: usize, set: &StateSet) -> Option<ArrayVec<Pair, N>>
        ensures few { is_some result ≡ nat_le (length (distinct_pairs (seen self.now) t set.now.bits)) N }
        ensures all { IfSome result (λ pairs. pairs.items ≡ distinct_pairs (seen self.now) t set.now.bits) }
    {
        let mut pairs = ArrayVec::new();
        self.enter_set(t, set, &mut pairs).ok()?;
        Some(pairs)
    }

    // The first N distinct pairs of the set under the name t; all of them, unless there are more.
    pub fn first_pairs<const N: usize>(&self, t: usize, set: &StateSet) -> ArrayVec<Pair, N>
        ensures { result.items ≡ take N (distinct_pairs (seen self.now) t set.now.bits) }
    {
        let mut pairs = ArrayVec::new();
        let _ = self.enter_set(t, set, &mut pairs);
        pairs
    }
}
