// A walk over the either-ors of a left state under a name: the derivatives whose label covers the
// name in order, and for each the subsets of the pairs, rising.
ghost use Rattle.std.specs.Prelude.{◌≡◌, ◌≤◌, length};

use crate::covers::Covers;
use crate::either::{EitherOr, either_or};
use crate::pairs::{Pair, Pairs};
use crate::setting::Setting;
use model::machine::Derivative;

// The derivatives that are left, and the next subset for the first of them.
#[derive(Drop)]
pub struct EitherOrs<'a> {
    covers: &'a Covers,
    t: usize,
    pairs: &'a [Pair],
    derivatives: &'a [Derivative],
    subset: usize,
    ghost few: { length pairs.now ≤ 8 },
}

impl Iterator for EitherOrs<'_> {
    ghost use Rattle.std.specs.Iterator.{YieldsFirst, item_count};
    ghost use Rattle.sides.specs.Left.{left_of};

    type Item = EitherOr;

    ghost next_gives = { YieldsFirst left_of };

    ghost remaining = { item_count left_of };

    fn next(&mut self) -> Option<EitherOr> {
        while let Some((derivative, later)) = self.derivatives.split_first() {
            if self.covers.get(derivative.0, self.t) && self.subset < 1 << self.pairs.len() {
                let sides = either_or(*derivative, self.pairs, self.subset);
                self.subset += 1;
                return Some(sides);
            }
            self.derivatives = later;
            self.subset = 0;
        }
        None
    }
}

impl Setting<'_> {
    ghost use Rattle.model.specs.Machine.{states_of, derivatives_at};
    ghost use Rattle.sides.specs.View.{covers_of};
    ghost use Rattle.sides.specs.Ors.{ors};
    ghost use Rattle.sides.specs.Left.{left_of};

    // The either-ors of the state q under the name t, with these pairs on the right.
    pub fn either_ors<'a>(&'a self, t: usize, q: usize, pairs: &'a Pairs) -> EitherOrs<'a>
        ensures { left_of result ≡ ors (covers_of self.now.covers.now) t pairs.now.items (derivatives_at (states_of self.now.machine.now) q) 0 }
    {
        EitherOrs {
            covers: self.covers,
            t,
            pairs: pairs.as_slice(),
            derivatives: self.machine.derivatives(q),
            subset: 0,
        }
    }
}
