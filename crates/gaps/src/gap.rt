//! The search for a gap of a row: an either-or neither of whose sides is shown.
ghost use Rattle.std.specs.Prelude.{◌≡◌, ◌^◌, ◌≤◌, false, is_some, if◌then◌else◌};
ghost use Rattle.sides.specs.View.{seen, covers_of};
ghost use Rattle.theory.specs.Inequality.{either_or as sides_of, wide};
ghost use Rattle.gaps.specs.Shows.{unshown, gap};
ghost use Rattle.gaps.specs.Grounds.{shown_on};
ghost use Rattle.gaps.specs.Gaps.{first_gap};

use crate::grounds::Grounds;
use crate::place::Place;
use model::machine::Derivative;
use model::rows::Row;
use sides::covers::Covers;
use sides::either::{content_side, either_or};
use sides::pairs::{Pair, Pairs};
use sides::setting::Setting;

/// How many subsets of that many pairs there are; none where the label does not cover t.
fn subsets(covers: &Covers, t: usize, label: usize, number: usize) -> usize
    requires { number ≤ 8 }
    ensures { result ≡ (if covers_of covers.now label t then 2 ^ number else 0) }
{
    if covers.get(label, t) { 1 << number } else { 0 }
}

/// Whether neither side of an either-or is shown.
fn is_unshown(grounds: &Grounds<'_>, derivative: Derivative, pairs: &[Pair], subset: usize) -> bool
    ensures { result ≡ unshown (shown_on grounds.now) (sides_of derivative pairs.now subset) }
{
    // the rest side is made only where the content side is not shown
    !grounds.shows(&content_side(derivative, pairs, subset))
        && !grounds.shows(&either_or(derivative, pairs, subset).rest)
}

/// The place of the first gap of the row: names rising, derivatives of the left in order, subsets
/// rising. Of a wide row only the first eight pairs under a name are looked at.
pub fn find_gap(setting: &Setting<'_>, grounds: &Grounds<'_>, row: &Row) -> Option<Place>
    ensures first { result ≡ first_gap (seen setting.now) (shown_on grounds.now) row.now }
    ensures exact { wide (seen setting.now) row.now ≡ false → is_some result ≡ gap (seen setting.now) (shown_on grounds.now) row.now }
{
    let derivatives = setting.machine.derivatives(row.left);
    'gap: {
        for name in 0..setting.covers.names() {
            if !setting.is_labelled(row.left, name) {
                continue;
            }
            let pairs: Pairs = setting.first_pairs(name, &row.right);
            for (i, derivative) in derivatives.iter().enumerate() {
                for subset in 0..subsets(setting.covers, name, derivative.0, pairs.len()) {
                    if is_unshown(grounds, *derivative, &pairs, subset) {
                        break 'gap Some(Place {
                            name,
                            derivative: i,
                            subset,
                        });
                    }
                }
            }
        }
        None
    }
}
