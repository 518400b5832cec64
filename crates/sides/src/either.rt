// Either-ors: an inequality holds only if one of the two sides of each of its either-ors does.
ghost use Rattle.std.specs.Prelude.{◌≡◌, length};
ghost use Rattle.theory.specs.Inequality.{bit, contents, either_or as sides_of_subset};

use crate::pairs::Pair;
use model::machine::Derivative;
use model::rows::Row;
use model::sets::StateSet;

// The content side and the rest side of an either-or.
#[derive(Clone, Copy)]
pub struct EitherOr {
    pub content: Row,
    pub rest: Row,
}

// Whether the pair number i is in the subset.
fn chosen(subset: usize, i: usize) -> bool
    ensures { result ≡ bit subset i }
{
    i < 64 && (subset >> i) % 2 == 1
}

// The either-or of a derivative (h, c, r) of the left, the pairs on the right and a subset of them:
// the content side is c against the contents of the pairs in the subset, and the rest side is r
// against the rests of the others.
pub fn either_or(derivative: Derivative, pairs: &[Pair], subset: usize) -> EitherOr
    ensures content { result.content ≡ (sides_of_subset derivative pairs.now subset).content }
    ensures rest { result.rest ≡ (sides_of_subset derivative pairs.now subset).rest }
{
    let mut contents = StateSet::empty();
    let mut rests = StateSet::empty();
    for (i, pair) in pairs.iter().enumerate() {
        if chosen(subset, i) {
            contents = contents.with(pair.0);
        } else {
            rests = rests.with(pair.1);
        }
    }
    EitherOr {
        content: Row {
            left: derivative.1,
            right: contents,
        },
        rest: Row {
            left: derivative.2,
            right: rests,
        },
    }
}

// The contents of the pairs in the subset.
fn contents_of(pairs: &[Pair], subset: usize) -> StateSet
    ensures { result.bits ≡ contents pairs.now subset (length pairs.now) }
{
    let mut set = StateSet::empty();
    for (number, pair) in pairs.iter().enumerate() {
        if chosen(subset, number) {
            set = set.with(pair.0);
        }
    }
    set
}

// The content side alone, for the search for a gap: it needs the rest side only where this one is not
// shown, and making both at once took it nearly twice as long.
#[tactic(auto, unfolding(theory::specs::Inequality::either_or))]
pub fn content_side(derivative: Derivative, pairs: &[Pair], subset: usize) -> Row
    ensures { result ≡ (sides_of_subset derivative pairs.now subset).content }
{
    let (_, left, _) = derivative;
    Row {
        left,
        right: contents_of(pairs, subset),
    }
}
