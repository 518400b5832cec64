//! Membership: whether a state has the hedge that items spell. For each item in order the set of all
//! states that have the hedge beginning there is put into a table, so shared items cost nothing more.
#![tactic(auto)]

ghost use Rattle.std.specs.Prelude.{◌≡◌, ◌+◌, ◌<◌, ◌≤◌, length, take, if◌then◌else◌, Some, None, nat_lt, slice_index, slice_index_or};
ghost use Rattle.sides.specs.View.{seen};
ghost use Rattle.meaning.specs.Tables.{nullable_set, takes, gather, state_sets, has_spelled};
ghost use Rattle.member.specs.Sets.{Gathered, bits_of, spelled_set};

use model::rows::Item;
use model::sets::StateSet;
use sides::setting::Setting;

/// The set of the states below `count` that pass a test.
fn gathered<P: Fn(usize) -> bool>(count: usize, passes: P) -> StateSet
    requires { P.IsAlwaysCallable passes }
    ensures { Gathered (P.post passes) count result.bits }
{
    let mut set = StateSet::empty();
    for q in 0..count {
        if passes(q) {
            set = set.with(q);
        }
    }
    set
}

/// Whether some derivative of the state q has a label that covers t, a content in `inside` and a
/// rest in `following`.
fn takes_item(
    setting: &Setting<'_>,
    t: usize,
    inside: StateSet,
    following: StateSet,
    q: usize,
) -> bool
    ensures { result ≡ takes (seen setting.now) t inside.bits following.bits q }
{
    let derivatives = setting.machine.derivatives(q);
    derivatives.iter().any(|(label, content, rest)| {
        setting.covers.get(*label, t) && inside.contains(*content) && following.contains(*rest)
    })
}

/// The states that have an item t with a hedge inside that the states of `inside` have, before one
/// that the states of `following` have.
fn item_set(setting: &Setting<'_>, t: usize, inside: StateSet, following: StateSet) -> StateSet
    ensures { result.bits ≡ gather (length (seen setting.now).states) (takes (seen setting.now) t inside.bits following.bits) }
{
    gathered(setting.machine.count(), |q| {
        takes_item(setting, t, inside, following, q)
    })
}

/// The states that have the empty hedge.
#[tactic(auto, unfolding(meaning::specs::Tables::nullable_set))]
fn empty_set(setting: &Setting<'_>) -> StateSet
    ensures { result.bits ≡ nullable_set (seen setting.now) }
{
    gathered(setting.machine.count(), |q| setting.machine.is_nullable(q))
}

/// The set of the hedge number k; a number without one stands for the empty hedge, whose set is the
/// first.
fn set_of(sets: &[StateSet], k: usize) -> StateSet
    requires { 0 < length sets.now }
    ensures { result.bits ≡ slice_index_or (bits_of sets.now) k (slice_index (bits_of sets.now) 0) }
{
    sets.get(k).copied().unwrap_or(sets[0])
}

/// Puts the set of each hedge number into the table: 0 is the empty hedge, k begins at item k.
#[tactic(auto, using(crate::proofs::Filling::filling_start))]
fn fill(setting: &Setting<'_>, items: &[Item], sets: &mut [StateSet])
    requires { length items.now < length sets.old }
    ensures table { take (length items.now + 1) (bits_of sets.new) ≡ state_sets (seen setting.now) items.now }
{
    sets[0] = empty_set(setting);
    for (k, item) in items.iter().enumerate() {
        let known = &sets[..=k];
        let inside = set_of(known, item.child);
        let following = set_of(known, item.next);
        sets[k + 1] = item_set(setting, item.name, inside, following);
    }
}

/// The states that have the hedge that the items spell; `sets` is working memory, one set more than
/// there are items. Nothing where it is shorter.
#[tactic(auto, using(crate::proofs::Filling::filled_last), unfolding(crate::specs::Sets::spelled_set))]
pub fn hedge_states(
    setting: &Setting<'_>,
    items: &[Item],
    sets: &mut [StateSet],
) -> Option<StateSet>
    ensures { result ≡ (if nat_lt (length items.now) (length sets.old) then Some (spelled_set (seen setting.now) items.now) else None) }
{
    if items.len() >= sets.len() {
        return None;
    }
    fill(setting, items, sets);
    Some(sets[items.len()])
}

/// Whether the state q has the hedge that the items spell; `sets` is working memory, one set more
/// than there are items. Nothing where it is shorter.
#[tactic(auto, unfolding(meaning::specs::Tables::has_spelled, crate::specs::Sets::spelled_set))]
pub fn has_hedge(
    setting: &Setting<'_>,
    items: &[Item],
    sets: &mut [StateSet],
    q: usize,
) -> Option<bool>
    ensures { result ≡ (if nat_lt (length items.now) (length sets.old) then Some (has_spelled (seen setting.now) items.now q) else None) }
{
    hedge_states(setting, items, sets).map(|set| set.contains(q))
}
