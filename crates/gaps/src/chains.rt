//! Chains of rows by a hash.
ghost use Rattle.std.specs.Prelude.{◌≡◌, ◌<◌};
ghost use Rattle.gaps.specs.Chains.{slot_of};

use crate::grounds::{CHAINS, Grounds, ROOM};
use ledger::table::Ledger;
use model::rows::Row;

/// One more than the greatest number of 64 bits.
const WORD: u128 = 1 << 64;

/// What the upper word of a set is multiplied by.
const UPPER: usize = 31;

/// What the left state is multiplied by.
const LEFT: usize = 1099511628211;

/// What spreads the mixed words over a word's upper bits: 2 to the 64 by the golden ratio.
const SPREAD: usize = 11400714819323198485;

/// The least number of a word's upper eight bits.
const UPPER_BITS: usize = 1 << 56;

/// The chain that a row is in.
pub(crate) fn slot(row: &Row) -> usize
    ensures value { result ≡ slot_of row.now }
    ensures below { result < CHAINS }
{
    let low = (row.right.bits % WORD) as usize;
    let high = (row.right.bits / WORD) as usize;
    let set = low.wrapping_add(high.wrapping_mul(UPPER));
    let mixed = set.wrapping_add(row.left.wrapping_mul(LEFT));
    mixed.wrapping_mul(SPREAD) / UPPER_BITS % CHAINS
}

impl Grounds<'_> {
    /// The grounds of these rows and settled pairs.
    #[tactic(auto, using(crate::proofs::Linked::heads_more, crate::proofs::Linked::links_more))]
    pub fn new<'a>(rows: &'a [Row], ledger: &'a Ledger, rules: usize) -> Grounds<'a>
        ensures rows { result.rows.now ≡ rows.now }
        ensures ledger { result.ledger.now ≡ ledger.now }
        ensures rules { result.rules ≡ rules }
    {
        let mut heads = [None; CHAINS];
        let mut links = [None; ROOM];
        if rows.len() <= ROOM {
            for (i, row) in rows.iter().enumerate() {
                let slot = slot(row);
                links[i] = heads[slot];
                heads[slot] = Some(i as u16);
            }
        }
        Grounds {
            rows,
            ledger,
            rules,
            heads,
            links,
        }
    }
}
