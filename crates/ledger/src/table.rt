//! The table itself: 32 rows of 32 pairs.
ghost use Rattle.std.specs.Prelude.{◌≡◌, vec_len};

use model::verdict::Verdict;

/// At most so many rules.
pub(crate) const RULES: usize = 32;

/// How each pair of rules is settled: by a verdict, or not yet. The pair of the rules a and b stands at
/// place 32 a + b. (One list by number, and no map: a pair is settled without memory.)
#[derive(Drop)]
pub struct Ledger {
    pub pairs: Vec<Option<Verdict>>,
    ghost whole: { vec_len pairs ≡ 1024 },
}
