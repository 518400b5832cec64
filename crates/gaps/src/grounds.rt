//! What the sides of a sheet's either-ors may be shown by.
ghost use Rattle.gaps.specs.Chains.{Headed, Linked};

use ledger::table::Ledger;
use model::rows::Row;

/// How many chains there are.
pub(crate) const CHAINS: usize = 256;

/// How many rows the chains have room for.
pub(crate) const ROOM: usize = 512;

/// The rows of a sheet, in chains by a hash, and the settled pairs. A head is the last row of its
/// chain, and a row's link is the row before it. The chains lie in arrays, and not in a `HashSet`,
/// since no memory is reserved while a sheet is judged; a row is named in two bytes, so that they are
/// quickly made.
#[derive(Drop)]
pub struct Grounds<'a> {
    pub rows: &'a [Row],
    pub ledger: &'a Ledger,
    pub rules: usize,
    pub(crate) heads: [Option<u16>; CHAINS],
    pub(crate) links: [Option<u16>; ROOM],
    ghost headed: { Headed rows.now heads },
    ghost linked: { Linked rows.now links },
}
