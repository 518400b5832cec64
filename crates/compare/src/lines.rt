//! Records as lines. (Crate `writing` has the same lines as bytes in lent memory, where no formatter serves.)
use model::rows::{Item, Row};
use std::fmt;

/// A row as its line, `row=Q,S,..`
#[derive(Clone, Copy)]
pub struct RowLine(pub Row);

impl fmt::Display for RowLine {
    fn fmt<W: fmt::Write>(&self, f: &mut fmt::Formatter<W>) -> fmt::Result {
        let row = self.0;
        let left = row.left;
        write!(f, "row={left}")?;
        for q in 0..128usize {
            if row.right.contains(q) {
                write!(f, ",{q}")?;
            }
        }
        Ok(())
    }
}

/// An item as its line, `item=T,CHILD,NEXT`
#[derive(Clone, Copy)]
pub struct ItemLine(pub Item);

impl fmt::Display for ItemLine {
    fn fmt<W: fmt::Write>(&self, f: &mut fmt::Formatter<W>) -> fmt::Result {
        let Item { name, child, next } = self.0;
        write!(f, "item={name},{child},{next}")
    }
}
