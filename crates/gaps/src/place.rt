//! Places among the either-ors of a row.

/// An either-or of a row: that of a name, of a derivative of the left by its number, and of a subset
/// of the pairs on the right, one bit for each.
#[derive(Clone, Copy)]
pub struct Place {
    pub name: usize,
    pub derivative: usize,
    pub subset: usize,
}
