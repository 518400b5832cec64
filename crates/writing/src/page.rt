//! A sheet as it is given for writing.
use model::rows::{Item, Row};
use records::sheet::Sheet;

/// A sheet with its rows and items: the first of the ones or the others are its records.
#[derive(Clone, Copy)]
pub(crate) struct Page<'a> {
    pub(crate) sheet: Sheet,
    pub(crate) rows: &'a [Row],
    pub(crate) items: &'a [Item],
}
