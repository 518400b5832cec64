// The inequalities that were met.
use model::rows::Row;
use sides::setting::Setting;

// The first rows of a question, once they hold the inequalities that were met, under the setting of
// the question. Its methods mark them and look for refutations among the marked ones.
#[derive(Clone, Copy)]
pub(crate) struct MetRows<'a> {
    pub(crate) setting: &'a Setting<'a>,
    pub(crate) rows: &'a [Row],
}
