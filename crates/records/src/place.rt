//! What is allowed at a record's place.
ghost use Rattle.std.specs.Prelude.{◌≡◌};
ghost use Rattle.records.specs.Places.{element, item_fits};

use model::names::{Kind, Name};
use model::rows::Item;

/// Whether t is an element name. (Like a test of crate `tables`, by its own definition: each is a line.)
fn is_element(names: &[Name], t: usize) -> bool
    ensures { result ≡ element names.now t }
{
    names.get(t).is_some_and(|name| name.kind == Kind::Element)
}

/// Whether an item is allowed after `earlier` others: its name is a name, its child and its next
/// are earlier items or 0, and a simple name has no child.
pub fn item_fits(names: &[Name], earlier: usize, item: Item) -> bool
    ensures { result ≡ item_fits names.now earlier item }
{
    (item.name < names.len())
        & (item.child <= earlier)
        & (item.next <= earlier)
        & ((item.child == 0) | is_element(names, item.name))
}
