//! The name relation that a word names.
ghost use Rattle.std.specs.Prelude.{ℕ, Bool, List};
ghost use Rattle.model.specs.declared.names.Name.{Name as NameType};
ghost use Rattle.model.specs.Relation.{exact, heads};
ghost use Rattle.compare.specs.Named.{named_covers, named_lawful};

use model::names::Name;
use model::relation::{Exact, Heads, Relation};
use std::fmt;
use std::str::FromStr;

/// One of the two relations.
#[derive(Clone, Copy)]
pub enum Named {
    Exact,
    Heads,
}

/// A word that names no relation.
#[derive(Clone, Copy)]
pub struct Unnamed {}

impl FromStr for Named {
    type Err = Unnamed;

    fn from_str(word: &str) -> Result<Named, Unnamed> {
        match word {
            "exact" => Ok(Named::Exact),
            "heads" => Ok(Named::Heads),
            _ => Err(Unnamed {}),
        }
    }
}

impl fmt::Display for Named {
    fn fmt<W: fmt::Write>(&self, f: &mut fmt::Formatter<W>) -> fmt::Result {
        f.write_str(match self {
            Named::Exact => "exact",
            Named::Heads => "heads",
        })
    }
}

/// It covers names as the relation that it names.
impl Relation for Named {
    ghost covered = { named_covers };

    ghost lawful = { named_lawful };

    fn covers(&self, names: &[Name], h: usize, t: usize) -> bool {
        match self {
            Named::Exact => Exact {}.covers(names, h, t),
            Named::Heads => Heads {}.covers(names, h, t),
        }
    }
}
