// Name relations: whether a name h covers a name t, so that h in an expression stands for t too.
ghost use Rattle.std.specs.Prelude.{◌≡◌, ℕ, Bool, List, slice_index_or};
ghost use Rattle.model.specs.declared.names.Name.{Name as NameType};
ghost use Rattle.model.specs.Relation.{Headed, Lawful, exact, heads, above, no_name};
ghost use Rattle.model.specs.Climb.{exact_lawful, heads_lawful};

use crate::names::Name;

// A lawful relation. For the names of any grammar its meaning is one fixed set of pairs: `covers`
// answers exactly by it and changes nothing, each name covers itself, and a name covers only names
// of its own kind.
pub trait Relation {
    ghost covered: { Self → List NameType → ℕ → ℕ → Bool };

    fn covers(&self, names: &[Name], h: usize, t: usize) -> bool
        ensures { result ≡ covered self.now names.now h t };

    ghost lawful: { (s : Self) (names : List NameType) → Headed names → Lawful names (covered s names) };
}

// A name covers itself alone.
#[derive(Clone, Copy)]
pub struct Exact {}

// A name covers itself and each name below it, by heads.
#[derive(Clone, Copy)]
pub struct Heads {}

impl Relation for Exact {
    ghost covered = { λ _ names h t. exact names h t };

    ghost lawful = { λ s names ok. exact_lawful names ok };

    fn covers(&self, names: &[Name], h: usize, t: usize) -> bool {
        t < names.len() && h == t
    }
}

impl Relation for Heads {
    ghost covered = { λ _ names h t. heads names h t };

    ghost lawful = { λ s names ok. heads_lawful names ok };

    fn covers(&self, names: &[Name], h: usize, t: usize) -> bool {
        t < names.len() && climbs(names, names.len(), h, t)
    }
}

// Whether h is met on the way from t up by at most `steps` heads.
fn climbs(names: &[Name], steps: usize, h: usize, t: usize) -> bool
    ensures { result ≡ above steps names.now h t }
{
    if h == t {
        return true;
    }
    if steps == 0 {
        return false;
    }
    match names.get(t).and_then(|name| name.head) {
        Some(u) => climbs(names, steps - 1, h, u),
        None => false,
    }
}
