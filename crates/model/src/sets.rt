// Sets of states.
ghost use Rattle.model.specs.Sets.{has, insert};
ghost use Rattle.std.specs.Prelude.{◌≡◌};

// A set of states below 128, one bit for each state.
#[derive(Clone, Copy, Default, PartialEq, Eq)]
pub struct StateSet {
    pub bits: u128,
}

impl StateSet {
    // The set of no state.
    pub fn empty() -> StateSet
        ensures { result.bits ≡ 0 }
    {
        StateSet::default()
    }

    // Whether the state q is in the set.
    pub fn contains(&self, q: usize) -> bool
        ensures { result ≡ has self.now.bits q }
    {
        q < 128 && (self.bits >> q) % 2 == 1
    }

    // The set with the state q besides; a number above 127 is no state and changes nothing.
    pub fn with(&self, q: usize) -> StateSet
        ensures { result.bits ≡ insert self.now.bits q }
    {
        if q < 128 {
            StateSet {
                bits: self.bits | (1u128 << q),
            }
        } else {
            *self
        }
    }
}
