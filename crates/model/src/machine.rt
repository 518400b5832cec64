// The states of a grammar with their derivatives.
ghost use Rattle.std.specs.Prelude.{◌≡◌, length};
ghost use Rattle.model.specs.Machine.{states_of, nullable_at, derivatives_at};

// A derivative: its label (a name), its content and its rest (states).
pub type Derivative = (usize, usize, usize);

// Whether a state has the empty hedge, and its derivatives in order.
#[derive(Drop)]
pub struct State {
    pub nullable: bool,
    pub derivatives: Vec<Derivative>,
}

// All states of a grammar in order.
#[derive(Drop)]
pub struct Machine {
    pub states: Vec<State>,
}

impl Machine {
    // The number of states.
    pub fn count(&self) -> usize
        ensures { result ≡ length (states_of self.now) }
    {
        self.states.len()
    }

    // Whether the state q is nullable; false where there is no such state.
    pub fn is_nullable(&self, q: usize) -> bool
        ensures { result ≡ nullable_at (states_of self.now) q }
    {
        self.states.get(q).is_some_and(|state| state.nullable)
    }

    // The derivatives of the state q in order; none where there is no such state.
    pub fn derivatives(&self, q: usize) -> &[Derivative]
        ensures { result.now ≡ derivatives_at (states_of self.now) q }
    {
        match self.states.get(q) {
            Some(state) => state.derivatives.as_slice(),
            None => &[],
        }
    }
}
