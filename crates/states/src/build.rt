// The states of a grammar.
ghost use Rattle.std.specs.Prelude.{◌≡◌, ◌<◌, length, IfOk};
ghost use Rattle.model.specs.Machine.{states_of};
ghost use Rattle.expressions.specs.States.{Separate};
ghost use Rattle.states.specs.Derive.{nodes_of};
ghost use Rattle.states.specs.Build.{Named, Numbering, Stating, SoFar, Built};

use crate::derive::Work;
use crate::entering::{DERIVATIVES, enter};
use crate::error::{BuildError, Limit};
use crate::grammar::{Grammar, read};
use crate::memo::RULES;
use crate::nullable::Expressions;
use model::machine::{Derivative, Machine, State};
use model::nodes::Node;
use std::alloc::Global;

// At most so many states.
pub const STATES: usize = 128;

// At most so many nodes of a file.
pub const NODES: usize = 256;

// Derivatives by states: each content and then each rest gets a number.
fn by_states(
    heap: Global,
    numbers: &mut Vec<usize>,
    found: &[Derivative],
) -> Result<Vec<Derivative>, Limit>
    requires { Separate numbers.old.items }
    ensures { IfOk result (λ v. Named numbers.old.items numbers.new.items found.now v.items) }
{
    let mut derivatives = Vec::new(heap);
    for derivative in found {
        let (label, content, rest) = *derivative;
        let inside = enter(numbers, STATES, content)?;
        let following = enter(numbers, STATES, rest)?;
        derivatives.push((label, inside, following))?;
    }
    Ok(derivatives)
}

// The state of an expression.
fn state_of(work: &mut Work, numbers: &mut Vec<usize>, node: usize) -> Result<State, Limit>
    requires numbers { Numbering (nodes_of work.old) numbers.old.items }
    requires node { node < length (nodes_of work.old) }
    ensures { IfOk result (λ s. Stating work.old work.new numbers.old.items numbers.new.items node s) }
{
    let count = work.expressions.rules.bodies.len();
    let span = work.derive(count, node)?;
    let nullable = work.nullable(node);
    let derivatives = by_states(
        work.expressions.heap,
        numbers,
        span.of(work.found.as_slice()),
    )?;
    Ok(State {
        nullable,
        derivatives,
    })
}

// All states, from those of the rules on.
fn states_of(work: &mut Work, numbers: &mut Vec<usize>) -> Result<Machine, Limit>
    requires { Numbering (nodes_of work.old) numbers.old.items }
    ensures so_far { IfOk result (λ m. SoFar work.old work.new numbers.old.items numbers.new.items (states_of m)) }
    ensures count { IfOk result (λ m. length (states_of m) ≡ length numbers.new.items) }
{
    let mut states = Vec::new(work.expressions.heap);
    let mut total = 0;
    // Kept a count: the list of numbers grows while its states are made.
    while let Some(node) = numbers.get(states.len()).copied() {
        let state = state_of(work, numbers, node)?;
        let more = state.derivatives.len();
        if more > DERIVATIVES - total {
            return Err(Limit::TooLarge);
        }
        total += more;
        states.push(state)?;
    }
    Ok(Machine { states })
}

// The state machine of the grammar with these nodes, whose rule k has the node bodies[k] as its body.
pub fn build(heap: Global, nodes: &[Node], bodies: &[usize]) -> Result<Machine, BuildError>
    ensures { Built nodes.now bodies.now result }
{
    if nodes.len() > NODES || bodies.len() > RULES {
        return Err(BuildError::TooLarge);
    }
    let Grammar {
        nodes,
        rules,
        mentions,
    } = read(heap, nodes, bodies)?;
    let mut expressions = Expressions::new(heap, nodes, rules)?;
    if let Some(k) = expressions.first_unlawful()? {
        return Err(BuildError::Recursion(k));
    }
    let mut work = Work::new(heap, expressions)?;
    let mut numbers = mentions;
    let machine = states_of(&mut work, &mut numbers)?;
    Ok(machine)
}
