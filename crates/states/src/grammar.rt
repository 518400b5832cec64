// The expressions of a grammar: its nodes without repeats, `empty` and a mention of each rule.
ghost use Rattle.std.specs.List.{slice_get};
ghost use Rattle.std.specs.Prelude.{◌≡◌, cond, nat_lt, None, IfOk};
ghost use Rattle.states.specs.Read.{Read};

use crate::error::Limit;
use crate::places::Places;
use model::nodes::Node;
use std::alloc::Global;

// At most so many expressions.
pub const EXPRESSIONS: usize = 512;

// The numbers of the rules' bodies and of `empty`.
#[derive(Drop)]
pub struct Rules {
    pub bodies: Vec<usize>,
    pub empty: usize,
}

// Distinct expressions, each by numbers of earlier ones; the rules, and the numbers of their
// mentions.
#[derive(Drop)]
pub struct Grammar {
    pub nodes: Vec<Node>,
    pub rules: Rules,
    pub mentions: Vec<usize>,
}

impl Rules {
    // The number of rule k's body, if the rule is one of the first `rule`.
    pub fn body_below(&self, k: usize, rule: usize) -> Option<usize>
        ensures { result ≡ cond (nat_lt k rule) (slice_get self.now.bodies.items k) None }
    {
        if k < rule {
            self.bodies.get(k).copied()
        } else {
            None
        }
    }
}

// The expressions of a file's nodes and rules.
pub fn read(heap: Global, file: &[Node], rules: &[usize]) -> Result<Grammar, Limit>
    ensures { IfOk result (λ g. Read file.now rules.now g) }
{
    let mut places = Places::of_file(heap, file)?;
    let bodies = places.bodies(rules)?;
    let empty = places.enter(Node::Empty)?;
    let mentions = places.mentions(rules.len())?;
    let Places { nodes, .. } = places;
    Ok(Grammar {
        nodes,
        rules: Rules { bodies, empty },
        mentions,
    })
}
