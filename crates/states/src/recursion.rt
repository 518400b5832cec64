// Lawful recursion: outside elements, a rule mentions earlier rules, and itself in last place.
use crate::error::Limit;
use crate::nullable::Expressions;
use model::nodes::Node;

// Whether an unlawful mention of a rule is met from a node on, by the way taken to that node.
#[derive(Clone, Copy, Default)]
pub struct Ways {
    // The way took unions and right sides of sequences alone, none after a left side that is not
    // nullable.
    pub free: bool,
    // Such a way with a right side after a left side that is not nullable.
    pub guarded: bool,
    // Any other way.
    pub bent: bool,
}

impl Ways {
    ghost use Rattle.std.specs.Prelude.{◌≡◌, slice_index_or};
    ghost use Rattle.states.specs.Test.{no_ways, either_ways, turn_ways, bent_ways};

    // What the table has of the node c; no unlawful mention where there is no such node.
    fn at(table: &[Ways], c: usize) -> Ways
        ensures { result ≡ slice_index_or table.now c no_ways }
    {
        table.get(c).copied().unwrap_or_default()
    }

    // What two nodes have together.
    fn or(self, other: Ways) -> Ways
        ensures { result ≡ either_ways self other }
    {
        Ways {
            free: self.free || other.free,
            guarded: self.guarded || other.guarded,
            bent: self.bent || other.bent,
        }
    }

    // A sequence: the way to its left side bends, the way to its right side is guarded by a left
    // side that is not nullable.
    fn then(self, right: Ways, left_nullable: bool) -> Ways
        ensures { result ≡ turn_ways self right left_nullable }
    {
        let free = if left_nullable {
            right.free
        } else {
            right.guarded
        };
        Ways {
            free: self.bent || free,
            guarded: self.bent || right.guarded,
            bent: self.bent || right.bent,
        }
    }

    // A star: every way through it bends.
    fn bend(self) -> Ways
        ensures { result ≡ bent_ways self }
    {
        Ways {
            free: self.bent,
            guarded: self.bent,
            bent: self.bent,
        }
    }
}

impl Expressions {
    ghost use Rattle.std.specs.Prelude.{◌≡◌, ◌<◌, IfOk, length, vec_len};
    ghost use Rattle.theory.specs.Tree.{body_of};
    ghost use Rattle.states.specs.Kept.{SameBook};
    ghost use Rattle.states.specs.Test.{ways_from, Filled, passes, FirstUnlawful};

    // The ways of rule k from the next node on, given those of the nodes before it.
    fn next_ways(&mut self, table: &[Ways], k: usize) -> Ways
        requires next { length table.now < length self.old.nodes.items }
        requires filled { Filled self.old.nodes.items self.old.rules.bodies.items k table.now }
        ensures value { result ≡ ways_from self.old.nodes.items self.old.rules.bodies.items k (length table.now) }
        ensures kept { SameBook self.old self.new }
    {
        match self.nodes[table.len()] {
            Node::Nothing | Node::Empty | Node::Simple(_) | Node::Element(_, _) => Ways::default(),
            Node::Rule(j) => Ways {
                free: k <= j,
                guarded: k < j,
                bent: k <= j,
            },
            Node::Union(a, b) => Ways::at(table, a).or(Ways::at(table, b)),
            Node::Seq(a, b) => {
                let left_nullable = self.nullable(k, a);
                Ways::at(table, a).then(Ways::at(table, b), left_nullable)
            }
            Node::Star(a) => Ways::at(table, a).bend(),
        }
    }

    // Whether the recursion of rule k is lawful.
    fn is_lawful(&mut self, k: usize) -> Result<bool, Limit>
        requires { k < vec_len self.old.rules.bodies }
        ensures value { IfOk result (λ b. b ≡ passes self.old.nodes.items self.old.rules.bodies.items k) }
        ensures kept { SameBook self.old self.new }
    {
        let mut table = Vec::new(self.heap);
        // Kept a count: a loan of the nodes would last while each step takes `&mut self`.
        for _ in 0..self.nodes.len() {
            let ways = self.next_ways(table.as_slice(), k);
            table.push(ways)?;
        }
        let body = self.rules.bodies[k];
        Ok(!Ways::at(table.as_slice(), body).free)
    }

    // The first rule whose recursion is not lawful.
    pub fn first_unlawful(&mut self) -> Result<Option<usize>, Limit>
        ensures value { IfOk result (λ o. FirstUnlawful (body_of self.old.nodes.items self.old.rules.bodies.items) (vec_len self.old.rules.bodies) o) }
        ensures kept { SameBook self.old self.new }
    {
        // Kept a count: the number of the rule is the answer.
        for k in 0..self.rules.bodies.len() {
            if !self.is_lawful(k)? {
                return Ok(Some(k));
            }
        }
        Ok(None)
    }
}
