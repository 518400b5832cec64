// Whether expressions are nullable.
ghost use Rattle.std.specs.Prelude.{length};
ghost use Rattle.expressions.specs.Fine.{Fine, Below};
ghost use Rattle.expressions.specs.Props.{Fine-prop, Below-prop};
ghost use Rattle.states.specs.Blank.{IsEmpty, IsEmpty-prop};
ghost use Rattle.states.specs.Memo.{notes, Sound, Sound-prop};

use crate::grammar::Rules;
use crate::memo::Memo;
use model::nodes::Node;
use std::alloc::{AllocError, Global};

// A book of expressions with the rules, and what is noted of nullability, which is right; and the
// heap for what is made of them.
#[derive(Drop)]
pub struct Expressions {
    pub heap: Global,
    pub nodes: Vec<Node>,
    pub rules: Rules,
    pub nulls: Memo<bool>,
    pub ghost fine: { Fine nodes.items } by { Fine-prop nodes.items },
    pub ghost within: { Below (length nodes.items) rules.bodies.items } by { Below-prop (length nodes.items) rules.bodies.items },
    pub ghost blank: { IsEmpty nodes.items rules.empty } by { IsEmpty-prop nodes.items rules.empty },
    pub ghost sound: { Sound nodes.items rules.bodies.items (notes nulls) } by { Sound-prop nodes.items rules.bodies.items (notes nulls) },
}

impl Expressions {
    ghost use Rattle.std.specs.Prelude.{◌≡◌, IfOk};
    ghost use Rattle.expressions.specs.Numbers.{null_at};
    ghost use Rattle.states.specs.Kept.{SameBook};

    // The expressions with nothing noted.
    pub fn new(heap: Global, nodes: Vec<Node>, rules: Rules) -> Result<Expressions, AllocError>
        requires fine { Fine nodes.items }
        requires within { Below (length nodes.items) rules.bodies.items }
        requires blank { IsEmpty nodes.items rules.empty }
        ensures { IfOk result (λ e. (e.nodes ≡ nodes) × (e.rules ≡ rules)) }
    {
        let nulls = Memo::new(heap)?;
        Ok(Expressions {
            heap,
            nodes,
            rules,
            nulls,
        })
    }

    // Whether a node is nullable, where only the rules below `rule` are known. A mention is followed
    // into that rule's body.
    pub fn nullable(&mut self, rule: usize, node: usize) -> bool
        ensures value { result ≡ null_at self.old.nodes.items self.old.rules.bodies.items rule node }
        ensures kept { SameBook self.old self.new }
    {
        if node >= self.nodes.len() {
            return false;
        }
        if let Some(answer) = self.nulls.get(rule, node) {
            return answer;
        }
        let answer = match self.nodes[node] {
            Node::Nothing | Node::Simple(_) | Node::Element(_, _) => false,
            Node::Empty | Node::Star(_) => true,
            Node::Rule(k) => match self.rules.body_below(k, rule) {
                Some(body) => self.nullable(k, body),
                None => false,
            },
            Node::Union(a, b) => {
                let left = self.nullable(rule, a);
                let right = self.nullable(rule, b);
                left || right
            }
            Node::Seq(a, b) => {
                let left = self.nullable(rule, a);
                let right = self.nullable(rule, b);
                left && right
            }
        };
        self.nulls.set(rule, node, answer);
        answer
    }
}
