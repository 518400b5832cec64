// Derivatives with something joined to their rests.
use crate::entering::enter;
use crate::error::Limit;
use crate::grammar::EXPRESSIONS;
use crate::nullable::Expressions;
use model::machine::Derivative;
use model::nodes::Node;

impl Expressions {
    ghost use Rattle.std.specs.Prelude.{◌≡◌, ◌<◌, IfOk, length};
    ghost use Rattle.theory.specs.Derivative.{join};
    ghost use Rattle.expressions.specs.Numbers.{tree};
    ghost use Rattle.expressions.specs.Fine.{Grows};
    ghost use Rattle.expressions.specs.Derived.{AllIn};
    ghost use Rattle.states.specs.Read.{Numbered};
    ghost use Rattle.states.specs.Derive.{JoinedTo};

    // The number of s joined to a rest: `empty` vanishes, any other rest is followed by s.
    fn joined(&mut self, rest: usize, s: usize) -> Result<usize, Limit>
        requires rest { rest < length self.old.nodes.items }
        requires s { s < length self.old.nodes.items }
        ensures rules { self.new.rules ≡ self.old.rules }
        ensures nodes { Grows self.old.nodes.items self.new.nodes.items }
        ensures value { IfOk result (λ i. Numbered self.old.nodes.items self.new.nodes.items i (join (tree self.old.nodes.items rest) (tree self.old.nodes.items s))) }
    {
        if rest == self.rules.empty {
            return Ok(s);
        }
        enter(&mut self.nodes, EXPRESSIONS, Node::Seq(rest, s))
    }

    // Derivatives with s joined to each rest.
    pub fn joined_to(
        &mut self,
        derivatives: &[Derivative],
        s: usize,
    ) -> Result<Vec<Derivative>, Limit>
        requires within { AllIn (length self.old.nodes.items) derivatives.now }
        requires s { s < length self.old.nodes.items }
        ensures rules { self.new.rules ≡ self.old.rules }
        ensures nodes { Grows self.old.nodes.items self.new.nodes.items }
        ensures value { IfOk result (λ v. JoinedTo self.old.nodes.items self.new.nodes.items derivatives.now s v.items) }
    {
        let mut list = Vec::new(self.heap);
        for derivative in derivatives {
            let (label, content, rest) = *derivative;
            let tail = self.joined(rest, s)?;
            list.push((label, content, tail))?;
        }
        Ok(list)
    }
}
