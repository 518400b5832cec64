// The derivatives of expressions.
ghost use Rattle.std.specs.Prelude.{length};
ghost use Rattle.expressions.specs.Derived.{AllIn};
ghost use Rattle.expressions.specs.Props.{AllIn-prop};
ghost use Rattle.states.specs.Memo.{notes};
ghost use Rattle.states.specs.Spans.{Spans, Spans-prop};

use crate::entering::once;
use crate::error::Limit;
use crate::memo::Memo;
use crate::nullable::Expressions;
use model::machine::Derivative;
use model::nodes::Node;
use std::alloc::{AllocError, Global};

// Where the derivatives of an expression stand: from the one number up to the other. The default is
// nowhere.
#[derive(Clone, Copy, Default)]
pub struct Span {
    pub from: usize,
    pub to: usize,
}

impl Span {
    ghost use Rattle.std.specs.Prelude.{◌≡◌};
    ghost use Rattle.expressions.specs.Derived.{part};
    ghost use Rattle.states.specs.Spans.{Inside};

    // The derivatives of the span.
    pub fn of(self, found: &[Derivative]) -> &[Derivative]
        requires { Inside found.now self }
        ensures { result.now ≡ part found.now self.from self.to }
    {
        &found[self.from..self.to]
    }
}

// The expressions of a grammar with what was found of them: nullability, and derivatives. All that
// is found is right.
#[derive(Drop)]
pub struct Work {
    pub expressions: Expressions,
    pub found: Vec<Derivative>,
    pub spans: Memo<Span>,
    pub ghost listed: { AllIn (length expressions.nodes.items) found.items } by { AllIn-prop (length expressions.nodes.items) found.items },
    pub ghost known: { Spans expressions.nodes.items expressions.rules.bodies.items found.items (notes spans) } by { Spans-prop expressions.nodes.items expressions.rules.bodies.items found.items (notes spans) },
}

impl Work {
    ghost use Rattle.std.specs.Prelude.{◌≡◌, ◌<◌, IfOk, IfSome, None, map};
    ghost use Rattle.expressions.specs.Numbers.{null_at};
    ghost use Rattle.expressions.specs.Derived.{as_trees, part};
    ghost use Rattle.states.specs.Spans.{Inside};
    ghost use Rattle.states.specs.Derive.{nodes_of, bodies_of, found_of, Goes, Gives, Went, both, in_turn, JoinedTo};

    // The work of which nothing is done.
    pub fn new(heap: Global, expressions: Expressions) -> Result<Work, AllocError>
        ensures { IfOk result (λ w. w.expressions ≡ expressions) }
    {
        let spans = Memo::new(heap)?;
        Ok(Work {
            expressions,
            found: Vec::new(heap),
            spans,
        })
    }

    // Whether a node is nullable, where all rules are known.
    pub fn nullable(&mut self, node: usize) -> bool
        ensures value { result ≡ null_at (nodes_of self.old) (bodies_of self.old) (length (bodies_of self.old)) node }
        ensures goes { Goes self.old self.new }
    {
        let count = self.expressions.rules.bodies.len();
        self.expressions.nullable(count, node)
    }

    // Keeps a list of derivatives behind those found so far.
    fn keep(&mut self, list: &[Derivative]) -> Result<Span, Limit>
        requires { AllIn (length (nodes_of self.old)) list.now }
        ensures { IfOk result (λ s. Gives self.old self.new (map (as_trees (nodes_of self.old)) list.now) s) }
    {
        let from = self.found.len();
        self.found.extend_from_slice(list)?;
        Ok(Span {
            from,
            to: self.found.len(),
        })
    }

    // The derivatives of a span with s joined to each rest.
    fn joined_to(&mut self, span: Span, s: usize) -> Result<Vec<Derivative>, Limit>
        requires inside { Inside (found_of self.old) span }
        requires s { s < length (nodes_of self.old) }
        ensures goes { Goes self.old self.new }
        ensures found { found_of self.new ≡ found_of self.old }
        ensures value { IfOk result (λ v. JoinedTo (nodes_of self.old) (nodes_of self.new) (part (found_of self.old) span.from span.to) s v.items) }
    {
        let derivatives = span.of(self.found.as_slice());
        self.expressions.joined_to(derivatives, s)
    }

    // A union: the derivatives of the left side, then those of the right side.
    fn of_union(&mut self, left: Span, right: Span) -> Result<Span, Limit>
        requires left { Inside (found_of self.old) left }
        requires right { Inside (found_of self.old) right }
        ensures { IfOk result (λ s. Gives self.old self.new (both self.old left right) s) }
    {
        let found = self.found.as_slice();
        let list = once(self.expressions.heap, left.of(found), right.of(found))?;
        self.keep(list.as_slice())
    }

    // A sequence or a star: the derivatives of its first part with s joined to each rest, then
    // others.
    fn of_first(&mut self, first: Span, s: usize, then: Span) -> Result<Span, Limit>
        requires first { Inside (found_of self.old) first }
        requires then { Inside (found_of self.old) then }
        requires s { s < length (nodes_of self.old) }
        ensures { IfOk result (λ p. Gives self.old self.new (in_turn self.old first s then) p) }
    {
        let joined = self.joined_to(first, s)?;
        let others = then.of(self.found.as_slice());
        let list = once(self.expressions.heap, joined.as_slice(), others)?;
        self.keep(list.as_slice())
    }

    // Where the derivatives of a node are, if they are known: there is no such node, or they were
    // found before.
    fn found_before(&self, rule: usize, node: usize) -> Option<Span>
        ensures known { IfSome result (λ s. Went self.now self.now rule node s) }
        ensures new { result ≡ None → node < length (nodes_of self.now) }
    {
        if node >= self.expressions.nodes.len() {
            return Some(Span::default());
        }
        self.spans.get(rule, node)
    }

    // The derivatives of a node, where only the rules below `rule` are known. A mention is followed
    // into that rule's body.
    pub fn derive(&mut self, rule: usize, node: usize) -> Result<Span, Limit>
        ensures { IfOk result (λ s. Went self.old self.new rule node s) }
    {
        if let Some(span) = self.found_before(rule, node) {
            return Ok(span);
        }
        let empty = self.expressions.rules.empty;
        let span = match self.expressions.nodes[node] {
            Node::Nothing | Node::Empty => Span::default(),
            Node::Simple(n) => self.keep(&[(n, empty, empty)])?,
            Node::Element(n, c) => self.keep(&[(n, c, empty)])?,
            Node::Rule(k) => match self.expressions.rules.body_below(k, rule) {
                Some(body) => self.derive(k, body)?,
                None => Span::default(),
            },
            Node::Union(a, b) => {
                let left = self.derive(rule, a)?;
                let right = self.derive(rule, b)?;
                self.of_union(left, right)?
            }
            Node::Seq(a, b) => {
                let first = self.derive(rule, a)?;
                let then = if self.nullable(a) {
                    self.derive(rule, b)?
                } else {
                    Span::default()
                };
                self.of_first(first, b, then)?
            }
            Node::Star(a) => {
                let first = self.derive(rule, a)?;
                self.of_first(first, node, Span::default())?
            }
        };
        self.spans.set(rule, node, span);
        Ok(span)
    }
}
