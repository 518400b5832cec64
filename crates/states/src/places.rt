// A file's nodes in a book: each gets the number of the node that it is there.
ghost use Rattle.std.specs.Prelude.{length};
ghost use Rattle.expressions.specs.Fine.{Fine, Below};
ghost use Rattle.expressions.specs.Props.{Fine-prop, Below-prop};

use crate::entering;
use crate::error::Limit;
use crate::grammar::EXPRESSIONS;
use model::nodes::Node;
use std::alloc::Global;

// A book with the numbers in it of a file's first nodes.
#[derive(Drop)]
pub struct Places {
    pub heap: Global,
    pub nodes: Vec<Node>,
    pub places: Vec<usize>,
    pub ghost fine: { Fine nodes.items } by { Fine-prop nodes.items },
    pub ghost below: { Below (length nodes.items) places.items } by { Below-prop (length nodes.items) places.items },
}

impl Places {
    ghost use Rattle.std.specs.Prelude.{◌≡◌, IfOk, OnOk, [], ◌∷◌, ◌++◌, map, vec_len, slice_index_or};
    ghost use Rattle.theory.specs.Language.{none};
    ghost use Rattle.theory.specs.Tree.{trees, of_node};
    ghost use Rattle.expressions.specs.Numbers.{tree};
    ghost use Rattle.expressions.specs.Fine.{PartsBelow, make, Grows, shown};
    ghost use Rattle.states.specs.Read.{Numbered, Moved, StandFor, mentions};

    // The nodes of a file.
    pub fn of_file(heap: Global, file: &[Node]) -> Result<Places, Limit>
        ensures { IfOk result (λ p. shown p.nodes.items p.places.items ≡ trees file.now) }
    {
        let mut places = Places {
            heap,
            nodes: Vec::new(heap),
            places: Vec::new(heap),
        };
        for node in file {
            places.place(*node)?;
        }
        Ok(places)
    }

    // Enters the next node of the file.
    fn place(&mut self, node: Node) -> Result<(), Limit>
        ensures { OnOk result (shown self.new.nodes.items self.new.places.items ≡ shown self.old.nodes.items self.old.places.items ++ of_node (shown self.old.nodes.items self.old.places.items) node ∷ []) }
    {
        let here = self.moved(node)?;
        let number = self.enter(here)?;
        self.places.push(number)?;
        Ok(())
    }

    // Enters a node that is built of numbers in the book, and gives its number.
    pub fn enter(&mut self, node: Node) -> Result<usize, Limit>
        requires { PartsBelow (length self.old.nodes.items) node }
        ensures places { self.new.places ≡ self.old.places }
        ensures number { IfOk result (λ i. Numbered self.old.nodes.items self.new.nodes.items i (make (tree self.old.nodes.items) node)) }
    {
        entering::enter(&mut self.nodes, EXPRESSIONS, node)
    }

    // The number of the file's node c, or of `none` where there is no such node.
    fn placed(&mut self, c: usize) -> Result<usize, Limit>
        ensures places { self.new.places ≡ self.old.places }
        ensures number { IfOk result (λ i. Numbered self.old.nodes.items self.new.nodes.items i (slice_index_or (shown self.old.nodes.items self.old.places.items) c none)) }
    {
        match self.places.get(c).copied() {
            Some(place) => Ok(place),
            None => self.enter(Node::Nothing),
        }
    }

    // A node of the file, with the numbers of its parts in the book.
    fn moved(&mut self, node: Node) -> Result<Node, Limit>
        ensures places { self.new.places ≡ self.old.places }
        ensures node { IfOk result (λ x. Moved self.old.nodes.items self.new.nodes.items x (of_node (shown self.old.nodes.items self.old.places.items) node)) }
    {
        match node {
            Node::Element(n, c) => Ok(Node::Element(n, self.placed(c)?)),
            Node::Star(a) => Ok(Node::Star(self.placed(a)?)),
            Node::Union(a, b) => {
                let left = self.placed(a)?;
                Ok(Node::Union(left, self.placed(b)?))
            }
            Node::Seq(a, b) => {
                let left = self.placed(a)?;
                Ok(Node::Seq(left, self.placed(b)?))
            }
            Node::Nothing | Node::Empty | Node::Simple(_) | Node::Rule(_) => Ok(node),
        }
    }

    // The numbers of the bodies.
    pub fn bodies(&mut self, file: &[usize]) -> Result<Vec<usize>, Limit>
        ensures count { IfOk result (λ v. vec_len v ≡ length file.now) }
        ensures nodes { IfOk result (λ v. Grows self.old.nodes.items self.new.nodes.items) }
        ensures value { IfOk result (λ v. StandFor self.new.nodes.items v.items (map (λ c. slice_index_or (shown self.old.nodes.items self.old.places.items) c none) file.now)) }
    {
        let mut bodies = Vec::new(self.heap);
        for body in file {
            let number = self.placed(*body)?;
            bodies.push(number)?;
        }
        Ok(bodies)
    }

    // Enters a mention of each rule and gives their numbers.
    pub fn mentions(&mut self, rules: usize) -> Result<Vec<usize>, Limit>
        ensures nodes { IfOk result (λ v. Grows self.old.nodes.items self.new.nodes.items) }
        ensures value { IfOk result (λ v. StandFor self.new.nodes.items v.items (mentions rules)) }
    {
        let mut mentions = Vec::new(self.heap);
        for k in 0..rules {
            let number = self.enter(Node::Rule(k))?;
            mentions.push(number)?;
        }
        Ok(mentions)
    }
}
