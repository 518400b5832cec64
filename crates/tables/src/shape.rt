//! The nodes of a text, before their numbers are judged.
ghost use Rattle.std.specs.Prelude.{◌≡◌};
ghost use Rattle.text.specs.Fields.{view, seen};
ghost use Rattle.text.specs.Cursors.{fields_left};
ghost use Rattle.tables.specs.Shapes.{node_of, node_in};

use model::nodes::Node;
use text::fault::LineFault;
use text::field::Field;
use text::line::Fields;

/// A node by its first word, with the fields of its numbers. It is no `Node`: the room for one more node is
/// tested before the numbers have values.
#[derive(Clone, Copy)]
pub enum Shape<'a> {
    Nothing,
    Empty,
    Simple(Field<'a>),
    Rule(Field<'a>),
    Element(Field<'a>, Field<'a>),
    Union(Field<'a>, Field<'a>),
    Seq(Field<'a>, Field<'a>),
    Star(Field<'a>),
}

impl<'a> Shape<'a> {
    /// The shape that the word names, with as many number fields as it has; the line ends after them.
    pub(crate) fn read(word: Field<'a>, mut fields: Fields<'a>) -> Result<Shape<'a>, LineFault>
        ensures { seen node_of result ≡ node_in (view word.entry) fields.entry.line (fields_left fields.entry) }
    {
        // A chain of words and no table of them: each takes its own number fields.
        if word.is(b"none") {
            fields.end()?;
            Ok(Shape::Nothing)
        } else if word.is(b"empty") {
            fields.end()?;
            Ok(Shape::Empty)
        } else if word.is(b"simple") {
            Ok(Shape::Simple(fields.last_number()?))
        } else if word.is(b"rule") {
            Ok(Shape::Rule(fields.last_number()?))
        } else if word.is(b"element") {
            Ok(Shape::Element(fields.number()?, fields.last_number()?))
        } else if word.is(b"union") {
            Ok(Shape::Union(fields.number()?, fields.last_number()?))
        } else if word.is(b"seq") {
            Ok(Shape::Seq(fields.number()?, fields.last_number()?))
        } else if word.is(b"star") {
            Ok(Shape::Star(fields.last_number()?))
        } else {
            Err(LineFault::Form { line: word.line() })
        }
    }

    /// The node with the values of its fields.
    pub(crate) fn node(self) -> Result<Node, LineFault>
        ensures { result ≡ node_of self.entry }
    {
        Ok(match self {
            Shape::Nothing => Node::Nothing,
            Shape::Empty => Node::Empty,
            Shape::Simple(name) => Node::Simple(name.value()?),
            Shape::Rule(rule) => Node::Rule(rule.value()?),
            Shape::Element(name, inside) => Node::Element(name.value()?, inside.value()?),
            Shape::Union(a, b) => Node::Union(a.value()?, b.value()?),
            Shape::Seq(a, b) => Node::Seq(a.value()?, b.value()?),
            Shape::Star(a) => Node::Star(a.value()?),
        })
    }
}
