// Names of a grammar.

// A simple name stands for character content, an element name for an element.
#[derive(Clone, Copy, PartialEq, Eq)]
pub enum Kind {
    Simple,
    Element,
}

// A name's kind and the name that is its head, if it has one.
#[derive(Clone, Copy, PartialEq, Eq)]
pub struct Name {
    pub kind: Kind,
    pub head: Option<usize>,
}
