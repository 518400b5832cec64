// The nodes of a grammar text, by number: a node refers only to earlier nodes.
#[derive(Clone, Copy, PartialEq, Eq)]
pub enum Node {
    Nothing,
    Empty,
    Simple(usize),
    Rule(usize),
    Element(usize, usize),
    Union(usize, usize),
    Seq(usize, usize),
    Star(usize),
}
