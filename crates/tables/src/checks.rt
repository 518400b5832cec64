//! The tests that an entry of a table is put to.
ghost use Rattle.std.specs.Prelude.{◌≡◌, map};
ghost use Rattle.tables.specs.Checks.{has, is_kind, may_head, may_stand};

use model::names::{Kind, Name};
use model::nodes::Node;

/// Whether the spelling is among those.
pub(crate) fn holds(all: &[&[u8]], spelling: &[u8]) -> bool
    ensures { result ≡ has spelling.now (map (λ x. x.now) all.now) }
{
    all.contains(&spelling)
}

/// Whether there is a name of this number and kind.
fn is_kind(kind: Kind, names: &[Name], i: usize) -> bool
    ensures { result ≡ is_kind kind names.now i }
{
    names.get(i).is_some_and(|name| name.kind == kind)
}

/// Whether the name may get that head: a lower name of its kind, and its first.
pub(crate) fn may_get_head(names: &[Name], name: usize, head: usize) -> bool
    ensures { result ≡ may_head names.now name head }
{
    let Some(taker) = names.get(name) else {
        return false;
    };
    head < name && taker.kind == names[head].kind && taker.head.is_none()
}

/// Whether the node refers to names of its kind and to earlier nodes; rules are judged later.
pub(crate) fn may_be_node(names: &[Name], count: usize, node: Node) -> bool
    ensures { result ≡ may_stand names.now count node }
{
    match node {
        Node::Nothing | Node::Empty | Node::Rule(_) => true,
        Node::Simple(name) => is_kind(Kind::Simple, names, name),
        Node::Element(name, inside) => is_kind(Kind::Element, names, name) && inside < count,
        Node::Union(a, b) | Node::Seq(a, b) => a < count && b < count,
        Node::Star(a) => a < count,
    }
}
