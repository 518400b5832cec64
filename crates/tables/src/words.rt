//! The fixed words of a grammar text, and the order of its sections.
ghost use Rattle.std.specs.Prelude.{◌≡◌};
ghost use Rattle.text.specs.Fields.{view};
ghost use Rattle.tables.specs.Words.{key_in, kind_in, version_in, leads, allowed};

use model::names::Kind;
use text::fault::LineFault;
use text::field::Field;

/// What a line is by its key.
#[derive(Clone, Copy)]
pub enum Key {
    Grammar,
    Name,
    Under,
    Node,
    Rule,
    End,
}

/// How far the text has come: the section that its last line stands in.
#[derive(Clone, Copy, PartialEq, Eq, PartialOrd, Ord)]
pub enum Stage {
    Start,
    Names,
    Unders,
    Nodes,
    Rules,
    Ended,
}

/// The key that the field is.
pub(crate) fn key_in(field: Field) -> Result<Key, LineFault>
    ensures { result ≡ key_in (view field.entry) }
{
    field.one_of(&[
        (b"grammar", Key::Grammar),
        (b"name", Key::Name),
        (b"under", Key::Under),
        (b"node", Key::Node),
        (b"rule", Key::Rule),
        (b"end", Key::End),
    ])
}

/// The kind of name that the field is.
pub(crate) fn kind_in(field: Field) -> Result<Kind, LineFault>
    ensures { result ≡ kind_in (view field.entry) }
{
    field.one_of(&[(b"simple", Kind::Simple), (b"element", Kind::Element)])
}

/// Refuses another number of the format than 1.
pub(crate) fn version_in(field: Field) -> Result<(), LineFault>
    ensures { result ≡ version_in (view field.entry) }
{
    field.one_of(&[(b"1", ())])
}

impl Stage {
    /// Whether a line of the key may follow: the text begins with `grammar`; after it no key goes
    /// back to an earlier section, and none follows the end.
    pub(crate) fn allows(self, key: Key) -> bool
        ensures { result ≡ allowed self key }
    {
        match key {
            Key::Grammar => self == Stage::Start,
            _ => self != Stage::Start && self != Stage::Ended && self <= key.stage(),
        }
    }
}

impl Key {
    /// The section that a line of the key stands in.
    fn stage(self) -> Stage
        ensures { result ≡ leads self }
    {
        match self {
            Key::Grammar | Key::Name => Stage::Names,
            Key::Under => Stage::Unders,
            Key::Node => Stage::Nodes,
            Key::Rule => Stage::Rules,
            Key::End => Stage::Ended,
        }
    }
}
