//! The tables of a grammar.
ghost use Rattle.std.specs.Prelude.{◌≡◌, map};
ghost use Rattle.tables.specs.Plain.{plain};

use model::names::Name;
use model::nodes::Node;

/// The names and rules with their spellings, which are parts of the text, and the nodes.
// One column for each, and no struct of a rule: an accessor lends its column as one slice, and copies none.
#[derive(Drop)]
pub struct Tables<'a> {
    pub(crate) names: Vec<Name>,
    pub(crate) spellings: Vec<&'a [u8]>,
    pub(crate) nodes: Vec<Node>,
    pub(crate) bodies: Vec<usize>,
    pub(crate) rules: Vec<&'a [u8]>,
    pub(crate) rule_lines: Vec<usize>,
}

impl<'a> Tables<'a> {
    /// The names, by number.
    pub fn names(&self) -> &[Name]
        ensures { result.now ≡ (plain self.now).names }
    {
        self.names.as_slice()
    }

    /// The names' spellings, by number.
    pub fn spellings(&self) -> &[&'a [u8]]
        ensures { map (λ x. x.now) result.now ≡ (plain self.now).spellings }
    {
        self.spellings.as_slice()
    }

    /// The nodes, by number.
    pub fn nodes(&self) -> &[Node]
        ensures { result.now ≡ (plain self.now).nodes }
    {
        self.nodes.as_slice()
    }

    /// The rules' bodies, by number of the rule: each is a node.
    pub fn bodies(&self) -> &[usize]
        ensures { result.now ≡ (plain self.now).bodies }
    {
        self.bodies.as_slice()
    }

    /// The rules' spellings, by number.
    pub fn rules(&self) -> &[&'a [u8]]
        ensures { map (λ x. x.now) result.now ≡ (plain self.now).rules }
    {
        self.rules.as_slice()
    }

    /// The lines that the rules stand at, by number.
    pub fn rule_lines(&self) -> &[usize]
        ensures { result.now ≡ (plain self.now).rule_lines }
    {
        self.rule_lines.as_slice()
    }
}
