//! Tables while their text is read.
ghost use Rattle.std.specs.Prelude.{◌≡◌, OnOk};
ghost use Rattle.tables.specs.Plain.{sketch, fact, name as a_name, under as an_under, node as a_node, rule as a_rule};
ghost use Rattle.tables.specs.Read.{blank, entered, headed};

use crate::table::Tables;
use crate::words::Stage;
use model::names::{Kind, Name};
use model::nodes::Node;
use std::alloc::{AllocError, Global};

/// A rule that a node mentions, and the node's line.
#[derive(Clone, Copy)]
pub struct Mention {
    pub rule: usize,
    pub line: usize,
}

/// The tables so far, the rules that their nodes mention, and how far the text has come.
#[derive(Drop)]
pub struct Draft<'a> {
    pub tables: Tables<'a>,
    pub mentions: Vec<Mention>,
    pub stage: Stage,
}

/// What a line enters into the tables.
#[derive(Clone, Copy)]
pub enum Entry<'a> {
    Begin,
    Name(Kind, &'a [u8]),
    Under(usize, usize),
    Node(Node, usize),
    Rule(&'a [u8], usize, usize),
    End,
}

/// Gives the name a head, where there is such a name.
fn set_head(names: &mut Vec<Name>, name: usize, head: usize)
    ensures { names.new.items ≡ headed names.old.items name head }
{
    if let Some(name) = names.get_mut(name) {
        name.head = Some(head);
    }
}

impl<'a> Draft<'a> {
    /// Before the first line.
    pub(crate) fn new(heap: Global) -> Draft<'a>
        ensures { sketch result ≡ blank }
    {
        let tables = Tables {
            names: Vec::new(heap),
            spellings: Vec::new(heap),
            nodes: Vec::new(heap),
            bodies: Vec::new(heap),
            rules: Vec::new(heap),
            rule_lines: Vec::new(heap),
        };
        Draft {
            tables,
            mentions: Vec::new(heap),
            stage: Stage::Start,
        }
    }

    /// Enters a name that has no head yet.
    fn enter_name(&mut self, kind: Kind, spelling: &'a [u8]) -> Result<(), AllocError>
        ensures { OnOk result (sketch self.new ≡ entered (sketch self.old) (a_name kind spelling.now)) }
    {
        self.tables.names.push(Name { kind, head: None })?;
        self.tables.spellings.push(spelling)?;
        self.stage = Stage::Names;
        Ok(())
    }

    /// Enters the head of a name.
    fn enter_under(&mut self, name: usize, head: usize)
        ensures { sketch self.new ≡ entered (sketch self.old) (an_under name head) }
    {
        set_head(&mut self.tables.names, name, head);
        self.stage = Stage::Unders;
    }

    /// Enters a node, and the rule that it mentions.
    fn enter_node(&mut self, node: Node, line: usize) -> Result<(), AllocError>
        ensures { OnOk result (sketch self.new ≡ entered (sketch self.old) (a_node node line)) }
    {
        self.tables.nodes.push(node)?;
        if let Node::Rule(rule) = node {
            self.mentions.push(Mention { rule, line })?;
        }
        self.stage = Stage::Nodes;
        Ok(())
    }

    /// Enters a rule.
    fn enter_rule(&mut self, spelling: &'a [u8], body: usize, line: usize) -> Result<(), AllocError>
        ensures { OnOk result (sketch self.new ≡ entered (sketch self.old) (a_rule spelling.now body line)) }
    {
        self.tables.rules.push(spelling)?;
        self.tables.bodies.push(body)?;
        self.tables.rule_lines.push(line)?;
        self.stage = Stage::Rules;
        Ok(())
    }

    /// Enters what a line gives.
    pub(crate) fn enter(&mut self, entry: Entry<'a>) -> Result<(), AllocError>
        ensures { OnOk result (sketch self.new ≡ entered (sketch self.old) (fact entry.entry)) }
    {
        match entry {
            Entry::Begin => self.stage = Stage::Names,
            Entry::Name(kind, spelling) => self.enter_name(kind, spelling)?,
            Entry::Under(name, head) => self.enter_under(name, head),
            Entry::Node(node, line) => self.enter_node(node, line)?,
            Entry::Rule(spelling, body, line) => self.enter_rule(spelling, body, line)?,
            Entry::End => self.stage = Stage::Ended,
        }
        Ok(())
    }
}
