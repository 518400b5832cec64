//! How a line is judged: its form, the room in its table, its numbers, its spelling, and their places.
ghost use Rattle.std.specs.Prelude.{◌≡◌};
ghost use Rattle.text.specs.Fields.{seen};
ghost use Rattle.text.specs.Cursors.{fields_left};
ghost use Rattle.tables.specs.Plain.{plain, sketch, fact};
ghost use Rattle.tables.specs.Judge.{begin_line, name_line, under_line, node_line, rule_line, end_line, keyed_line, judged};

use crate::checks::{holds, may_be_node, may_get_head};
use crate::draft::{Draft, Entry};
use crate::shape::Shape;
use crate::table::Tables;
use crate::words::{Key, key_in, kind_in, version_in};
use text::fault::{LineFault, TableFault, ensure};
use text::line::{Fields, Line};

/// The most names that a grammar has.
const NAMES: usize = 64;

/// The most nodes that it has.
const NODES: usize = 256;

/// The most rules that it has.
const RULES: usize = 32;

/// `grammar=1`.
fn begin_line<'a>(mut fields: Fields<'a>) -> Result<Entry<'a>, TableFault>
    ensures { seen fact result ≡ begin_line fields.entry.line (fields_left fields.entry) }
{
    let version = fields.key()?;
    fields.end()?;
    version_in(version)?;
    Ok(Entry::Begin)
}

impl<'a> Tables<'a> {
    /// `name=KIND,SPELLING`.
    fn name_line(&self, mut fields: Fields<'a>) -> Result<Entry<'a>, TableFault>
        ensures { seen fact result ≡ name_line (plain self.now) fields.entry.line (fields_left fields.entry) }
    {
        let line = fields.line();
        let kind = fields.key()?;
        let spelling = fields.spelling()?;
        fields.end()?;
        let kind = kind_in(kind)?;
        ensure(self.names.len() < NAMES, TableFault::Full { line })?;
        let spelling = spelling.spelling()?;
        ensure(
            !holds(self.spellings.as_slice(), spelling),
            LineFault::Spelling { line },
        )?;
        Ok(Entry::Name(kind, spelling))
    }

    /// `under=NAME,HEAD`.
    fn under_line(&self, mut fields: Fields<'a>) -> Result<Entry<'a>, TableFault>
        ensures { seen fact result ≡ under_line (plain self.now) fields.entry.line (fields_left fields.entry) }
    {
        let line = fields.line();
        let name = fields.number()?;
        let head = fields.last_number()?;
        let name = name.value()?;
        let head = head.value()?;
        ensure(
            may_get_head(self.names.as_slice(), name, head),
            TableFault::Place { line },
        )?;
        Ok(Entry::Under(name, head))
    }

    /// `node=SHAPE` with the numbers of its shape.
    fn node_line(&self, mut fields: Fields<'a>) -> Result<Entry<'a>, TableFault>
        ensures { seen fact result ≡ node_line (plain self.now) fields.entry.line (fields_left fields.entry) }
    {
        let line = fields.line();
        let word = fields.key()?;
        let shape = Shape::read(word, fields)?;
        ensure(self.nodes.len() < NODES, TableFault::Full { line })?;
        let node = shape.node()?;
        ensure(
            may_be_node(self.names.as_slice(), self.nodes.len(), node),
            TableFault::Place { line },
        )?;
        Ok(Entry::Node(node, line))
    }

    /// `rule=SPELLING,NODE`.
    fn rule_line(&self, mut fields: Fields<'a>) -> Result<Entry<'a>, TableFault>
        ensures { seen fact result ≡ rule_line (plain self.now) fields.entry.line (fields_left fields.entry) }
    {
        let line = fields.line();
        let spelling = fields.spelling()?;
        let body = fields.last_number()?;
        ensure(self.bodies.len() < RULES, TableFault::Full { line })?;
        let body = body.value()?;
        let spelling = spelling.spelling()?;
        ensure(
            !holds(self.rules.as_slice(), spelling),
            LineFault::Spelling { line },
        )?;
        ensure(body < self.nodes.len(), TableFault::Place { line })?;
        Ok(Entry::Rule(spelling, body, line))
    }

    /// `end=COUNT`.
    fn end_line(&self, fields: Fields<'a>) -> Result<Entry<'a>, TableFault>
        ensures { seen fact result ≡ end_line (plain self.now) fields.entry.line (fields_left fields.entry) }
    {
        let line = fields.line();
        let count = fields.last_number()?.value()?;
        ensure(count == self.bodies.len(), TableFault::Place { line })?;
        Ok(Entry::End)
    }

    /// A line by its key.
    fn keyed_line(&self, key: Key, fields: Fields<'a>) -> Result<Entry<'a>, TableFault>
        ensures { seen fact result ≡ keyed_line key (plain self.now) fields.entry.line (fields_left fields.entry) }
    {
        match key {
            Key::Grammar => begin_line(fields),
            Key::Name => self.name_line(fields),
            Key::Under => self.under_line(fields),
            Key::Node => self.node_line(fields),
            Key::Rule => self.rule_line(fields),
            Key::End => self.end_line(fields),
        }
    }
}

impl<'a> Draft<'a> {
    /// What the next line enters, if it is lawful there.
    pub(crate) fn judge(&self, line: Line<'a>) -> Result<Entry<'a>, TableFault>
        ensures { seen fact result ≡ judged (sketch self.now) line.entry.number line.entry.bytes.now }
    {
        let (key, fields) = line.parts()?;
        let key = key_in(key)?;
        ensure(
            self.stage.allows(key),
            LineFault::Form {
                line: line.number(),
            },
        )?;
        self.tables.keyed_line(key, fields)
    }
}
