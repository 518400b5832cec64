//! How a text gives tables, line by line.
ghost use Rattle.std.specs.Prelude.{◌≡◌, length};
ghost use Rattle.text.specs.Fields.{seen};
ghost use Rattle.tables.specs.Plain.{plain, sketch};
ghost use Rattle.tables.specs.Read.{present, closed, read, answers};

use crate::draft::{Draft, Mention};
use crate::fault::ReadError;
use crate::table::Tables;
use crate::words::Stage;
use std::alloc::Global;
use text::fault::{LineFault, TableFault, ensure};
use text::line::whole;
use text::reader::Reader;

/// The most bytes that the text of a grammar has.
const LIMIT: usize = 65536;

/// Refuses the first node that mentions a rule which is not there.
fn check_mentions(count: usize, mentions: &[Mention]) -> Result<(), TableFault>
    ensures { result ≡ present count mentions.now }
{
    for mention in mentions {
        ensure(
            mention.rule < count,
            TableFault::Place { line: mention.line },
        )?;
    }
    Ok(())
}

impl<'a> Draft<'a> {
    /// The tables, once the text has ended and the mentioned rules are there; else the line of this number is missing.
    fn close(self, line: usize) -> Result<Tables<'a>, TableFault>
        ensures { seen plain result ≡ closed (sketch self.entry) line }
    {
        let Draft {
            tables,
            mentions,
            stage,
        } = self;
        ensure(stage == Stage::Ended, LineFault::Form { line })?;
        check_mentions(tables.bodies.len(), mentions.as_slice())?;
        Ok(tables)
    }
}

/// The tables that a grammar's text gives, or its first fault.
pub fn read_tables<'a>(heap: Global, text: &'a [u8]) -> Result<Tables<'a>, ReadError>
    ensures { answers result (read text.now) }
{
    whole(text, LIMIT)?;
    let mut reader = Reader::new(text);
    let mut draft = Draft::new(heap);
    while let Some(line) = reader.next_line() {
        let entry = draft.judge(line)?;
        draft.enter(entry)?;
    }
    Ok(draft.close(reader.next_number())?)
}
