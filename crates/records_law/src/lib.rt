//! What reading and writing sheets are to each other.
#![tactic(auto)]

ghost use Rattle.records_law.specs.Laws.{ReadsBack, IsWritten};

/// The text of a sheet that writing does not refuse reads back as that sheet.
pub fn written_reads_back()
    ensures { ReadsBack }
{}

/// A text that is accepted is, byte for byte, the text of the sheet that was read.
pub fn accepted_is_written()
    ensures { IsWritten }
{}
