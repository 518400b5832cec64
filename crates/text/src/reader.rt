//! The reader: the caller's text and a position in it.
ghost use Rattle.std.specs.Prelude.{◌≤◌, length};

mod reading;

/// Reads a text line by line.
#[derive(Drop)]
pub struct Reader<'a> {
    text: &'a [u8],
    at: usize,
    line: usize,
    ghost within: { at ≤ length text.now },
    ghost counted: { line ≤ at },
}
