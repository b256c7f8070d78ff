// The mark behind an item of a list in brackets: a comma before the next item, or the closing bracket.
ghost use Rattle.std.specs.Prelude.{◌≤◌, length};
ghost use Rattle.scanner.specs.Marks.{MarkRead};

use grammar::{NextByte, OffGrammar, Read, next_byte};

/// What stands behind an item of a list in brackets.
#[derive(Clone, Copy)]
pub(crate) enum Mark {
    Comma,
    Bracket,
}

/// The mark behind an item that ends at a place of a text, after any spaces.
pub(crate) fn mark_behind(text: &[u8], end: usize) -> Read<Mark>
    requires { end ≤ length text.now }
    ensures { MarkRead text.now end result }
{
    let NextByte { at: place, byte } = next_byte(text, end);
    match byte {
        Some(b',') => Ok((Mark::Comma, place + 1)),
        Some(b')') => Ok((Mark::Bracket, place + 1)),
        _ => Err(OffGrammar { place }),
    }
}
