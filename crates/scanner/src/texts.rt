// A whole text: its first word, and what stands behind it.
ghost use Rattle.std.specs.Prelude.{◌≡◌, ◌≤◌, length, Some};
ghost use Rattle.grammar.specs.Modes.{start_mode, empty_text_mode};
ghost use Rattle.grammar.specs.Tokens.{NextRead};
ghost use Rattle.scanner.specs.Scanned.{FirstWordRead, bracketed, AllScanned, TextScanned, EmptyScanned, WithoutBrackets, Ended};

use crate::members::members;
use crate::polygons::polygon;
use crate::words::word;
use crate::{Extent, NO_EXTENT};
use grammar::{NextByte, OffGrammar, Read, next_byte};

// Behind the last bracket of a text: spaces alone may stand there.
fn to_end(text: &[u8], end: usize) -> Result<(), OffGrammar>
    requires { end ≤ length text.now }
    ensures { Ended text.now end result }
{
    let next = next_byte(text, end);
    match next.byte {
        Some(_) => Err(OffGrammar { place: next.at }),
        None => Ok(()),
    }
}

// A text from behind the E of EMPTY on: nothing may stand behind it.
fn empty_text(text: &[u8], at: usize) -> Result<Extent, OffGrammar>
    requires { (length text.now ≤ 65536) × (at ≤ length text.now) }
    ensures { EmptyScanned text.now at (empty_text_mode 1) result }
{
    let end = word(text, at, b"MPTY")?;
    if end < text.len() {
        return Err(OffGrammar { place: end });
    }
    Ok(NO_EXTENT)
}

// A text from behind its first word on, where this byte comes next and is no bracket: EMPTY, with a space before it.
fn without_brackets(text: &[u8], at: usize, next: NextByte) -> Result<Extent, OffGrammar>
    requires { (length text.now ≤ 65536) × NextRead text.now at next × (next.byte ≡ Some 40 → ⊥) }
    ensures { WithoutBrackets text.now at result }
{
    if next.byte != Some(b'E') || next.at == at {
        return Err(OffGrammar { place: next.at });
    }
    empty_text(text, next.at + 1)
}

// Whether the first word of a text is MULTIPOLYGON, or POLYGON, and the place behind it.
fn first_word(text: &[u8]) -> Read<bool>
    ensures { FirstWordRead text.now result }
{
    match text.first() {
        Some(b'P') => Ok((false, word(text, 1, b"OLYGON")?)),
        Some(b'M') => Ok((true, word(text, 1, b"ULTIPOLYGON")?)),
        _ => Err(OffGrammar { place: 0 }),
    }
}

// What is in brackets behind the first word: the members of a MULTIPOLYGON, or the rings of a POLYGON.
fn in_brackets(
    multi: bool,
    text: &[u8],
    at: usize,
    corners: &mut [i64],
    lengths: &mut [usize],
    counts: &mut [usize],
) -> Read<Extent>
    requires { (length text.now ≤ 65536) × (at ≤ length text.now) }
    ensures { AllScanned text.now at (bracketed multi) corners.old corners.new lengths.old lengths.new counts.old counts.new result }
{
    if multi {
        return members(text, at, corners, lengths, counts);
    }
    polygon(text, at, corners, lengths, counts, NO_EXTENT)
}

/// What a text spells: how much of a plan, which is stored as far as the tables reach, or where it leaves the grammar. Off the grammar, what the
/// tables then hold is left open: a caller that may write nothing lends tables of no length.
pub fn scan(
    text: &[u8],
    corners: &mut [i64],
    lengths: &mut [usize],
    counts: &mut [usize],
) -> Result<Extent, OffGrammar>
    requires { length text.now ≤ 65536 }
    ensures { TextScanned text.now 0 start_mode corners.old corners.new lengths.old lengths.new counts.old counts.new result }
{
    let (multi, at) = first_word(text)?;
    let next = next_byte(text, at);
    if next.byte != Some(b'(') {
        return without_brackets(text, at, next);
    }
    let (extent, end) = in_brackets(multi, text, next.at + 1, corners, lengths, counts)?;
    to_end(text, end)?;
    Ok(extent)
}
