// Plans as text: reading one, and line k of a text (document 01, item 10).
#![tactic(auto)]

ghost use Rattle.std.specs.Prelude.{◌≡◌, ◌*◌, ◌≤◌, length};
ghost use Rattle.text.specs.Lines.{line_of, LineSpan, LineFound};
ghost use Rattle.text.specs.Readings.{with_room, reading, PlanRead, first_plan};

use fields::split_once;
use lines::Size;
use lines::stages::judge;
use lines::tables::write_plan;
use plans::{Plan, PlanRoom};
use rules::Refusal;

pub mod numbers;

/// The most bytes that a text may have.
pub const MAX_TEXT: usize = 65536;

/// Whether tables of so many numbers have room for a plan of this size: it, or 11 (`TableTooShort`) with the first that is too short.
pub fn room(size: Size, corners: usize, rings: usize, polygons: usize) -> Result<Size, Refusal>
    ensures { result ≡ with_room size corners rings polygons }
{
    let room = PlanRoom {
        corners,
        rings,
        polygons,
    };
    room.holds(size.corners, size.rings, size.polygons)?;
    Ok(size)
}

// What reading a text into tables that hold so many numbers answers. Nothing is written.
fn answer(text: &[u8], corners: usize, rings: usize, polygons: usize) -> Result<Size, Refusal>
    ensures { result ≡ reading text.now corners rings polygons }
{
    if MAX_TEXT < text.len() {
        return Err(Refusal::TextTooLong);
    }
    let size = judge(text)?;
    room(size, corners, rings, polygons)
}

/// Reads a plan's text into the lent tables: the corners' x, y, x, y, .., the length of each ring, and how many rings each polygon has.
///
/// The text is judged whole before anything is written. Refused with 1 (`TextTooLong`) above 65,536 bytes, else with 2 (`BadLine`) at the
/// first line that breaks the format, else with 11 (`TableTooShort`) at the first table of corners, rings, polygons that is too short. A
/// refusal leaves the tables as they were. Otherwise they hold the plan from their start and are otherwise as they were.
pub fn read_plan(
    text: &[u8],
    corners: &mut [i64],
    lengths: &mut [usize],
    counts: &mut [usize],
) -> Result<Size, Refusal>
    ensures { PlanRead text.now corners.old corners.new lengths.old lengths.new counts.old counts.new result }
{
    let size = answer(text, corners.len(), lengths.len(), counts.len())?;
    write_plan(text, corners, lengths, counts);
    Ok(size)
}

/// The plan of this size at the start of the tables, which have room for it: what `read_plan` read into them.
pub fn first_plan<'a>(
    size: Size,
    corners: &'a [i64],
    lengths: &'a [usize],
    counts: &'a [usize],
) -> Plan<'a>
    requires { (2 * size.corners ≤ length corners.now) × (size.rings ≤ length lengths.now) × (size.polygons ≤ length counts.now) }
    ensures { result ≡ first_plan size corners.now lengths.now counts.now }
{
    Plan {
        kind: size.kind,
        coordinates: &corners[..2 * size.corners],
        lengths: &lengths[..size.rings],
        counts: &counts[..size.polygons],
    }
}

/// A part of a text: where it starts, in bytes from the text's start, and how many bytes it has.
#[repr(C)]
#[derive(Clone, Copy, Default)]
pub struct Span {
    pub offset: usize,
    pub length: usize,
}

/// Where line k of a text stands, counted from 1 and without its line end. `None` where there is no line k. An unended last piece is a line;
/// behind a last line end that piece is empty and stands at the text's end.
pub fn line_found(text: &[u8], k: usize) -> Option<Span>
    ensures { LineFound text.now k result }
{
    let mut rest = text;
    for _passed in 0..k.checked_sub(1)? {
        (_, rest) = split_once(rest, b'\n')?;
    }
    let line = split_once(rest, b'\n').map_or(rest, |(line, _)| line);
    Some(Span {
        offset: text.len() - rest.len(),
        length: line.len(),
    })
}

/// Where line k of a text stands, as `line_found` has it. Where there is no line k both numbers are 0. Nothing is refused.
pub fn line_span(text: &[u8], k: usize) -> Span
    ensures { LineSpan text.now k result }
{
    line_found(text, k).unwrap_or_default()
}

/// Line k of a text, counted from 1, as a part of it and without its line end. Empty where there is no line k. An unended last piece is a
/// line.
pub fn line(text: &[u8], k: usize) -> &[u8]
    ensures { result.now ≡ line_of text.now k }
{
    let span = line_span(text, k);
    &text[span.offset..span.offset + span.length]
}
