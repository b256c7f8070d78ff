// Well-Known Text read into the lent tables (document 02, R-1).
ghost use Rattle.std.specs.Prelude.{◌≡◌, ◌≤◌, length};
ghost use Rattle.wkt.specs.Readings.{Judged, judged_reading, reading, WktRead};

use grammar::OffGrammar;
use lines::Size;
use rules::{Kind, Refusal};
use scanner::Extent;
use scanner::texts::scan;
use text::{MAX_TEXT, room};

// What a text comes to, with nothing stored: there is no table to reach.
fn judge(text: &[u8]) -> Result<Extent, OffGrammar>
    requires { length text.now ≤ 65536 }
    ensures { Judged text.now result }
{
    let mut corners = [0i64; 0];
    let mut lengths = [0usize; 0];
    let mut counts = [0usize; 0];
    scan(text, &mut corners, &mut lengths, &mut counts)
}

// 22 where a ring is not closed, else the plan, or 11 where a table that holds so many numbers is too short.
fn with_tables(
    extent: Extent,
    corners: usize,
    rings: usize,
    polygons: usize,
) -> Result<Size, Refusal>
    ensures { result ≡ judged_reading extent corners rings polygons }
{
    if !extent.closed {
        return Err(Refusal::Unclosed);
    }
    let size = Size {
        kind: Kind::Polygons,
        corners: extent.corners,
        rings: extent.rings,
        polygons: extent.polygons,
    };
    room(size, corners, rings, polygons)
}

// What reading a text into tables that hold so many numbers answers. Nothing is written. `text::answer` shares the test of the length alone: it
// judges by lines and has no 22, so that one function for both would take the judge, its result and its error as parameters.
fn answer(text: &[u8], corners: usize, rings: usize, polygons: usize) -> Result<Size, Refusal>
    ensures { result ≡ reading text.now corners rings polygons }
{
    if MAX_TEXT < text.len() {
        return Err(Refusal::TextTooLong);
    }
    let extent = judge(text)?;
    with_tables(extent, corners, rings, polygons)
}

/// Reads a text of Well-Known Text into the lent tables: the corners' x, y, x, y, .., without the last of each ring, which repeats the first; the
/// length of each ring; and how many rings each polygon has. The plan is a list.
///
/// The text is judged whole before anything is written. Refused with 1 (`TextTooLong`) above 65,536 bytes, else with 21 (`OffGrammar`) and the
/// place, from 0, of the first byte up to which no text of the grammar begins so, or the length where it only ends early; else with 22
/// (`Unclosed`) where a ring's ends differ or it has fewer than two positions; else with 11 (`TableTooShort`) at the first table of corners, rings,
/// polygons that is too short. A refusal leaves the tables as they were. Otherwise they hold the plan from their start and are otherwise as
/// they were.
pub fn read_wkt(
    text: &[u8],
    corners: &mut [i64],
    lengths: &mut [usize],
    counts: &mut [usize],
) -> Result<Size, Refusal>
    ensures { WktRead text.now corners.old corners.new lengths.old lengths.new counts.old counts.new result }
{
    let size = answer(text, corners.len(), lengths.len(), counts.len())?;
    // The text was judged: the scan stores what it spells.
    let _ = scan(text, corners, lengths, counts);
    Ok(size)
}
