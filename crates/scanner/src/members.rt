// The members of a MULTIPOLYGON: polygons, or EMPTY, which adds none.
ghost use Rattle.std.specs.Prelude.{◌≤◌, length};
ghost use Rattle.grammar.specs.Modes.{want_member_mode};
ghost use Rattle.scanner.specs.Extents.{Counted};
ghost use Rattle.scanner.specs.Scanned.{MemberScanned, AllScanned};

use crate::marks::{Mark, mark_behind};
use crate::polygons::polygon;
use crate::words::word;
use crate::{Extent, NO_EXTENT};
use grammar::{OffGrammar, Read, next_byte};

// The member that is wanted at a place of a text.
fn member(
    text: &[u8],
    at: usize,
    corners: &mut [i64],
    lengths: &mut [usize],
    counts: &mut [usize],
    extent: Extent,
) -> Read<Extent>
    requires { (length text.now ≤ 65536) × (at ≤ length text.now) × Counted extent at }
    ensures { MemberScanned text.now at extent corners.old corners.new lengths.old lengths.new counts.old counts.new result }
{
    let first = next_byte(text, at);
    match first.byte {
        Some(b'(') => polygon(text, first.at + 1, corners, lengths, counts, extent),
        Some(b'E') => Ok((extent, word(text, first.at + 1, b"MPTY")?)),
        _ => Err(OffGrammar { place: first.at }),
    }
}

/// The members from behind the opening bracket on.
pub(crate) fn members(
    text: &[u8],
    at: usize,
    corners: &mut [i64],
    lengths: &mut [usize],
    counts: &mut [usize],
) -> Read<Extent>
    requires { (length text.now ≤ 65536) × (at ≤ length text.now) }
    ensures { AllScanned text.now at want_member_mode corners.old corners.new lengths.old lengths.new counts.old counts.new result }
{
    let mut so_far = NO_EXTENT;
    let mut place = at;
    loop {
        let (more, end) = member(text, place, corners, lengths, counts, so_far)?;
        let (mark, next) = mark_behind(text, end)?;
        match mark {
            Mark::Comma => {
                so_far = more;
                place = next;
            }
            Mark::Bracket => return Ok((more, next)),
        }
    }
}
