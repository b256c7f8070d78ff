// A ring: positions in brackets, parted by commas. Its last position closes it and is not stored.
ghost use Rattle.std.specs.Prelude.{◌≡◌, ◌+◌, ◌≤◌, length};
ghost use Rattle.grammar.specs.Modes.{want_ring_mode, want_x_mode};
ghost use Rattle.scanner.specs.Extents.{closes, with_ring, Counted};
ghost use Rattle.scanner.specs.Scanned.{RingScanned};

use crate::Extent;
use crate::marks::{Mark, mark_behind};
use crate::positions::read_position;
use crate::tables::{store, store_corner};
use geom::Point;
use grammar::{OffGrammar, Read, next_byte};

// Whether a last position closes a ring with this first one. A ring of one position has no other.
fn closes(first: Option<Point>, p: Point) -> bool
    ensures { result ≡ closes first p }
{
    first == Some(p)
}

// The plan with a ring of so many corners.
fn with_ring(extent: Extent, count: usize, closed: bool) -> Extent
    requires { Counted extent 65536 × (count ≤ 65536) }
    ensures { result ≡ with_ring extent count closed }
{
    Extent {
        corners: extent.corners + count,
        rings: extent.rings + 1,
        closed: extent.closed && closed,
        ..extent
    }
}

// A ring from behind its opening bracket on.
fn ring(
    text: &[u8],
    at: usize,
    corners: &mut [i64],
    lengths: &mut [usize],
    extent: Extent,
) -> Read<Extent>
    requires { (length text.now ≤ 65536) × (at ≤ length text.now) × Counted extent at }
    ensures { RingScanned text.now at want_x_mode extent corners.old corners.new lengths.old lengths.new result }
{
    let mut first = None;
    let mut place = at;
    // Each position takes a byte at least.
    for count in 0..text.len() {
        let (p, end) = read_position(text, place)?;
        let (mark, next) = mark_behind(text, end)?;
        match mark {
            Mark::Comma => {
                store_corner(corners, extent.corners + count, p);
                first = first.or(Some(p));
                place = next;
            }
            Mark::Bracket => {
                store(lengths, extent.rings, count);
                return Ok((with_ring(extent, count, closes(first, p)), next));
            }
        }
    }
    Err(OffGrammar { place })
}

/// The ring that is wanted at a place of a text.
pub(crate) fn ring_at(
    text: &[u8],
    at: usize,
    corners: &mut [i64],
    lengths: &mut [usize],
    extent: Extent,
) -> Read<Extent>
    requires { (length text.now ≤ 65536) × (at ≤ length text.now) × Counted extent at }
    ensures { RingScanned text.now at want_ring_mode extent corners.old corners.new lengths.old lengths.new result }
{
    // Nowhere else is one byte wanted and 21 the answer to every other: `scan` goes on to EMPTY, and `to_end` wants none.
    let open = next_byte(text, at);
    if open.byte != Some(b'(') {
        return Err(OffGrammar { place: open.at });
    }
    ring(text, open.at + 1, corners, lengths, extent)
}
