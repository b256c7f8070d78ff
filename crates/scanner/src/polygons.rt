// A polygon: rings in brackets, parted by commas.
ghost use Rattle.std.specs.Prelude.{◌≡◌, ◌≤◌, length};
ghost use Rattle.scanner.specs.Extents.{with_polygon, Counted};
ghost use Rattle.scanner.specs.Scanned.{PolygonScanned};

use crate::Extent;
use crate::marks::{Mark, mark_behind};
use crate::rings::ring_at;
use crate::tables::store;
use grammar::Read;

// The plan with a polygon more.
fn with_polygon(extent: Extent) -> Extent
    requires { Counted extent 65536 }
    ensures { result ≡ with_polygon extent }
{
    Extent {
        polygons: extent.polygons + 1,
        ..extent
    }
}

/// A polygon from behind its opening bracket on.
pub(crate) fn polygon(
    text: &[u8],
    at: usize,
    corners: &mut [i64],
    lengths: &mut [usize],
    counts: &mut [usize],
    extent: Extent,
) -> Read<Extent>
    requires { (length text.now ≤ 65536) × (at ≤ length text.now) × Counted extent at }
    ensures { PolygonScanned text.now at extent corners.old corners.new lengths.old lengths.new counts.old counts.new result }
{
    let mut so_far = extent;
    let mut place = at;
    loop {
        let (more, end) = ring_at(text, place, corners, lengths, so_far)?;
        let (mark, next) = mark_behind(text, end)?;
        match mark {
            Mark::Comma => {
                so_far = more;
                place = next;
            }
            Mark::Bracket => {
                store(counts, extent.polygons, more.rings - extent.rings);
                return Ok((with_polygon(more), next));
            }
        }
    }
}
