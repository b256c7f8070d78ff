// The plan of a text written into the lent tables (document 01, item 10), once it is known that the text gives a plan and that there is room.
ghost use Rattle.std.specs.Prelude.{◌≡◌, ◌≤◌, length};
ghost use Rattle.lines.specs.Steps.{one_more_before, RoomBefore, corners_with, CornerRoom, lengths_with, LengthRoom, counts_with, CountRoom, Ready};
ghost use Rattle.lines.specs.Plans.{meaning};
ghost use Rattle.lines.specs.Stored.{plan_in, starting_with};

use crate::Size;
use crate::records::{Record, read_record};
use crate::stages::{counted, empty_size};
use fields::lines::Lines;
use plans::put_corner;
use rules::Kind;

// One more at the last of a table's first n places.
fn add_one(table: &mut [usize], n: usize)
    requires { RoomBefore n table.old }
    ensures { table.new ≡ one_more_before n table.old }
{
    table[n - 1] += 1;
}

// What a line adds goes after what the tables hold: a corner counts for the last ring, a ring starts with no corners, and a hole counts for the
// last polygon. The tables are no struct: of one that holds three `&mut` each function would promise besides that the three references stay.
fn store(row: Record, held: Size, corners: &mut [i64], lengths: &mut [usize], counts: &mut [usize])
    requires { CornerRoom held.corners row corners.old × LengthRoom held.rings row lengths.old × CountRoom held.polygons row counts.old }
    ensures { (corners.new ≡ corners_with held.corners row corners.old) × (lengths.new ≡ lengths_with held.rings row lengths.old) × (counts.new ≡ counts_with held.polygons row counts.old) }
{
    match row {
        Record::Header(_) => {}
        Record::Outer => {
            lengths[held.rings] = 0;
            counts[held.polygons] = 1;
        }
        Record::Hole => {
            lengths[held.rings] = 0;
            add_one(counts, held.polygons);
        }
        Record::Node => lengths[held.rings] = 0,
        Record::Corner(p) => {
            put_corner(corners, held.corners, p);
            add_one(lengths, held.rings);
        }
    }
}

/// The plan of a text at the start of the tables, which are otherwise as they were.
pub fn write_plan(text: &[u8], corners: &mut [i64], lengths: &mut [usize], counts: &mut [usize])
    requires { (length text.now ≤ 65536) × Ready (meaning text.now) (length corners.old) (length lengths.old) (length counts.old) }
    ensures { (corners.new ≡ starting_with (plan_in (meaning text.now)).coordinates corners.old) × (lengths.new ≡ starting_with (plan_in (meaning text.now)).lengths lengths.old) × (counts.new ≡ starting_with (plan_in (meaning text.now)).counts counts.old) }
{
    let mut done = empty_size(Kind::Polygons);
    for line in Lines::of(text) {
        if let Some(row) = line.ended().and_then(read_record) {
            store(row, done, corners, lengths, counts);
            done = counted(done, row);
        }
    }
}
