// Well-Known Text for a server: a text read into tables that it lends, and a plan written into an output that it lends (document 02, R-1).
ghost use Rattle.std.specs.Prelude.{◌≡◌, Result};
ghost use Rattle.rules.specs.Numbers.{kind_named};
ghost use Rattle.wkt.specs.Numbers.{read_numbers};
ghost use Rattle.wkt.specs.Readings.{WktRead};
ghost use Rattle.capi.specs.WellKnown.{WriteSays};
ghost use Rattle.lines.specs.declared.Size.{Size};
ghost use Rattle.rules.specs.declared.Refusal.{Refusal};

use plans::Plan;
use rules::Kind;
use wkt::numbers::{ReadNumbers, WriteNumbers};
use wkt::read::read_wkt;
use wkt::write::{unnamed_writing, write_wkt};

/// Reads Well-Known Text into the tables that it is lent: `wkt::read::read_wkt` in numbers.
///
/// Refused with 1, with 21 and its place, with 22, or with 11 and its table, in this order; then no table is written.
#[unsafe(no_mangle)]
pub extern "C" fn findspot_read_wkt(
    text: &[u8],
    corners: &mut [i64],
    lengths: &mut [usize],
    counts: &mut [usize],
) -> ReadNumbers
    ensures { (reading : (Result Size Refusal)) × WktRead text.now corners.old corners.new lengths.old lengths.new counts.old counts.new reading × (result ≡ read_numbers reading) }
{
    ReadNumbers::from(read_wkt(text, corners, lengths, counts))
}

/// Writes a plan of kind 0 (a list) as Well-Known Text into the output that it is lent: `wkt::write::write_wkt` in numbers.
///
/// Refused with 4, 3, 22 (kind 1, a tree, too), 1, or 11 and table 6, in this order; then nothing is written. Where the kind is another number,
/// with 4 and 3 as a tree has them, else with 15.
#[unsafe(no_mangle)]
pub extern "C" fn findspot_write_wkt(
    kind: usize,
    coordinates: &[i64],
    lengths: &[usize],
    counts: &[usize],
    output: &mut [u8],
) -> WriteNumbers
    ensures { WriteSays (kind_named kind) coordinates.now lengths.now counts.now output.old output.new result }
{
    let Ok(known) = Kind::try_from(kind) else {
        return WriteNumbers::from(unnamed_writing(coordinates, lengths, counts));
    };
    let plan = Plan {
        kind: known,
        coordinates,
        lengths,
        counts,
    };
    WriteNumbers::from(write_wkt(&plan, output))
}
