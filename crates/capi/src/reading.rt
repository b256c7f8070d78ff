// Plans as text for a server: a text read into tables that it lends, a line of a text, and how many nodes a plan has (document 01, items 5
// and 10).
ghost use Rattle.std.specs.Prelude.{◌≡◌, Result};
ghost use Rattle.rules.specs.Nodes.{node_count};
ghost use Rattle.text.specs.Lines.{LineSpan};
ghost use Rattle.text.specs.Numbers.{reading_numbers};
ghost use Rattle.text.specs.Readings.{PlanRead};
ghost use Rattle.lines.specs.declared.Size.{Size};
ghost use Rattle.rules.specs.declared.Refusal.{Refusal};

use index::count::node_count;
use text::numbers::ReadingNumbers;
use text::{Span, line_span, read_plan};

/// Reads a plan's text into the tables that it is lent: `text::read_plan` in numbers.
///
/// Refused with 1, with 2 and its line, or with 11 and its table, in this order; then no table is written.
#[unsafe(no_mangle)]
pub extern "C" fn findspot_read_plan(
    text: &[u8],
    corners: &mut [i64],
    lengths: &mut [usize],
    counts: &mut [usize],
) -> ReadingNumbers
    ensures { (reading : (Result Size Refusal)) × PlanRead text.now corners.old corners.new lengths.old lengths.new counts.old counts.new reading × (result ≡ reading_numbers reading) }
{
    ReadingNumbers::from(read_plan(text, corners, lengths, counts))
}

/// Where line k of a text stands, counted from 1: `text::line_span`, with both numbers 0 where there is no line k. Nothing is refused.
#[unsafe(no_mangle)]
pub extern "C" fn findspot_line(text: &[u8], k: usize) -> Span
    ensures { LineSpan text.now k result }
{
    line_span(text, k)
}

/// N(n), the rows that the tables of boxes and of parts need for a plan of n corners, for any n: `index::count::node_count`. Nothing is refused.
#[unsafe(no_mangle)]
pub extern "C" fn findspot_node_count(corners: usize) -> usize
    ensures { result ≡ node_count corners }
{
    node_count(corners)
}
