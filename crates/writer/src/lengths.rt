// How many bytes a list plan has as Well-Known Text (document 02, R-1), before any of them is written.
ghost use Rattle.std.specs.Prelude.{◌≡◌, ◌*◌, ◌^◌, ◌≤◌, ◌<◌, length};
ghost use Rattle.rules.specs.Plans.{corners_of};
ghost use Rattle.writer.specs.Drawn.{Rings, Drawn};
ghost use Rattle.writer.specs.Lengths.{Decimals, RingLong, RingsLong, TextLong};

use fields::write::decimal_length;
use plans::Plan;

// How many bytes the decimal texts of these numbers have together. A `for` and no `sum`: that a number has 64 bits, which the clause says of each,
// is known where it is read, and a closure under `map` would keep it to itself.
fn decimals(numbers: &[i64]) -> usize
    requires { length numbers.now ≤ 2 ^ 21 }
    ensures { Decimals numbers.now result }
{
    let mut sum = 0;
    for &z in numbers {
        sum += decimal_length(z);
    }
    sum
}

// How many bytes a ring has: its numbers, those of its first corner again, and three bytes a position: the space in it and, of brackets, commas
// and the spaces after them, two.
fn ring_length(ring: &[i64]) -> usize
    requires { (1 < length ring.now) × (length ring.now ≤ 2 ^ 21) × (2 * length (corners_of ring.now) ≡ length ring.now) }
    ensures { RingLong ring.now result }
{
    let corners = ring.len() / 2;
    let all = decimals(ring);
    let again = decimals(&ring[..2]);
    3 * corners + 3 + all + again
}

// How many bytes rings of these lengths have, without what stands between them.
fn rings_length(coordinates: &[i64], lengths: &[usize]) -> usize
    requires { Rings coordinates.now lengths.now × (length coordinates.now ≤ 2 ^ 21) × (length lengths.now ≤ 2 ^ 16) }
    ensures { RingsLong coordinates.now lengths.now result }
{
    let mut sum = 0;
    let mut first = 0;
    for &corners in lengths {
        let end = first + corners;
        sum += ring_length(&coordinates[2 * first..2 * end]);
        first = end;
    }
    sum
}

/// How many bytes a plan has as Well-Known Text. The plan is a list that is accepted and has no empty ring.
pub fn text_length(plan: &Plan<'_>) -> usize
    requires { Drawn plan.now }
    ensures { TextLong plan.now result }
{
    let rings = rings_length(plan.coordinates, plan.lengths);
    if plan.counts.is_empty() {
        return 18;
    }
    13 + 2 * plan.counts.len() + 2 * plan.lengths.len() + rings
}
