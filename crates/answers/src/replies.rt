// What is written for the lines after the plan, and for a refusal (document 01, "Trays to try").
ghost use Rattle.std.specs.Prelude.{◌≡◌, ◌+◌, ◌≤◌, length, drop};
ghost use Rattle.fields.specs.Pieces.{split};
ghost use Rattle.fields.specs.Written.{Wrote};
ghost use Rattle.rules.specs.Numbers.{refusal_number};
ghost use Rattle.rules.specs.Spots.{spot_reply};
ghost use Rattle.gather.specs.Lent.{plan_in};
ghost use Rattle.answers.specs.Replies.{place_word, reply_word, reply_line, number_field, refusal_line, line_named, replies, QueryOn, PreparedIn, Due};

use crate::output::Output;
use asked::read_query;
use fields::lines::{Line, Lines};
use prepared::locate::{Tables, locate};
use rules::{Location, Refusal, Spot, State};

// Where a spot lies in a prepared plan.
fn place_at(state: State, tables: &Tables<'_>, spot: Spot) -> Location
    requires { PreparedIn state tables.now }
    ensures { result ≡ spot_reply (plan_in state tables.now) spot }
{
    // No prepared plan's tables are refused.
    locate(state, tables, spot).unwrap_or(Location::Outside)
}

// The word of a place.
fn word_of(location: Location) -> &'static [u8]
    ensures { result.now ≡ place_word location }
{
    match location {
        Location::Outside => b"outside",
        Location::Inside => b"inside",
        Location::OnBoundary => b"boundary",
    }
}

// The line of a reply: the query's line as it stands, and the word.
fn put_reply(state: State, tables: &Tables<'_>, line: &[u8], spot: Spot, output: &mut Output<'_>)
    requires { PreparedIn state tables.now × (output.old.at + length (reply_line line.now (reply_word (plan_in state tables.now) spot)) ≤ length output.old.bytes.now) }
    ensures wrote { Wrote output.old.at (reply_line line.now (reply_word (plan_in state tables.now) spot)) output.old.bytes.now output.new.bytes.now output.new.at }
    ensures same_reference { output.new.bytes.ghost_name ≡ output.old.bytes.ghost_name }
{
    let place = place_at(state, tables, spot);
    output.put(line);
    output.put(b"\t");
    output.put(word_of(place));
    output.put(b"\n");
}

// A further field with a number.
fn put_number(output: &mut Output<'_>, n: usize)
    requires { output.old.at + length (number_field n) ≤ length output.old.bytes.now }
    ensures wrote { Wrote output.old.at (number_field n) output.old.bytes.now output.new.bytes.now output.new.at }
    ensures same_reference { output.new.bytes.ghost_name ≡ output.old.bytes.ghost_name }
{
    output.put(b"\t");
    output.put_digits(n);
}

// The line of a refusal: its number, and the line that it names.
fn refuse(output: &mut Output<'_>, refusal: Refusal)
    requires { output.old.at + length (refusal_line (refusal_number refusal) (line_named refusal)) ≤ length output.old.bytes.now }
    ensures wrote { Wrote output.old.at (refusal_line (refusal_number refusal) (line_named refusal)) output.old.bytes.now output.new.bytes.now output.new.at }
    ensures same_reference { output.new.bytes.ghost_name ≡ output.old.bytes.ghost_name }
{
    output.put(b"refused");
    put_number(output, usize::from(refusal));
    put_number(output, line_named(refusal));
    output.put(b"\n");
}

/// A refusal's line alone, and how many bytes it has.
pub(crate) fn put_refusal(output: &mut [u8], refusal: Refusal) -> usize
    requires { length (refusal_line (refusal_number refusal) (line_named refusal)) ≤ length output.old }
    ensures { Wrote 0 (refusal_line (refusal_number refusal) (line_named refusal)) output.old output.new result }
{
    let mut output = Output {
        bytes: output,
        at: 0,
    };
    refuse(&mut output, refusal);
    output.at
}

// The line that a refusal names: 0 where it names none.
fn line_named(refusal: Refusal) -> usize
    ensures { result ≡ line_named refusal }
{
    match refusal {
        Refusal::BadLine(line) => line,
        _ => 0,
    }
}

// A line that asks, and what it asks. `None` for a line off the format, as an unended one is.
fn query_on(line: Line<'_>) -> Option<(&[u8], Spot)>
    ensures { QueryOn line.entry result }
{
    let row = line.ended()?;
    Some((row, read_query(row)?))
}

/// What is written for the lines of an input from a line on, whose number is given, by look-ups in a prepared plan: a reply for each, or a
/// refusal after which nothing is written. What is returned is how many bytes there are.
pub(crate) fn put_replies(
    state: State,
    tables: &Tables<'_>,
    input: &[u8],
    first: usize,
    number: usize,
    output: &mut [u8],
) -> usize
    requires { PreparedIn state tables.now × Due (plan_in state tables.now) input.now first number output.old }
    ensures { Wrote 0 (replies (plan_in state tables.now) number (split 10 (drop first input.now))) output.old output.new result }
{
    let mut output = Output {
        bytes: output,
        at: 0,
    };
    for (k, line) in Lines::of(&input[first..]).enumerate() {
        let Some((row, query)) = query_on(line) else {
            refuse(&mut output, Refusal::BadLine(number + k));
            return output.at;
        };
        put_reply(state, tables, row, query, &mut output);
    }
    output.at
}
