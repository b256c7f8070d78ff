// The whole of the program `findspot` but reading and writing: input bytes to output bytes (document 01, "Trays to try").
#![tactic(auto)]

ghost use Rattle.std.specs.Prelude.{◌≤◌, length, drop};
ghost use Rattle.fields.specs.Pieces.{split};
ghost use Rattle.fields.specs.Written.{Wrote};
ghost use Rattle.lines.specs.Plans.{meaning};
ghost use Rattle.answers.specs.Replies.{replies, Due};
ghost use Rattle.answers.specs.Answers.{plan_text, judged, Admitted, answered, Tables as TextTables, Answered};

mod output;
mod parts;
mod replies;

use fields::write::put;
use parts::first_query;
use plans::Plan;
use prepare::prepare;
use prepared::locate::Tables;
use replies::{put_refusal, put_replies};
use rules::Refusal;
use text::{first_plan, read_plan};

/// The most bytes that an input may have.
pub const MAX_INPUT: usize = 16384;

// Room for any answer: none has more than 33,000 bytes.
const ANSWER_ROOM: usize = 65536;

/// 11: the output has fewer bytes than the answer. Nothing was written.
#[derive(Clone, Copy, PartialEq, Eq, Debug)]
pub struct OutputTooShort;

// What is written for the lines of an input from a line on, whose number is given. The plan, which is within the ceilings, is prepared once
// (512 corners have at most N(512) = 127 nodes); then each line is looked up in its tables.
fn answer_lines(
    plan: &Plan<'_>,
    input: &[u8],
    first: usize,
    number: usize,
    output: &mut [u8],
) -> usize
    requires { Admitted plan.now × Due plan.now input.now first number output.old }
    ensures { Wrote 0 (replies plan.now number (split 10 (drop first input.now))) output.old output.new result }
{
    let mut corners = [0i64; 1024];
    let mut rings = [0usize; 256];
    let mut polygons = [0usize; 256];
    let mut boxes = [[0i64; 4]; 127];
    let mut parts = [[0usize; 3]; 127];
    let mut edges = [0usize; 512];
    match prepare(
        plan,
        &mut corners,
        &mut rings,
        &mut polygons,
        &mut boxes,
        &mut parts,
        &mut edges,
    ) {
        Ok(ready) => {
            let tables = Tables {
                corners: &corners,
                rings: &rings,
                polygons: &polygons,
                boxes: &boxes,
                parts: &parts,
                edges: &edges,
            };
            put_replies(ready.state, &tables, input, first, number, output)
        }
        // No accepted plan within the ceilings comes to this.
        Err(_) => 0,
    }
}

// The answer to an input of at most 16,384 bytes, by tables of 512 corners, 256 rings and 256 polygons.
fn answer_in(
    input: &[u8],
    corners: &mut [i64],
    lengths: &mut [usize],
    counts: &mut [usize],
    output: &mut [u8],
) -> usize
    requires { (length input.now ≤ 16384) × (65536 ≤ length output.old) × TextTables corners.old lengths.old counts.old }
    ensures { Wrote 0 (judged (meaning (plan_text (split 10 input.now))) (split 10 input.now)) output.old output.new result }
{
    let place = first_query(input);
    let from = place.from;
    let line = place.line;
    match read_plan(&input[..from], corners, lengths, counts) {
        Ok(size) => {
            let plan = first_plan(size, corners, lengths, counts);
            answer_lines(&plan, input, from, line, output)
        }
        Err(refusal) => put_refusal(output, refusal),
    }
}

// The whole answer to an input, and how many bytes it has.
fn answer_whole(input: &[u8], output: &mut [u8]) -> usize
    requires { 65536 ≤ length output.old }
    ensures { Wrote 0 (answered input.now) output.old output.new result }
{
    if MAX_INPUT < input.len() {
        return put_refusal(output, Refusal::TextTooLong);
    }
    let mut corners = [0i64; 1024];
    let mut lengths = [0usize; 256];
    let mut counts = [0usize; 256];
    answer_in(input, &mut corners, &mut lengths, &mut counts, output)
}

/// Writes what `findspot` answers to an input at the output's start, and gives how many bytes that is; the rest of the output stays as it was.
///
/// The lines before the first one whose first field is `coin` or `half` are the plan. It is judged first; then each later line is replied to
/// in turn: its own bytes, a tab, and `inside`, `outside` or `boundary`. A refusal writes `refused`, its number and the line (0 where none),
/// and nothing after it: 1 for an input of more than 16,384 bytes, 2 for the first line that breaks the format, 11 for a plan of more than
/// 512 corners or 256 rings. All of these are written. It takes up to 720 KiB of stack, most of it for look-ups that meet more than 128 rings.
///
/// Refused with 11 (`OutputTooShort`), with nothing written, where the output has fewer bytes than the answer; no answer has more than 33,000.
pub fn answer(input: &[u8], output: &mut [u8]) -> Result<usize, OutputTooShort>
    ensures { Answered input.now output.old output.new result }
{
    let mut whole = [0u8; ANSWER_ROOM];
    let count = answer_whole(input, &mut whole);
    if output.len() < count {
        return Err(OutputTooShort);
    }
    put(output, 0, &whole[..count]);
    Ok(count)
}
