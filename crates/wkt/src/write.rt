// A list plan written as Well-Known Text, and what that answers (document 02, R-1).
ghost use Rattle.std.specs.Prelude.{◌≡◌, length};
ghost use Rattle.rules.specs.declared.Kind.TheVariants.{Tree};
ghost use Rattle.rules.specs.Plans.{plan_verdict};
ghost use Rattle.grammar.specs.Texts.{wkt_of};
ghost use Rattle.writer.specs.Drawn.{Drawn};
ghost use Rattle.wkt.specs.Writings.{with_output, drawn_writing, writing, unnamed_writing, Answered, WktWritten};
ghost use Rattle.rules.specs.Answering.{Accepted};

use plans::{Plan, has_zero};
use rules::{Kind, Refusal, Table};
use text::MAX_TEXT;
use writer::lengths::text_length;
use writer::put_text;

// Refusals 1 and 11 of a list that can be written, into an output of so many bytes, or how many bytes its text has.
fn text_answer(plan: &Plan<'_>, room: usize) -> Result<usize, Refusal>
    requires { Drawn plan.now }
    ensures { Answered plan.now.coordinates (with_output (length (wkt_of plan.now)) room) result }
{
    let length = text_length(plan);
    if MAX_TEXT < length {
        return Err(Refusal::TextTooLong);
    }
    if room < length {
        return Err(Refusal::TableTooShort(Table::Output));
    }
    Ok(length)
}

// Refusals 22, 1 and 11 of a plan that is accepted.
#[tactic(auto, unfolding(crate::specs::Writings::drawable))]
fn drawn_answer(plan: &Plan<'_>, room: usize) -> Result<usize, Refusal>
    requires { plan_verdict plan.now ≡ Accepted }
    ensures { Answered plan.now.coordinates (drawn_writing plan.now room) result }
{
    if plan.kind == Kind::Tree || has_zero(plan.lengths) {
        return Err(Refusal::Unclosed);
    }
    text_answer(plan, room)
}

// What writing a plan into an output of so many bytes answers. Nothing is written.
fn answer(plan: &Plan<'_>, room: usize) -> Result<usize, Refusal>
    ensures { Answered plan.now.coordinates (writing plan.now room) result }
{
    plan.judge()?;
    drawn_answer(plan, room)
}

/// Writes a list plan as Well-Known Text into the output from its start: a `MULTIPOLYGON` with the first corner of each ring repeated at its
/// end, `MULTIPOLYGON EMPTY` where there are no polygons.
///
/// Refused with 4 (`TooMany`) and 3 (`Uneven`) as every plan is, else with 22 (`Unclosed`) where the plan is a tree or has an empty ring, else
/// with 1 (`TextTooLong`) where the text has more than 65,536 bytes, else with 11 (`TableTooShort`, table `Output`) where the output is
/// shorter than the text. A refusal leaves the output as it was. Otherwise the bytes after the text are as they were. Coordinates out of range
/// are written as others are.
pub fn write_wkt(plan: &Plan<'_>, output: &mut [u8]) -> Result<usize, Refusal>
    ensures { WktWritten plan.now output.old output.new result }
{
    let length = answer(plan, output.len())?;
    put_text(output, plan);
    Ok(length)
}

/// What writing answers where the number names no kind: 4 and 3 as a tree has them, else 15. Nothing is written.
pub fn unnamed_writing(
    coordinates: &[i64],
    lengths: &[usize],
    counts: &[usize],
) -> Result<usize, Refusal>
    ensures { result ≡ unnamed_writing (plan_verdict (record { kind = Tree; coordinates = coordinates.now; lengths = lengths.now; counts = counts.now })) }
{
    let tree = Plan {
        kind: Kind::Tree,
        coordinates,
        lengths,
        counts,
    };
    tree.judge()?;
    Err(Refusal::Unsound)
}
