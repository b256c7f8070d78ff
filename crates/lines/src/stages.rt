// A text judged line by line, by what its lines count (document 01, item 10). Nothing is written.
ghost use Rattle.std.specs.Prelude.{◌≡◌, ◌≤◌, length};
ghost use Rattle.rules.specs.declared.Refusal.TheVariants as Refusal;
ghost use Rattle.lines.specs.Plans.{meaning, allowed};
ghost use Rattle.lines.specs.Steps.{Countable, SoFarCountable, empty_size, size_after, stage_after, Judged};

use crate::Size;
use crate::records::{Record, read_record};
use fields::lines::Lines;
use rules::{Kind, Refusal};

/// 2: the first line that breaks a rule, counted from 1. It is line 1 of an empty text.
#[derive(Clone, Copy, PartialEq, Eq, Debug)]
pub struct BadLine {
    pub line: usize,
}

impl From<BadLine> for Refusal {
    ghost from_gives = { λ bad refusal. refusal ≡ Refusal.BadLine bad.line };

    fn from(bad: BadLine) -> Refusal {
        Refusal::BadLine(bad.line)
    }
}

// Whether a line may come after lines of this size.
fn allowed(size: Size, row: Record) -> bool
    ensures { result ≡ allowed size row }
{
    match row {
        Record::Outer => size.kind == Kind::Polygons,
        Record::Hole => size.kind == Kind::Polygons && 0 < size.polygons,
        Record::Node => size.kind == Kind::Tree,
        Record::Corner(_) => 0 < size.rings,
        Record::Header(_) => false,
    }
}

/// The size of a plan of this kind and nothing in it.
pub(crate) fn empty_size(kind: Kind) -> Size
    ensures { result ≡ empty_size kind }
{
    Size {
        kind,
        corners: 0,
        rings: 0,
        polygons: 0,
    }
}

/// The size with a line more. A header starts them.
pub(crate) fn counted(size: Size, row: Record) -> Size
    requires { Countable size }
    ensures { result ≡ size_after size row }
{
    match row {
        Record::Header(kind) => empty_size(kind),
        Record::Outer => Size {
            rings: size.rings + 1,
            polygons: size.polygons + 1,
            ..size
        },
        Record::Hole | Record::Node => Size {
            rings: size.rings + 1,
            ..size
        },
        Record::Corner(_) => Size {
            corners: size.corners + 1,
            ..size
        },
    }
}

// The size after a line that is ended and says this: of the plan that it carries on, or begins where there is none so far.
fn after_line(so_far: Option<Size>, said: Option<Record>, line: usize) -> Result<Size, BadLine>
    requires { SoFarCountable so_far }
    ensures { result ≡ stage_after line so_far said }
{
    match (so_far, said) {
        (None, Some(Record::Header(kind))) => Ok(empty_size(kind)),
        (Some(size), Some(row)) if allowed(size, row) => Ok(counted(size, row)),
        _ => Err(BadLine { line }),
    }
}

/// The size of a text's plan. Refused with 2 at the first line that breaks a rule.
pub fn judge(text: &[u8]) -> Result<Size, BadLine>
    requires { length text.now ≤ 65536 }
    ensures { Judged (meaning text.now) result }
{
    let mut so_far = None;
    for (k, line) in Lines::of(text).enumerate() {
        let said = line.ended().and_then(read_record);
        so_far = Some(after_line(so_far, said, k + 1)?);
    }
    so_far.ok_or(BadLine { line: 1 })
}
