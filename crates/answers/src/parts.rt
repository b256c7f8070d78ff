// The plan's lines and the others: where the first line that asks stands (document 01, "Trays to try").
ghost use Rattle.std.specs.Prelude.{◌≤◌, length};
ghost use Rattle.answers.specs.Answers.{FirstQuery};

use asked::asks;
use fields::lines::Lines;

/// Where a line starts, and its number.
#[derive(Clone, Copy)]
pub(crate) struct Place {
    pub from: usize,
    pub line: usize,
}

/// The first line that asks, which ends the plan. The input's end where there is none. An unended line asks too.
pub(crate) fn first_query(input: &[u8]) -> Place
    requires { length input.now ≤ 16384 }
    ensures { FirstQuery input.now result }
{
    let mut from = 0;
    for (k, line) in Lines::of(input).enumerate() {
        if asks(line.bytes()) {
            return Place { from, line: k + 1 };
        }
        from += line.size();
    }
    Place {
        from: input.len(),
        line: 1,
    }
}
