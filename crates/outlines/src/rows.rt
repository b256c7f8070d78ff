// The two forms of a table that cuts a list into parts: the length of each part, as a plan is handed in, or where each part ends, as
// a prepared plan keeps it.
ghost use Rattle.std.specs.Prelude.{◌≤◌};
ghost use Rattle.outlines.specs.Rows.{EndSays, RunSays};

use rules::Unsound;

/// What the entries of a table say. Contracts speak of it, and `end_of` alone matches it: a closure in its place would want a `requires` of its own
/// in each of the seven functions that hand it down.
#[derive(Clone, Copy)]
pub enum Form {
    Lengths,
    Ends,
}

/// Where a part with this entry ends, given where it starts: not before its start and not past the limit. Refused with 15 (`Unsound`) where the
/// entry does not fit.
pub(crate) fn end_of(form: Form, entry: usize, start: usize, limit: usize) -> Result<usize, Unsound>
    requires { start ≤ limit }
    ensures { EndSays form entry start limit result }
{
    match form {
        Form::Lengths if entry <= limit - start => Ok(start + entry),
        Form::Ends if start <= entry && entry <= limit => Ok(entry),
        _ => Err(Unsound),
    }
}

/// Where the last of all parts ends. Refused with 15 (`Unsound`) where an entry does not fit.
pub(crate) fn end_of_all(
    form: Form,
    table: &[usize],
    start: usize,
    limit: usize,
) -> Result<usize, Unsound>
    requires { start ≤ limit }
    ensures { RunSays form table.now start limit result }
{
    let mut at = start;
    for &entry in table {
        at = end_of(form, entry, at, limit)?;
    }
    Ok(at)
}
