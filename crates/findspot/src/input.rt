// Standard input to its end, with a read that fails told apart from the end.
ghost use Rattle.findspot.specs.Inputs.{Came, Holds};

use std::io;
use std::io::Read;

// One read into a part of the buffer that is not empty: how many bytes, one or more, or `None` at the input's end.
fn read_some<R: Read>(source: &mut R, part: &mut [u8]) -> io::Result<Option<usize>>
    ensures { Came (R.remaining source.old) (R.remaining source.new) part.new result }
{
    let count = source.read(part)?;
    Ok((0 < count).then_some(count))
}

/// Reads until the input ends or the buffer is full: the input's bytes, or as many of them as the buffer holds, stand at its start, and this is
/// how many.
pub(crate) fn read_input<R: Read>(source: &mut R, buffer: &mut [u8]) -> io::Result<usize>
    ensures { Holds (R.remaining source.old) (R.remaining source.new) buffer.new result }
{
    let mut held = 0;
    while held < buffer.len() {
        match read_some(source, &mut buffer[held..])? {
            Some(count) => held += count,
            None => return Ok(held),
        }
    }
    Ok(held)
}
