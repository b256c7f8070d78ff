// A position: x, one space at least, y.
ghost use Rattle.std.specs.Prelude.{◌≤◌, length};
ghost use Rattle.scanner.specs.Scanned.{PositionRead};

use geom::Point;
use grammar::numbers::number;
use grammar::{OffGrammar, Read};

/// The position that is wanted at a place of a text.
pub(crate) fn read_position(text: &[u8], at: usize) -> Read<Point>
    requires { at ≤ length text.now }
    ensures { PositionRead text.now at result }
{
    let (x, end) = number(text, at)?;
    let Some(b' ') = text.get(end) else {
        return Err(OffGrammar { place: end });
    };
    let (y, end) = number(text, end + 1)?;
    Ok((Point { x, y }, end))
}
