// What a line says: its fields, parted by tabs, as one record (document 01, item 10).
ghost use Rattle.std.specs.Prelude.{◌≡◌};
ghost use Rattle.fields.specs.Pieces.{split};
ghost use Rattle.lines.specs.Records.{one_field, two_fields, point_of, three_fields, record_of};

use fields::{read_number, split_once};
use geom::Point;
use rules::Kind;

/// What a line of a plan's text says.
#[derive(Clone, Copy)]
pub enum Record {
    /// `plan`, with `list`, `tree` or neither.
    Header(Kind),
    /// `outer` opens a polygon's first ring.
    Outer,
    /// `hole` opens a further ring of the polygon.
    Hole,
    /// `node` opens a ring of a tree.
    Node,
    /// `at`, x, y.
    Corner(Point),
}

// A line of one word. Bare `plan` is a list.
#[tactic(auto, unfolding(crate::specs::Records::one_field))]
fn one_field(word: &[u8]) -> Option<Record>
    ensures { result ≡ one_field word.now }
{
    match word {
        b"plan" => Some(Record::Header(Kind::Polygons)),
        b"outer" => Some(Record::Outer),
        b"hole" => Some(Record::Hole),
        b"node" => Some(Record::Node),
        _ => None,
    }
}

// `plan` with `list` or `tree`.
#[tactic(auto, unfolding(crate::specs::Records::two_fields))]
fn two_fields(word: &[u8], kind: &[u8]) -> Option<Record>
    ensures { result ≡ two_fields word.now kind.now }
{
    match (word, kind) {
        (b"plan", b"list") => Some(Record::Header(Kind::Polygons)),
        (b"plan", b"tree") => Some(Record::Header(Kind::Tree)),
        _ => None,
    }
}

/// The point with these two coordinates. `None` where a field is no number.
#[tactic(auto, unfolding(crate::specs::Records::point_of))]
pub fn read_point(first: &[u8], second: &[u8]) -> Option<Point>
    ensures { result ≡ point_of first.now second.now }
{
    let x = read_number(first)?;
    let y = read_number(second)?;
    Some(Point { x, y })
}

// `at`, x, y.
#[tactic(auto, unfolding(crate::specs::Records::three_fields))]
fn three_fields(word: &[u8], first: &[u8], second: &[u8]) -> Option<Record>
    ensures { result ≡ three_fields word.now first.now second.now }
{
    match word {
        b"at" => read_point(first, second).map(Record::Corner),
        _ => None,
    }
}

/// What a line, without its line end, says. `None` for a line off the format. Nothing is refused here.
#[tactic(auto, unfolding(crate::specs::Records::record_of))]
pub(crate) fn read_record(line: &[u8]) -> Option<Record>
    ensures { result ≡ record_of (split 9 line.now) }
{
    let Some((word, rest)) = split_once(line, b'\t') else {
        return one_field(line);
    };
    let Some((first, second)) = split_once(rest, b'\t') else {
        return two_fields(word, rest);
    };
    if split_once(second, b'\t').is_some() {
        return None;
    }
    three_fields(word, first, second)
}
