// What a line after the plan asks (document 01, "Trays to try").
#![tactic(auto)]

ghost use Rattle.std.specs.Prelude.{◌≡◌};
ghost use Rattle.fields.specs.Pieces.{split};
ghost use Rattle.asked.specs.Queries.{word_query, query_of, asks};

use fields::split_once;
use lines::records::read_point;
use rules::Spot;

// The word says on which grid the point is.
#[tactic(auto, unfolding(crate::specs::Queries::word_query))]
fn word_query(word: &[u8], first: &[u8], second: &[u8]) -> Option<Spot>
    ensures { result ≡ word_query word.now first.now second.now }
{
    match word {
        b"coin" => read_point(first, second).map(Spot::OnGrid),
        b"half" => read_point(first, second).map(Spot::Doubled),
        _ => None,
    }
}

/// What a line, without its line end, asks, or `None` for a line off the format. Nothing is refused here.
#[tactic(auto, unfolding(crate::specs::Queries::query_of))]
pub fn read_query(line: &[u8]) -> Option<Spot>
    ensures { result ≡ query_of (split 9 line.now) }
{
    let (word, rest) = split_once(line, b'\t')?;
    let (first, second) = split_once(rest, b'\t')?;
    if split_once(second, b'\t').is_some() {
        return None;
    }
    word_query(word, first, second)
}

/// Whether a line's first field is a query's word, so that the line ends the plan. The rest of the line may be anything.
#[tactic(auto, unfolding(crate::specs::Queries::asks))]
pub fn asks(line: &[u8]) -> bool
    ensures { result ≡ asks (split 9 line.now) }
{
    let word = match split_once(line, b'\t') {
        Some((word, _)) => word,
        None => line,
    };
    matches!(word, b"coin" | b"half")
}
