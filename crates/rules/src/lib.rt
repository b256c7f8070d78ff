// The words of document 01: places, refusals, replies, and the number of each.
#![tactic(auto)]

ghost use Rattle.std.specs.Prelude.{◌≡◌};
ghost use Rattle.std.specs.Result.{result_ok};
ghost use Rattle.rules.specs.Numbers.{kind_named, kind_number, location_number, table_number, refusal_number, refusal_detail, reply_number};
ghost use Rattle.rules.specs.Spots.{spot_in_range};
ghost use Rattle.rules.specs.Tables.{polygons_in};

use geom::Point;

/// Where a point lies.
#[derive(Clone, Copy, PartialEq, Eq)]
pub enum Location {
    Outside,
    Inside,
    OnBoundary,
}

// The number of a place: 0 outside, 1 inside, 2 on the boundary.
impl From<Location> for usize {
    ghost from_gives = { λ location number. number ≡ location_number location };

    fn from(location: Location) -> usize {
        location as usize
    }
}

/// The lent tables that refusal 11 names.
#[derive(Clone, Copy)]
pub enum Table {
    Corners = 1,
    Rings,
    Polygons,
    Nodes,
    Edges,
    /// The output into which Well-Known Text is written (document 02, R-1).
    Output,
}

// The number of a table: 1 corners, 2 rings, 3 polygons, 4 nodes, 5 edges, 6 the output of Well-Known Text.
impl From<Table> for usize {
    ghost from_gives = { λ table number. number ≡ table_number table };

    fn from(table: Table) -> usize {
        table as usize
    }
}

/// Why a call is refused. `usize::from` gives the number, that of document 01 or of document 02's requests.
#[derive(Clone, Copy)]
pub enum Refusal {
    /// 1: the text is too long, to be read or to be written.
    TextTooLong,
    /// 2: the first line that breaks the text's rules, counted from 1.
    BadLine(usize),
    /// 3: coordinates, ring lengths and ring counts do not fit together.
    Uneven,
    /// 4: a count above its ceiling.
    TooMany,
    /// 5: no such corner.
    NoSuchCorner,
    /// 6: a corner's new place is out of range.
    PlaceOutOfRange,
    /// 11: a lent table is too short, and which.
    TableTooShort(Table),
    /// 12: a correction on a plan that is out of range.
    PlanOutOfRange,
    /// 13: the undo table is full.
    UndoFull,
    /// 14: nothing to undo.
    NothingToUndo,
    /// 15: the tables are not sound.
    Unsound,
    /// 21: a text off the grammar of Well-Known Text, and the place, from 0, at which it leaves it (document 02, R-1).
    OffGrammar(usize),
    /// 22: in Well-Known Text a ring whose ends differ or of fewer than two positions; in a plan to be written as Well-Known Text a tree or
    /// an empty ring (document 02, R-1).
    Unclosed,
}

impl Refusal {
    /// The line that refusal 2 names, the table that refusal 11 names, the place that refusal 21 names, and 0 with any other.
    pub fn detail(self) -> usize
        ensures { result ≡ refusal_detail self }
    {
        match self {
            Refusal::BadLine(line) => line,
            Refusal::TableTooShort(table) => usize::from(table),
            Refusal::OffGrammar(place) => place,
            _ => 0,
        }
    }
}

// The number of a refusal, in document 01 or document 02.
impl From<Refusal> for usize {
    ghost from_gives = { λ refusal number. number ≡ refusal_number refusal };

    fn from(refusal: Refusal) -> usize {
        match refusal {
            Refusal::TextTooLong => 1,
            Refusal::BadLine(_) => 2,
            Refusal::Uneven => 3,
            Refusal::TooMany => 4,
            Refusal::NoSuchCorner => 5,
            Refusal::PlaceOutOfRange => 6,
            Refusal::TableTooShort(_) => 11,
            Refusal::PlanOutOfRange => 12,
            Refusal::UndoFull => 13,
            Refusal::NothingToUndo => 14,
            Refusal::Unsound => 15,
            Refusal::OffGrammar(_) => 21,
            Refusal::Unclosed => 22,
        }
    }
}

/// 15: the tables are not sound. The error of what can fail with this refusal alone.
#[derive(Clone, Copy)]
pub struct Unsound;

impl From<Unsound> for Refusal {
    ghost use Rattle.rules.specs.declared.Refusal.TheVariants.{Unsound as refused_as_unsound};

    ghost from_gives = { λ _ refusal. refusal ≡ refused_as_unsound };

    fn from(_unsound: Unsound) -> Self {
        Self::Unsound
    }
}

/// A reply carries one of the three places or a refusal.
pub type Reply = Result<Location, Refusal>;

/// A point that is asked for.
#[derive(Clone, Copy)]
pub enum Spot {
    /// A point of the grid.
    OnGrid(Point),
    /// A point of the half-grid, which is named by its double.
    Doubled(Point),
}

impl Spot {
    /// Whether it is in range: within ±2^40 on the grid, its double within ±2^41 on the half-grid.
    pub fn in_range(self) -> bool
        ensures { result ≡ spot_in_range self }
    {
        match self {
            Spot::OnGrid(p) => p.in_range(),
            Spot::Doubled(p) => p.in_doubled_range(),
        }
    }
}

/// How the rings of a plan make up its region.
#[derive(Clone, Copy, PartialEq, Eq)]
pub enum Kind {
    /// A list of polygons, each an outer ring and then its holes.
    Polygons,
    /// A tree: every ring counts.
    Tree,
}

// The kind that a number names: 0 a list, 1 a tree. Refused with 15 where it is another number.
impl TryFrom<usize> for Kind {
    type Error = Unsound;

    ghost try_from_gives = { λ number kind. result_ok kind ≡ kind_named number };

    fn try_from(number: usize) -> Result<Kind, Unsound> {
        match number {
            0 => Ok(Kind::Polygons),
            1 => Ok(Kind::Tree),
            _ => Err(Unsound),
        }
    }
}

// The number of a kind: 0 for a list, 1 for a tree.
impl From<Kind> for usize {
    ghost from_gives = { λ kind number. number ≡ kind_number kind };

    fn from(kind: Kind) -> usize {
        kind as usize
    }
}

/// What a caller keeps of a prepared plan beside its tables. A plan that is out of range is document 01's marked plan.
#[derive(Clone, Copy)]
pub struct State {
    pub kind: Kind,
    pub out_of_range: bool,
    pub corners: usize,
    pub rings: usize,
    pub polygons: usize,
    pub undo_depth: usize,
}

/// The four rays on which windings are counted.
#[derive(Clone, Copy, PartialEq, Eq)]
pub enum Ray {
    Right,
    Left,
    Up,
    Down,
}

/// How many polygons a plan of this kind and with so many entries in its polygon table has: none in a tree.
pub fn polygons_in(kind: Kind, entries: usize) -> usize
    ensures { result ≡ polygons_in kind entries }
{
    if kind == Kind::Polygons { entries } else { 0 }
}

/// A reply as one signed number: the place's, or minus the refusal's.
pub fn reply_number(reply: Reply) -> i64
    ensures { result ≡ reply_number reply }
{
    match reply {
        Ok(location) => usize::from(location) as i64,
        Err(refusal) => 0 - (usize::from(refusal) as i64),
    }
}
