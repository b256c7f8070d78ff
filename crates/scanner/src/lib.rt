// A text of Well-Known Text scanned (document 02, R-1): what it spells, counted, and stored as far as tables reach.
#![tactic(auto)]

pub mod marks;
pub mod members;
pub mod polygons;
pub mod positions;
pub mod rings;
pub mod tables;
pub mod texts;
pub mod words;

/// How much of a plan the text so far gives, and whether each of its rings is closed.
#[derive(Clone, Copy, PartialEq, Eq, Debug)]
pub struct Extent {
    pub corners: usize,
    pub rings: usize,
    pub polygons: usize,
    pub closed: bool,
}

// The plan of no polygons.
pub(crate) const NO_EXTENT: Extent = Extent {
    corners: 0,
    rings: 0,
    polygons: 0,
    closed: true,
};
