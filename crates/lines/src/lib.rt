// A plan's text line by line: what each line says, the text judged, and its plan written into tables (document 01, item 10).
#![tactic(auto)]

pub mod records;
pub mod stages;
pub mod tables;

use rules::Kind;

/// A plan's kind and how many corners, rings and polygons it has. A tree has no polygons.
#[derive(Clone, Copy)]
pub struct Size {
    pub kind: Kind,
    pub corners: usize,
    pub rings: usize,
    pub polygons: usize,
}
