// Points and closed boxes on the integer grid (src/geom.rs; document 01, item 1).
#![tactic(auto)]

ghost use Rattle.std.specs.Prelude.{◌≡◌, pos, ◌≤ℤ◌, unsigned_abs};
ghost use Rattle.geom.specs.Range.{both_within, in_range, in_doubled_range};
ghost use Rattle.geom.specs.Boxes.{empty_rect, lesser_of, greater_of, rect_of, union_of, meets, holds_point, holds_rect};

/// The largest coordinate in range, either side of zero.
pub const MAX_COORD: i64 = 1 << 40;

/// The largest doubled coordinate in range, either side of zero.
pub const MAX_DOUBLED: i64 = 1 << 41;

/// A point of the grid or, doubled, of the half-grid.
#[derive(Clone, Copy, PartialEq, Eq)]
pub struct Point {
    pub x: i64,
    pub y: i64,
}

impl Point {
    // Whether both coordinates lie within ±bound.
    fn both_within(self, bound: i64) -> bool
        requires { pos 0 ≤ℤ bound }
        ensures { result ≡ both_within (unsigned_abs bound) self }
    {
        ((-bound <= self.x) & (self.x <= bound)) & ((-bound <= self.y) & (self.y <= bound))
    }

    /// Whether both coordinates lie within ±2^40.
    pub fn in_range(self) -> bool
        ensures { result ≡ in_range self }
    {
        self.both_within(MAX_COORD)
    }

    /// Whether both coordinates of a doubled point lie within ±2^41.
    pub fn in_doubled_range(self) -> bool
        ensures { result ≡ in_doubled_range self }
    {
        self.both_within(MAX_DOUBLED)
    }

    // The lesser x and the lesser y of two points.
    fn lesser(self, other: Self) -> Self
        ensures { result ≡ lesser_of self other }
    {
        Self {
            x: self.x.min(other.x),
            y: self.y.min(other.y),
        }
    }

    // The greater x and the greater y of two points.
    fn greater(self, other: Self) -> Self
        ensures { result ≡ greater_of self other }
    {
        Self {
            x: self.x.max(other.x),
            y: self.y.max(other.y),
        }
    }
}

/// A closed box: its least and its greatest corner.
#[derive(Clone, Copy, PartialEq, Eq)]
pub struct Rect {
    pub min: Point,
    pub max: Point,
}

/// The box round no edges. It holds no point, meets no box in range, and its union with any box is that box.
pub const EMPTY_RECT: Rect = Rect {
    min: Point {
        x: i64::MAX,
        y: i64::MAX,
    },
    max: Point {
        x: i64::MIN,
        y: i64::MIN,
    },
};

impl Rect {
    /// The box of two corners, in any order.
    pub fn new(a: Point, b: Point) -> Self
        ensures { result ≡ rect_of a b }
    {
        Self {
            min: a.lesser(b),
            max: a.greater(b),
        }
    }

    /// The box round no edges.
    pub fn empty() -> Self
        ensures { result ≡ empty_rect }
    {
        EMPTY_RECT
    }

    /// The smallest box that holds both.
    pub fn union(self, other: Self) -> Self
        ensures { result ≡ union_of self other }
    {
        Self {
            min: self.min.lesser(other.min),
            max: self.max.greater(other.max),
        }
    }

    /// Whether the two closed boxes share a point.
    pub fn intersects(self, other: Self) -> bool
        ensures { result ≡ meets self other }
    {
        ((self.min.x <= other.max.x) & (other.min.x <= self.max.x))
            & ((self.min.y <= other.max.y) & (other.min.y <= self.max.y))
    }

    /// Whether the point lies in the closed box. Most points that are asked lie above it, and one test tells them.
    pub fn contains_point(self, p: Point) -> bool
        ensures { result ≡ holds_point self p }
    {
        p.y <= self.max.y && self.holds(p)
    }

    /// Whether both corners of the other box lie in this one.
    pub fn contains_rect(self, other: Self) -> bool
        ensures { result ≡ holds_rect self other }
    {
        self.holds(other.min) & self.holds(other.max)
    }

    // Whether the point lies in the closed box, by all four tests at once.
    fn holds(self, p: Point) -> bool
        ensures { result ≡ holds_point self p }
    {
        ((self.min.x <= p.x) & (p.x <= self.max.x)) & ((self.min.y <= p.y) & (p.y <= self.max.y))
    }
}

/// A row of the box table: the least x and y, then the greatest.
impl From<Rect> for [i64; 4] {
    ghost use Rattle.std.specs.Prelude.{◌≡◌};
    ghost use Rattle.geom.specs.Boxes.{row_of};

    ghost from_gives = { λ rect row. row ≡ row_of rect };

    fn from(rect: Rect) -> Self {
        [rect.min.x, rect.min.y, rect.max.x, rect.max.y]
    }
}

impl From<[i64; 4]> for Rect {
    ghost use Rattle.std.specs.Prelude.{◌≡◌};
    ghost use Rattle.geom.specs.Boxes.{rect_in};

    ghost from_gives = { λ row rect. rect ≡ rect_in row };

    fn from(row: [i64; 4]) -> Self {
        let [left, low, right, high] = row;
        Self {
            min: Point { x: left, y: low },
            max: Point { x: right, y: high },
        }
    }
}
