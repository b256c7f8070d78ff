// Places, weighed against each other (document 01, item 4).
ghost use Rattle.std.specs.Prelude.{◌≡◌, cond};
ghost use Rattle.rules.specs.declared.Location.TheVariants.{Inside, Outside};
ghost use Rattle.rules.specs.Replies.{by_hole, stronger as stronger_of};
ghost use Rattle.rings.specs.Places.{flipped_by};

use rules::Location;

/// What a hole decides for its polygon, given where the point lies in the hole.
pub fn through_hole(location: Location) -> Location
    ensures { result ≡ by_hole location Inside }
{
    match location {
        Location::Outside => Location::Inside,
        Location::Inside => Location::Outside,
        Location::OnBoundary => Location::OnBoundary,
    }
}

/// Inside wins, then boundary, then outside.
pub fn stronger(a: Location, b: Location) -> Location
    ensures { result ≡ stronger_of a b }
{
    match (a, b) {
        (Location::Outside, place) => place,
        (Location::Inside, _) | (_, Location::Inside) => Location::Inside,
        (Location::OnBoundary, _) => Location::OnBoundary,
    }
}

/// A parity with one more ring: turned over if the point is inside it.
pub fn flipped(odd: bool, location: Location) -> bool
    ensures { result ≡ flipped_by odd location }
{
    odd != (location == Location::Inside)
}

/// An odd number of times round is inside.
pub fn odd_place(odd: bool) -> Location
    ensures { result ≡ cond odd Inside Outside }
{
    if odd {
        Location::Inside
    } else {
        Location::Outside
    }
}
