// The lent tables, into which a plan is stored as far as they reach.
ghost use Rattle.std.specs.Prelude.{◌≡◌, [], ◌∷◌, ◌*◌, ◌≤◌, set};
ghost use Rattle.scanner.specs.Puts.{put};

use geom::Point;

/// Stores a value at place k of a table, if it has one.
pub(crate) fn store<T: Copy>(table: &mut [T], k: usize, value: T)
    ensures { table.new ≡ set table.old k value }
{
    if k < table.len() {
        table[k] = value;
    }
}

/// Stores corner n in a coordinate table, as far as it reaches. `plans::put_corner` writes both numbers of a corner that the table holds; here
/// a table may end before either.
pub(crate) fn store_corner(table: &mut [i64], n: usize, p: Point)
    requires { n ≤ 65536 }
    ensures { table.new ≡ put (2 * n) (p.x ∷ p.y ∷ []) table.old }
{
    store(table, 2 * n, p.x);
    store(table, 2 * n + 1, p.y);
}
