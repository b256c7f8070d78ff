// Which of the four rays a look-up takes (document 01, item 6; `ray` of src/prepared.rs).
ghost use Rattle.std.specs.Prelude.{◌≡◌};
ghost use Rattle.std.specs.Int.Signed.{le_z};
ghost use Rattle.integers.specs.Words.{value_of};
ghost use Rattle.rules.specs.Rays.{distance, nearer as nearer_of, ray_of};

use geom::{Point, Rect};
use integers::{Signed, difference};
use rules::Ray;

// How far the ray goes from p to the box's side: exact, since the box of unsound tables may lie anywhere.
fn distance_to(ray: Ray, root: Rect, p: Point) -> Signed
    ensures { value_of result ≡ distance ray root p }
{
    match ray {
        Ray::Right => difference(root.max.x, p.x),
        Ray::Left => difference(p.x, root.min.x),
        Ray::Up => difference(root.max.y, p.y),
        Ray::Down => difference(p.y, root.min.y),
    }
}

// Whether the first of two distances is no greater: of two that borrowed alike the words decide, and else the one that borrowed is less.
fn no_farther(d: Signed, e: Signed) -> bool
    ensures { result ≡ le_z (value_of d) (value_of e) }
{
    if d.borrow == e.borrow {
        d.word <= e.word
    } else {
        d.borrow
    }
}

// The ray with the lesser distance, the first in a tie.
fn nearer(root: Rect, p: Point, first: Ray, second: Ray) -> Ray
    ensures { result ≡ nearer_of root p first second }
{
    if no_farther(distance_to(first, root, p), distance_to(second, root, p)) {
        first
    } else {
        second
    }
}

/// The ray that reaches the root box's side soonest, ties in the order right, left, up, down; right if there are no edges.
/// For any box and point; on the half-grid the box is the root box doubled (`doubled_rect`).
pub fn ray_of(n: usize, root: Rect, p: Point) -> Ray
    ensures { result ≡ ray_of n root p }
{
    if n == 0 {
        return Ray::Right;
    }
    let upright = nearer(root, p, Ray::Up, Ray::Down);
    let others = nearer(root, p, Ray::Left, upright);
    nearer(root, p, Ray::Right, others)
}
