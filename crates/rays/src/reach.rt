// The rectangle that a ray crosses, by which a walk picks the edges (document 01, items 6 and 7; `ray_segments` and `locate_doubled` of
// src/prepared.rs).
ghost use Rattle.std.specs.Prelude.{◌≡◌};
ghost use Rattle.rays.specs.Reach.{stretched as stretched_to, ray_rect, half_rect};

use geom::{Point, Rect};
use integers::{ceiling_half, floor_half};
use rules::Ray;

// The box from `low` to `high` stretched along the ray to the root box's side; one beyond that side stays as it is.
fn stretched(ray: Ray, root: Rect, low: Point, high: Point) -> Rect
    ensures { result ≡ stretched_to ray root low high }
{
    match ray {
        Ray::Right => Rect {
            min: low,
            max: Point {
                x: root.max.x.max(high.x),
                ..high
            },
        },
        Ray::Left => Rect {
            min: Point {
                x: root.min.x.min(low.x),
                ..low
            },
            max: high,
        },
        Ray::Up => Rect {
            min: low,
            max: Point {
                y: root.max.y.max(high.y),
                ..high
            },
        },
        Ray::Down => Rect {
            min: Point {
                y: root.min.y.min(low.y),
                ..low
            },
            max: high,
        },
    }
}

/// From the point to the root box's side, the point itself included. A point beyond that side: itself alone.
pub fn ray_rect(ray: Ray, root: Rect, p: Point) -> Rect
    ensures { result ≡ ray_rect ray root p }
{
    stretched(ray, root, p, p)
}

/// The same for a doubled point, among corners that are not doubled: from its halves, rounded outwards.
pub fn half_rect(ray: Ray, root: Rect, p: Point) -> Rect
    ensures { result ≡ half_rect ray root p }
{
    let low = Point {
        x: floor_half(p.x),
        y: floor_half(p.y),
    };
    let high = Point {
        x: ceiling_half(p.x),
        y: ceiling_half(p.y),
    };
    stretched(ray, root, low, high)
}
