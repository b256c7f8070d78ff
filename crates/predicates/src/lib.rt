// Exact predicates on points (src/predicates.rs; document 01, item 2).
#![tactic(auto)]

ghost use Rattle.std.specs.Prelude.{◌≡◌, true, ◌-ℤ◌};
ghost use Rattle.integers.specs.Signs.{sign_of};
ghost use Rattle.integers.specs.Words.{value_of, wide_value_of};
ghost use Rattle.predicates.specs.Turn.{is_narrow, AllNarrow, orientation, on_segment};

use geom::{Point, Rect};
use integers::{
    Sign, Signed, SignedWide, difference, sign_of, signed_difference, signed_product, top_bit,
};

// 2^62: numbers from -2^62 to before it are those that 63 bits hold.
const NARROW: i64 = 1 << 62;

// Whether 63 bits hold a coordinate, so that 64 hold its difference from any other such one. All of grid and doubled points are so narrow.
fn is_narrow(z: i64) -> bool
    ensures { result ≡ is_narrow z }
{
    (-NARROW <= z) & (z < NARROW)
}

// The exact difference of two numbers of 63 bits, a plain one.
fn narrow_difference(a: i64, b: i64) -> Signed
    requires { (is_narrow a ≡ true) × (is_narrow b ≡ true) }
    ensures { value_of result ≡ a -ℤ b }
{
    difference(a - b, 0)
}

// The turn of three points of 63-bit coordinates: the top bit of its words is the borrow.
fn narrow_turn(ax: i64, ay: i64, bx: i64, by: i64, cx: i64, cy: i64) -> SignedWide
    requires { AllNarrow ax ay bx by cx cy }
    ensures { wide_value_of result ≡ orientation (record { x = ax; y = ay }) (record { x = bx; y = by }) (record { x = cx; y = cy }) }
{
    let p = signed_product(narrow_difference(bx, ax), narrow_difference(cy, ay));
    let q = signed_product(narrow_difference(by, ay), narrow_difference(cx, ax));
    let turn = signed_difference(p, q);
    SignedWide {
        borrow: top_bit(turn.words),
        ..turn
    }
}

// The turn of any three points.
fn any_turn(ax: i64, ay: i64, bx: i64, by: i64, cx: i64, cy: i64) -> SignedWide
    ensures { wide_value_of result ≡ orientation (record { x = ax; y = ay }) (record { x = bx; y = by }) (record { x = cx; y = cy }) }
{
    let p = signed_product(difference(bx, ax), difference(cy, ay));
    let q = signed_product(difference(by, ay), difference(cx, ax));
    signed_difference(p, q)
}

/// The exact turn of the points (ax, ay), (bx, by) and (cx, cy), twice the signed area of their triangle, in two words and a borrow
/// (document 02, R-2). They are enough for any three points: the triangle lies in a square of side 2^64 - 1. Coordinates are taken one by
/// one, so that they are handed over in registers: with points ring by ring takes 1.1 to 1.45 of the time.
pub fn turn_words(ax: i64, ay: i64, bx: i64, by: i64, cx: i64, cy: i64) -> SignedWide
    ensures { wide_value_of result ≡ orientation (record { x = ax; y = ay }) (record { x = bx; y = by }) (record { x = cx; y = cy }) }
{
    if is_narrow(ax)
        & is_narrow(ay)
        & is_narrow(bx)
        & is_narrow(by)
        & is_narrow(cx)
        & is_narrow(cy)
    {
        return narrow_turn(ax, ay, bx, by, cx, cy);
    }
    any_turn(ax, ay, bx, by, cx, cy)
}

/// The side of the line from a to b on which c lies: positive to its left, negative to its right, zero on it.
/// Exact for any three points, grid, doubled or beyond.
pub fn orient(a: Point, b: Point, c: Point) -> Sign
    ensures { result ≡ sign_of (orientation a b c) }
{
    sign_of(turn_words(a.x, a.y, b.x, b.y, c.x, c.y))
}

/// Whether p lies on the closed segment from a to b.
pub fn on_segment(a: Point, b: Point, p: Point) -> bool
    ensures { result ≡ on_segment a b p }
{
    Rect::new(a, b).contains_point(p) && orient(a, b, p) == Sign::Zero
}
