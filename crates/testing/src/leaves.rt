// The leaves on which every reply rests and whose faults no reply would show.
ghost use Rattle.std.specs.Prelude.{◌≡◌, pos, ◌-ℤ◌, ◌*ℤ◌};
ghost use Rattle.integers.specs.Words.{size_of, wide_value_of};
ghost use Rattle.predicates.specs.Turn.{orientation};
ghost use Rattle.testing.specs.Leaves.{halves_of, PairOf, sign_number, words_value, turn_at};

use geom::{Point, Rect};
use integers::{
    Sign, SignedWide, Wide, ceiling_half, difference, floor_half, signed_product, subtract,
};
use predicates::{on_segment, orient, turn_words};

/// A number's halves, rounded down and up, and whether it is in range as a coordinate and as a doubled one.
#[repr(C)]
#[derive(Clone, Copy)]
pub struct Halves {
    pub floor: i64,
    pub ceiling: i64,
    pub in_range: bool,
    pub in_doubled_range: bool,
}

/// The lesser and the greater of two numbers, and their difference: its word, and whether the word above was borrowed from.
#[repr(C)]
#[derive(Clone, Copy)]
pub struct Pair {
    pub least: i64,
    pub greatest: i64,
    pub borrow: bool,
    pub word: u64,
}

/// A number in two words, and whether the word above them was borrowed from.
#[repr(C)]
#[derive(Clone, Copy)]
pub struct Words {
    pub borrow: bool,
    pub high: u64,
    pub low: u64,
}

/// The turn at three points (-1, 0 or 1), whether the third lies on the segment of the first two, whether it lies in their box, whether that
/// box meets the box of the second and the third, and whether it holds the box of the first and the third.
#[repr(C)]
#[derive(Clone, Copy)]
pub struct Turn {
    pub sign: i64,
    pub on_segment: bool,
    pub in_box: bool,
    pub meets: bool,
    pub holds: bool,
}

/// One number.
#[unsafe(no_mangle)]
pub extern "C" fn testing_halves(z: i64) -> Halves
    ensures { result ≡ halves_of z }
{
    Halves {
        floor: floor_half(z),
        ceiling: ceiling_half(z),
        in_range: Point { x: z, y: 0 }.in_range(),
        in_doubled_range: Point { x: 0, y: z }.in_doubled_range(),
    }
}

/// Two numbers.
#[unsafe(no_mangle)]
pub extern "C" fn testing_pair(a: i64, b: i64) -> Pair
    ensures { PairOf a b result }
{
    let d = difference(a, b);
    Pair {
        least: a.min(b),
        greatest: a.max(b),
        borrow: d.borrow,
        word: d.word,
    }
}

impl From<SignedWide> for Words {
    ghost from_gives = { λ d words. words_value words ≡ wide_value_of d };

    fn from(d: SignedWide) -> Words {
        Words {
            borrow: d.borrow,
            high: d.words.hi,
            low: d.words.lo,
        }
    }
}

/// The exact product of the differences a - b and c - d.
#[unsafe(no_mangle)]
pub extern "C" fn testing_product(a: i64, b: i64, c: i64, d: i64) -> Words
    ensures { words_value result ≡ (a -ℤ b) *ℤ (c -ℤ d) }
{
    Words::from(signed_product(difference(a, b), difference(c, d)))
}

// -1, 0 or 1. A function, since both types are other crates' and so no `From` may stand here.
fn sign_number(sign: Sign) -> i64
    ensures { result ≡ sign_number sign }
{
    match sign {
        Sign::Negative => -1,
        Sign::Zero => 0,
        Sign::Positive => 1,
    }
}

fn turn_at(p: Point, q: Point, r: Point) -> Turn
    ensures { result ≡ turn_at p q r }
{
    let box_of = Rect::new(p, q);
    Turn {
        sign: sign_number(orient(p, q, r)),
        on_segment: on_segment(p, q, r),
        in_box: box_of.contains_point(r),
        meets: box_of.intersects(Rect::new(q, r)),
        holds: box_of.union(Rect::empty()).contains_rect(Rect::new(p, r)),
    }
}

/// Three points (ax, ay), (bx, by), (cx, cy).
#[unsafe(no_mangle)]
pub extern "C" fn testing_turn(ax: i64, ay: i64, bx: i64, by: i64, cx: i64, cy: i64) -> Turn
    ensures { result ≡ turn_at (record { x = ax; y = ay }) (record { x = bx; y = by }) (record { x = cx; y = cy }) }
{
    turn_at(
        Point { x: ax, y: ay },
        Point { x: bx, y: by },
        Point { x: cx, y: cy },
    )
}

/// The exact turn at the same points.
#[unsafe(no_mangle)]
pub extern "C" fn testing_turn_words(ax: i64, ay: i64, bx: i64, by: i64, cx: i64, cy: i64) -> Words
    ensures { words_value result ≡ orientation (record { x = ax; y = ay }) (record { x = bx; y = by }) (record { x = cx; y = cy }) }
{
    Words::from(turn_words(ax, ay, bx, by, cx, cy))
}

/// The exact difference of two sizes of two words each.
#[unsafe(no_mangle)]
pub extern "C" fn testing_subtract(high: u64, low: u64, less_high: u64, less_low: u64) -> Words
    ensures { words_value result ≡ pos (size_of (record { hi = high; lo = low })) -ℤ pos (size_of (record { hi = less_high; lo = less_low })) }
{
    Words::from(subtract(
        Wide { hi: high, lo: low },
        Wide {
            hi: less_high,
            lo: less_low,
        },
    ))
}
