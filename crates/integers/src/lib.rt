// Exact integers: the leaves that touch 64-bit words. Everything above takes and returns their values.
#![tactic(auto)]

ghost use Rattle.std.specs.Prelude.{◌≡◌, ◌+◌, ◌*◌, ◌^◌, ◌<◌, pos, ◌+ℤ◌, ◌-ℤ◌, ◌*ℤ◌, if◌then◌else◌, unsigned_abs};
ghost use Rattle.integers.specs.Halves.{floor_half, ceiling_half};
ghost use Rattle.integers.specs.Signs.{sign_of};
ghost use Rattle.integers.specs.Words.{value_of, size_of, wide_value_of, word_pair, top_bit};

/// The sign of an integer.
#[derive(Clone, Copy, PartialEq, Eq)]
pub enum Sign {
    Negative,
    Zero,
    Positive,
}

/// A signed number of one word and a borrow: the word, less 2^64 where the word above it was borrowed from. So no number has two forms, and
/// the negative ones are those that borrowed.
#[derive(Clone, Copy)]
pub struct Signed {
    pub borrow: bool,
    pub word: u64,
}

/// A size of two words: hi · 2^64 + lo.
#[derive(Clone, Copy)]
pub struct Wide {
    pub hi: u64,
    pub lo: u64,
}

/// A signed number of two words and a borrow: hi · 2^64 + lo, less 2^128 where the word above them was borrowed from.
#[derive(Clone, Copy)]
pub struct SignedWide {
    pub borrow: bool,
    pub words: Wide,
}

/// Half of a number, rounded down, below zero too: -1 gives -1.
pub fn floor_half(z: i64) -> i64
    ensures { result ≡ floor_half z }
{
    z >> 1
}

/// Half of a number, rounded up, below zero too: -1 gives 0.
pub fn ceiling_half(z: i64) -> i64
    ensures { result ≡ ceiling_half z }
{
    z - (z >> 1)
}

// How far a number lies above the least of 64 bits, which no i64 could hold for all of them.
fn above_least(z: i64) -> u64
    ensures { pos result ≡ z +ℤ pos (2 ^ 63) }
{
    z.abs_diff(i64::MIN)
}

/// The exact difference of any two numbers.
pub fn difference(a: i64, b: i64) -> Signed
    ensures { value_of result ≡ a -ℤ b }
{
    let (word, borrow) = above_least(a).borrowing_sub(above_least(b), false);
    Signed { borrow, word }
}

/// The exact product of two sizes. The low word is multiplied apart: both words are compiled to one multiplication, and in this form what is
/// subtracted from them takes one instruction less.
pub fn product(u: u64, v: u64) -> Wide
    ensures { size_of result ≡ u * v }
{
    let (_, hi) = u.carrying_mul(v, 0);
    Wide {
        hi,
        lo: u.wrapping_mul(v),
    }
}

// The word where the flag is set, else 0.
fn word_if(flag: bool, word: u64) -> u64
    ensures { result ≡ (if flag then word else 0) }
{
    if flag { word } else { 0 }
}

/// The exact product of two signed numbers, where it is less than 2^128 in size. Where a number borrowed, its word is 2^64 more than the
/// number, and the product of the words has the other word too much in its high word: there it is taken off. Borrows choose what is taken
/// off, by conditional moves, and no branch hangs on them: no processor would foresee it.
pub fn signed_product(a: Signed, b: Signed) -> SignedWide
    requires { unsigned_abs (value_of a *ℤ value_of b) < word_pair }
    ensures { wide_value_of result ≡ value_of a *ℤ value_of b }
{
    let Wide { hi, lo } = product(a.word, b.word);
    let (once, first) = hi.borrowing_sub(word_if(a.borrow, b.word), false);
    let (twice, second) = once.borrowing_sub(word_if(b.borrow, a.word), false);
    SignedWide {
        borrow: (first != second) != (a.borrow & b.borrow),
        words: Wide { hi: twice, lo },
    }
}

/// The exact difference of any two sizes: the low words first, then the high ones with what the low ones borrowed.
pub fn subtract(p: Wide, q: Wide) -> SignedWide
    ensures { wide_value_of result ≡ pos (size_of p) -ℤ pos (size_of q) }
{
    let (lo, borrowed) = p.lo.borrowing_sub(q.lo, false);
    let (hi, borrow) = p.hi.borrowing_sub(q.hi, borrowed);
    SignedWide {
        borrow,
        words: Wide { hi, lo },
    }
}

/// The exact difference of two signed numbers, where it is less than 2^128 in size: their words are subtracted, and of what each of the
/// two borrowed and what the subtraction borrows one borrow is left.
pub fn signed_difference(p: SignedWide, q: SignedWide) -> SignedWide
    requires { unsigned_abs (wide_value_of p -ℤ wide_value_of q) < word_pair }
    ensures { wide_value_of result ≡ wide_value_of p -ℤ wide_value_of q }
{
    let d = subtract(p.words, q.words);
    SignedWide {
        borrow: (p.borrow != d.borrow) != q.borrow,
        ..d
    }
}

/// The top bit of two words. Of a number of less than 2^127 in size it is the borrow.
pub fn top_bit(w: Wide) -> bool
    ensures { result ≡ top_bit w }
{
    1 << 63 <= w.hi
}

/// The sign of a number, read off it: negative where it borrowed, else zero where both words are.
pub fn sign_of(d: SignedWide) -> Sign
    ensures { result ≡ sign_of (wide_value_of d) }
{
    if d.borrow {
        return Sign::Negative;
    }
    if (d.words.hi == 0) & (d.words.lo == 0) {
        Sign::Zero
    } else {
        Sign::Positive
    }
}
