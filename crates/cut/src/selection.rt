// A part of a list of numbers cut in two, the lesser ones in front. Selection goes by bisection on a value and not by a pivot, so that
// no numbers make it slow.
ghost use Rattle.std.specs.Prelude.{◌≡◌, ◌<◌, ◌≤◌, length};
ghost use Rattle.cut.specs.Shuffle.{swapped};
ghost use Rattle.cut.specs.Selection.{Wider, SpansRead, PartedRead, Selected};

// Exchanges what stands at i and at j. The library's `swap` tests which of the places comes first; this one has no branch.
fn swap(values: &mut [usize], i: usize, j: usize)
    requires { (i < length values.old) × (j < length values.old) }
    ensures { values.new ≡ swapped i j values.old }
{
    let x = values[i];
    values[i] = values[j];
    values[j] = x;
}

// The least and the greatest of some numbers.
#[derive(Clone, Copy)]
struct Span {
    least: usize,
    greatest: usize,
}

// The span with one number more.
fn wider(span: Span, x: usize) -> Span
    requires { span.least ≤ span.greatest }
    ensures { Wider span.least span.greatest x result.least result.greatest }
{
    Span {
        least: span.least.min(x),
        greatest: span.greatest.max(x),
    }
}

// The span of a part, and how many numbers were compared to find it.
#[derive(Clone, Copy)]
struct Scan {
    span: Span,
    reads: usize,
}

// The least and the greatest of the numbers at the places from lo to hi, of which there is one. Each number is counted when it is read and
// no length is taken for the count: so it says what the code reads (docs/DECISIONS.md).
fn span_of(values: &[usize], lo: usize, hi: usize) -> Scan
    requires { (lo < hi) × (hi ≤ length values.now) }
    ensures { SpansRead values.now lo hi result.span.least result.span.greatest result.reads }
{
    let x = values[lo];
    let mut span = Span {
        least: x,
        greatest: x,
    };
    let mut seen: usize = 1;
    for i in lo + 1..hi {
        span = wider(span, values[i]);
        seen += 1;
    }
    Scan { span, reads: seen }
}

// Where a partition came to an end, and how many numbers it compared.
#[derive(Clone, Copy)]
struct Split {
    // The place of the first number above the value.
    place: usize,
    reads: usize,
}

// Moves the numbers of [lo, hi) that are at most v in front of the others. Each number changes places with the first one above v, also
// where it is above v itself: so only the count of those in front hangs on the comparison, and no branch, which would cost more than the
// swap where it goes either way as often. Each number is counted when it is read to be compared with v; what `swap` reads again to move
// it is not.
fn partition(values: &mut [usize], lo: usize, hi: usize, v: usize) -> Split
    requires { (lo ≤ hi) × (hi ≤ length values.old) }
    ensures { PartedRead lo hi v values.old values.new result.place result.reads }
{
    let mut place = lo;
    let mut reads: usize = 0;
    for i in lo..hi {
        reads += 1;
        let x = values[i];
        swap(values, place, i);
        if x <= v {
            place += 1;
        }
    }
    Split { place, reads }
}

/// Reorders [lo, hi) so that no number before `middle` exceeds one from `middle` on, and returns how many keys it compared, as its
/// steps counted them: at most 65 times the part's length, whatever the numbers are, since each of at most 64 partitions halves the
/// values that are left.
pub fn select(values: &mut [usize], lo: usize, middle: usize, hi: usize) -> usize
    requires { (lo < hi) × (lo ≤ middle) × (middle ≤ hi) × (hi ≤ length values.old) × (hi ≤ 1048576) }
    ensures { Selected lo middle hi values.old values.new result }
{
    let scan = span_of(values, lo, hi);
    let mut p = lo;
    let mut q = hi;
    let mut a = scan.span.least;
    let mut b = scan.span.greatest;
    let mut reads = scan.reads;
    for _ in 0usize..64 {
        if middle <= p || q <= middle || b <= a {
            return reads;
        }
        let v = a + (b - a) / 2;
        let split = partition(values, p, q, v);
        reads += split.reads;
        if middle <= split.place {
            q = split.place;
            b = v;
        } else {
            p = split.place;
            a = v + 1;
        }
    }
    reads
}
