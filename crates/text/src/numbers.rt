// What reading a text answers as 64-bit numbers, as it crosses the C boundary.
ghost use Rattle.std.specs.Prelude.{◌≡◌};
ghost use Rattle.text.specs.Numbers.{reading_numbers};

use lines::Size;
use rules::Refusal;

/// What reading a text answers: the refusal number or 0; the line that refusal 2 names, the table that refusal 11 names, or 0; and the plan's
/// kind (0 a list, 1 a tree) and how many corners, rings and polygons it has, all 0 where the text is refused.
#[repr(C)]
#[derive(Clone, Copy, Default)]
pub struct ReadingNumbers {
    pub refusal: usize,
    pub detail: usize,
    pub kind: usize,
    pub corners: usize,
    pub rings: usize,
    pub polygons: usize,
}

// The numbers of what reading a text answers.
impl From<Result<Size, Refusal>> for ReadingNumbers {
    ghost from_gives = { λ reading numbers. numbers ≡ reading_numbers reading };

    fn from(reading: Result<Size, Refusal>) -> ReadingNumbers {
        match reading {
            Ok(size) => ReadingNumbers {
                refusal: 0,
                detail: 0,
                kind: usize::from(size.kind),
                corners: size.corners,
                rings: size.rings,
                polygons: size.polygons,
            },
            Err(refusal) => ReadingNumbers {
                refusal: usize::from(refusal),
                detail: refusal.detail(),
                ..ReadingNumbers::default()
            },
        }
    }
}
