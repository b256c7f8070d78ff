// What reading and writing Well-Known Text answer as 64-bit numbers, as they cross the C boundary.
ghost use Rattle.std.specs.Prelude.{◌≡◌};
ghost use Rattle.wkt.specs.Numbers.{read_numbers, write_numbers};

use lines::Size;
use rules::Refusal;

/// What reading answers: the refusal number or 0; the place that refusal 21 names, the table that refusal 11 names, or 0; and how many
/// corners, rings and polygons the plan has, all 0 where the text is refused.
#[repr(C)]
#[derive(Clone, Copy, Default)]
pub struct ReadNumbers {
    pub refusal: usize,
    pub detail: usize,
    pub corners: usize,
    pub rings: usize,
    pub polygons: usize,
}

/// What writing answers: the refusal number or 0; the table that refusal 11 names, or 0; and how many bytes were written.
#[repr(C)]
#[derive(Clone, Copy, Default)]
pub struct WriteNumbers {
    pub refusal: usize,
    pub table: usize,
    pub length: usize,
}

// The numbers of what reading answers.
impl From<Result<Size, Refusal>> for ReadNumbers {
    ghost from_gives = { λ reading numbers. numbers ≡ read_numbers reading };

    fn from(reading: Result<Size, Refusal>) -> ReadNumbers {
        match reading {
            Ok(size) => ReadNumbers {
                refusal: 0,
                detail: 0,
                corners: size.corners,
                rings: size.rings,
                polygons: size.polygons,
            },
            Err(refusal) => ReadNumbers {
                refusal: usize::from(refusal),
                detail: refusal.detail(),
                ..ReadNumbers::default()
            },
        }
    }
}

// The numbers of what writing answers.
impl From<Result<usize, Refusal>> for WriteNumbers {
    ghost from_gives = { λ writing numbers. numbers ≡ write_numbers writing };

    fn from(writing: Result<usize, Refusal>) -> WriteNumbers {
        match writing {
            Ok(length) => WriteNumbers {
                refusal: 0,
                table: 0,
                length,
            },
            Err(refusal) => WriteNumbers {
                refusal: usize::from(refusal),
                table: refusal.detail(),
                ..WriteNumbers::default()
            },
        }
    }
}
