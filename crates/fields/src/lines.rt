// The lines of a text, one after another (document 01, item 10).
ghost use Rattle.std.specs.Prelude.{◌≡◌, length};
ghost use Rattle.std.specs.Iterator.{at_most};
ghost use Rattle.fields.specs.Lines.{NextLine, lines_left, line_bytes, line_size, ended_part};

use crate::split_once;

/// A line of a text, without its line end.
#[derive(Clone, Copy)]
pub enum Line<'a> {
    /// What stands before a line end, byte 10.
    Ended(&'a [u8]),
    /// What stands after the last line end, where that is not empty.
    Unended(&'a [u8]),
}

impl<'a> Line<'a> {
    /// The line's bytes, without a line end.
    pub fn bytes(self) -> &'a [u8]
        ensures { result.now ≡ line_bytes self.entry }
    {
        match self {
            Line::Ended(row) | Line::Unended(row) => row,
        }
    }

    /// How many bytes the line takes in its text, with its line end where it has one.
    pub fn size(self) -> usize
        ensures { result ≡ line_size self.entry }
    {
        match self {
            Line::Ended(row) => row.len() + 1,
            Line::Unended(row) => row.len(),
        }
    }

    /// The line, where it has its line end. `None` for an unended one.
    pub fn ended(self) -> Option<&'a [u8]>
        ensures { result ≡ ended_part self.entry }
    {
        match self {
            Line::Ended(row) => Some(row),
            Line::Unended(_) => None,
        }
    }
}

/// What is left of a text that is gone over line by line.
#[derive(Clone, Copy)]
pub struct Lines<'a> {
    rest: &'a [u8],
}

impl<'a> Lines<'a> {
    /// The lines of a text. An empty text has none. Nothing is refused.
    pub fn of(text: &'a [u8]) -> Lines<'a>
        ensures { lines_left result ≡ text.now }
    {
        Lines { rest: text }
    }
}

impl<'a> Iterator for Lines<'a> {
    type Item = Line<'a>;

    ghost next_gives = { λ s r t. NextLine (lines_left s) r (lines_left t) };

    ghost remaining = { λ s. at_most (length (lines_left s)) };

    fn next(&mut self) -> Option<Line<'a>> {
        let rest = self.rest;
        if rest.is_empty() {
            return None;
        }
        match split_once(rest, b'\n') {
            Some((row, after)) => {
                self.rest = after;
                Some(Line::Ended(row))
            }
            None => {
                self.rest = &[];
                Some(Line::Unended(rest))
            }
        }
    }
}
