// Well-Known Text (document 02, R-1): which texts are of it and what they spell; its spaces and numbers read.
#![tactic(auto)]

ghost use Rattle.std.specs.Prelude.{◌≡◌, ◌≤◌, length};
ghost use Rattle.rules.specs.declared.Refusal.TheVariants as Refusal;
ghost use Rattle.grammar.specs.Tokens.{Skipped, NextRead};

pub mod numbers;

use rules::Refusal;

/// 21: the place of the first byte up to which no text of the grammar begins so, or the text's length.
#[derive(Clone, Copy, PartialEq, Eq, Debug)]
pub struct OffGrammar {
    pub place: usize,
}

impl From<OffGrammar> for Refusal {
    ghost from_gives = { λ off refusal. refusal ≡ Refusal.OffGrammar off.place };

    fn from(off: OffGrammar) -> Refusal {
        Refusal::OffGrammar(off.place)
    }
}

/// What is read from a text, and the place behind it.
pub type Read<T> = Result<(T, usize), OffGrammar>;

/// The first place of a text, from a place on, that holds no space.
pub fn skip_spaces(text: &[u8], at: usize) -> usize
    requires { at ≤ length text.now }
    ensures { Skipped text.now at result }
{
    match text[at..].iter().position(|&byte| byte != b' ') {
        Some(spaces) => at + spaces,
        None => text.len(),
    }
}

/// A place of a text, and the byte there. There is none at the text's end.
#[derive(Clone, Copy, PartialEq, Eq, Debug)]
pub struct NextByte {
    pub at: usize,
    pub byte: Option<u8>,
}

/// The first byte of a text, from a place on, that is no space, and its place.
pub fn next_byte(text: &[u8], at: usize) -> NextByte
    requires { at ≤ length text.now }
    ensures { NextRead text.now at result }
{
    let at = skip_spaces(text, at);
    NextByte {
        at,
        byte: text.get(at).copied(),
    }
}
