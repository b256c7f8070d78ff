// A decimal number of 64 bits read from a text (document 01, item 10): no leading zero, plus sign or -0.
ghost use Rattle.std.specs.Prelude.{◌≡◌, ◌+◌, ◌≤◌, pos, length};
ghost use Rattle.grammar.specs.Numbers.{whole_of, plain, minus_begun, value_begun, next_digit, begun_number};
ghost use Rattle.grammar.specs.Tokens.{wanting, within, NumberRead};

use crate::{NextByte, OffGrammar, Read, next_byte};

// The number whose text is this one's, which is not 0, and a digit behind it. `None` past 64 bits.
fn with_digit(number: i64, digit: u8) -> Option<i64>
    requires { (number ≡ pos 0 → ⊥) × (digit ≤ 9) }
    ensures { result ≡ begun_number (next_digit (value_begun (whole_of number)) digit) }
{
    // `checked_mul` multiplies to 128 bits, and long numbers take three quarters more time.
    if number < i64::MIN / 10 || i64::MAX / 10 < number {
        return None;
    }
    let tens = number * 10;
    let digit = i64::from(digit);
    if number < 0 {
        tens.checked_sub(digit)
    } else {
        tens.checked_add(digit)
    }
}

// The rest of a number whose text so far is that of this one, which is not 0.
fn more_digits(text: &[u8], at: usize, begun: i64) -> Read<i64>
    requires { (at ≤ length text.now) × (begun ≡ pos 0 → ⊥) }
    ensures { NumberRead text.now at (λ w. within w (value_begun (whole_of begun))) at result }
{
    let mut number = begun;
    for place in at..text.len() {
        let byte = text[place];
        if !byte.is_ascii_digit() {
            return Ok((number, place));
        }
        number = with_digit(number, byte - b'0').ok_or(OffGrammar { place })?;
    }
    Ok((number, text.len()))
}

// The rest of a number behind its minus: a digit that is not 0 comes first.
fn after_minus(text: &[u8], at: usize) -> Read<i64>
    requires { at ≤ length text.now }
    ensures { NumberRead text.now at (λ w. within w minus_begun) at result }
{
    match text.get(at) {
        Some(&digit @ b'1'..=b'9') => more_digits(text, at + 1, -i64::from(digit - b'0')),
        _ => Err(OffGrammar { place: at }),
    }
}

// The rest of a number behind a 0, which is all of it.
fn after_zero(text: &[u8], at: usize) -> Read<i64>
    requires { at ≤ length text.now }
    ensures { NumberRead text.now at (λ w. within w (value_begun (plain 0))) at result }
{
    match text.get(at) {
        Some(b'0'..=b'9') => Err(OffGrammar { place: at }),
        _ => Ok((0, at)),
    }
}

/// The number that is wanted at a place of a text, after any spaces. Refused with 21's place where no number stands there.
pub fn number(text: &[u8], at: usize) -> Read<i64>
    requires { at ≤ length text.now }
    ensures { NumberRead text.now at wanting (at + 1) result }
{
    let NextByte { at: start, byte } = next_byte(text, at);
    match byte {
        Some(b'-') => after_minus(text, start + 1),
        Some(b'0') => after_zero(text, start + 1),
        Some(digit @ b'1'..=b'9') => more_digits(text, start + 1, i64::from(digit - b'0')),
        _ => Err(OffGrammar { place: start }),
    }
}
