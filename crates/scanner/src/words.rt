// Words, compared byte by byte.
ghost use Rattle.std.specs.Prelude.{◌≤◌, length};
ghost use Rattle.scanner.specs.Scanned.{WordRead};

use grammar::OffGrammar;

/// The place behind a word that is wanted at a place of a text.
pub(crate) fn word(text: &[u8], at: usize, word: &[u8]) -> Result<usize, OffGrammar>
    requires { (at ≤ 65536) × (length word.now ≤ 12) }
    ensures { WordRead text.now at word.now result }
{
    // No `zip` and `position`: the pairs end with the text, and the place of a text that ends early is asked too.
    for (n, &byte) in word.iter().enumerate() {
        let place = at + n;
        if text.get(place).copied() != Some(byte) {
            return Err(OffGrammar { place });
        }
    }
    Ok(at + word.len())
}
