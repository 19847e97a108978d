//! The parts of a text, and the numbers that it says. A text is bytes, which need not be UTF-8.
ghost use Rattle.std.specs.Prelude.{◌≤◌, ◌<◌, ◌↔◌, IsTrue};

/// Whether a character ends a line: a newline, or one below it.
pub(crate) fn ends_line(character: &u8) -> bool
    ensures { IsTrue result ↔ (character.now ≤ 10) }
{
    *character <= b'\n'
}

/// Whether a character ends a word: a blank, or one below it.
pub(crate) fn ends_word(character: &u8) -> bool
    ensures { IsTrue result ↔ (character.now ≤ 32) }
{
    *character <= b' '
}

/// The value of a hexadecimal digit, a small letter being none, which `to_digit` takes for one; 0 of any other character.
fn digit(character: u8) -> u32
    ensures { result < 16 }
{
    match character {
        b'0'..=b'9' => u32::from(character - b'0'),
        b'A'..=b'F' => u32::from(character - b'A') + 10,
        _ => 0,
    }
}

/// The number that hexadecimal digits say, of which the last eight count.
pub(crate) fn number(digits: &[u8]) -> u32 {
    digits.iter().fold(0, |value: u32, character| (value << 4) | digit(*character))
}

/// Where a word stands among others, counted from 0. After their last blank or newline there is no further word.
pub(crate) fn place(word: &[u8], words: &[u8]) -> Option<usize> {
    // Each comes with the character that ends it.
    words.split_inclusive(ends_word).position(|known| known
        .strip_prefix(word)
        .is_some_and(|end| end.iter().all(ends_word)))
}
