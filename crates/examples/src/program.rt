//! The program of an example.
ghost use Rattle.std.specs.Prelude.{◌≤◌, length, IfSome};

use crate::text::number;

/// 256 bytes, of which those below `size` are the program. Words that stood behind it come back where it grows again.
#[derive(Drop)]
pub(crate) struct Program {
    bytes: [u8; 256],
    size: usize,
    ghost fits: { size ≤ 256 },
}

impl Program {
    /// The empty program.
    pub(crate) fn new() -> Self {
        Program {
            bytes: [0; 256],
            size: 0,
        }
    }

    /// The bytes of the program.
    pub(crate) fn memory(&self) -> &[u8]
        ensures { length result.now ≤ 256 }
    {
        &self.bytes[..self.size]
    }

    /// Puts the word of a line at its address. The program ends after it, and has no bytes where the line says no word within the 256 bytes.
    pub(crate) fn put(&mut self, line: &[u8]) {
        self.size = self.put_word(line).unwrap_or(0);
    }

    // Puts the word of a line at its address, and answers the address after it.
    fn put_word(&mut self, line: &[u8]) -> Option<usize>
        ensures { IfSome result (λ end. end ≤ 256) }
    {
        let at = number(line.get(..2)?) as usize;
        let word = number(line.get(3..11)?);
        let end = at.checked_add(4)?;
        codec::put_number(self.bytes.get_mut(at..end)?, 0, word);
        Some(end)
    }
}
