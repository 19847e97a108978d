//! A run of a program from reset, and what is left after it.
use crate::text::place;
use emulator::Ran;
use machine::Refusal;

/// What a run answered, and the image that it left at the front of the longest image's bytes.
#[derive(Drop)]
pub(crate) struct Run {
    answer: Result<Ran, Refusal>,
    image: [u8; image::LONGEST],
}

impl Run {
    /// Runs a program from reset for at most `limit` steps, with sixteen zero cells.
    pub(crate) fn from_reset(program: &[u8], requests: &[u32], limit: u32) -> Self {
        let reset = runner::reset_image();
        let mut cells = [0; 16];
        let mut image = [0; image::LONGEST];
        let answer = emulator::run(
            program,
            &mut cells,
            &reset[0..image::SHORTEST],
            requests,
            limit,
            &mut image,
        );
        Run { answer, image }
    }

    /// What a name says of the image: a number of it, or whether it is that at reset. A name that is not known says nothing.
    pub(crate) fn value(&self, name: &[u8], names: &[u8]) -> Option<u32> {
        match place(name, names) {
            Some(entry) if entry < machine::words::WORDS => {
                Some(codec::number_at(&self.image, 4 * entry))
            }
            _ if name == b"image".as_slice() => Some(u32::from(self.is_reset())),
            _ => None,
        }
    }

    // Whether the image is that at reset.
    fn is_reset(&self) -> bool {
        let reset = runner::reset_image();
        reset[0..image::SHORTEST] == self.image[0..image::SHORTEST]
    }

    /// The line that the run program would print.
    pub(crate) fn line(&self) -> console::Line {
        runner::line(self.answer, &self.image)
    }
}
