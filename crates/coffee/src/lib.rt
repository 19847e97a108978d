//! The C interface: the calls of the emulator, the listing, the encoder and the search for reachable code, with numbers and slices only
//! (Manual 14). include/coffee.h declares them for C.
#![tactic(auto)]

ghost use Rattle.std.specs.Prelude.{◌≡◌, not, eqb};
ghost use Rattle.isa.specs.Operation.{width_by};
ghost use Rattle.listing.specs.Listing.{listed, listing_call};
ghost use Rattle.encoder.specs.Encode.{encoding_of, encode_of};
ghost use Rattle.reach.specs.Call.{mapped, reach_call};
ghost use Rattle.emulator.specs.Run.{reply_of, run_call};
ghost use Rattle.emulator.specs.Outcome.{image_outcome};
ghost use Rattle.emulator.specs.Reset.{reset_call};
ghost use Rattle.emulator.specs.CarryOver.{carry_over_call};
ghost use Rattle.coffee.specs.Numbers.{answer_numbers, shown, in_numbers, encoding_number, choice_by};
ghost use Rattle.machine.specs.Machine.{memory_of};
ghost use Rattle.machine.specs.Refusal.{refused_by};

use emulator::Ran;
use encoder::{Choice, Guard};
use isa::Width;
use machine::Refusal;

/// What a run call answers, in numbers.
#[repr(C)]
#[derive(Clone, Copy)]
pub struct CoffeeAnswer {
    /// The number of the first question that is answered no, or 0 (Manual 9.2).
    pub refusal: u32,
    /// The steps done.
    pub steps: u32,
    /// 0 for the limit, or the number of a stop (Manual 9.3).
    pub ending: u32,
}

/// What a call that is done or refused answers: 0, or the number of the refusal.
fn refusal_number(answer: Result<(), Refusal>) -> u32
    ensures { result ≡ refused_by answer }
{
    match answer {
        Ok(()) => 0,
        Err(why) => why.number(),
    }
}

impl From<Result<Ran, Refusal>> for CoffeeAnswer {
    ghost use Rattle.std.specs.Prelude.{◌≡◌};
    ghost use Rattle.emulator.specs.Run.{reply_of};
    ghost use Rattle.coffee.specs.Numbers.{answer_numbers};

    ghost from_gives = { λ answer numbers. numbers ≡ answer_numbers (reply_of answer) };

    /// An answer in numbers.
    #[tactic(auto, unfolding(crate::specs::Numbers::answer_numbers))]
    fn from(answer: Result<Ran, Refusal>) -> Self {
        match answer {
            Ok(ran) => CoffeeAnswer {
                refusal: 0,
                steps: ran.steps,
                ending: ran.ending.number(),
            },
            Err(why) => CoffeeAnswer {
                refusal: why.number(),
                steps: 0,
                ending: 0,
            },
        }
    }
}

/// Runs a machine image for at most `limit` steps.
#[unsafe(no_mangle)]
pub extern "C" fn coffee_run(
    program: &[u8],
    cells: &mut [u32],
    image: &[u8],
    requests: &[u32],
    limit: u32,
    buffer: &mut [u8],
) -> CoffeeAnswer
    ensures { shown result buffer.new (memory_of cells.new) ≡ in_numbers (run_call program.now image.now (memory_of cells.old) (record { requests = requests.now; limit = limit; buffer = buffer.old })) }
{
    let answer = emulator::run(program, cells, image, requests, limit, buffer);
    CoffeeAnswer::from(answer)
}

/// Writes the image of the machine at reset to the buffer's front.
#[unsafe(no_mangle)]
pub extern "C" fn coffee_reset(buffer: &mut [u8]) -> u32
    ensures { image_outcome result buffer.new ≡ reset_call buffer.old }
{
    refusal_number(emulator::reset(buffer))
}

/// Writes the machine of an image of the earlier layout, with dividers 0, to the buffer's front.
#[unsafe(no_mangle)]
pub extern "C" fn coffee_carry_over(image: &[u8], buffer: &mut [u8]) -> u32
    ensures { image_outcome result buffer.new ≡ carry_over_call image.now buffer.old }
{
    refusal_number(emulator::carry_over(image, buffer))
}

/// Writes the listing of a program, a line for each instruction word, to the text's front; wide 0 is 16-bit words, any other number 32-bit.
#[unsafe(no_mangle)]
pub extern "C" fn coffee_listing(program: &[u8], wide: u32, text: &mut [u8]) -> u32
    ensures { listed result text.new ≡ listing_call (width_by (not (eqb wide 0))) program.now text.old }
{
    refusal_number(listing::list(program, Width::from(wide != 0), text))
}

/// A word, or 2^32 and the number of a refusal.
#[tactic(auto, unfolding(crate::specs::Numbers::encoding_number, encoder::specs::Encode::encoding_of))]
fn encoding_number(answer: Result<u32, Refusal>) -> u64
    ensures { result ≡ encoding_number (encoding_of answer) }
{
    match answer {
        Ok(word) => u64::from(word),
        Err(why) => 0x1_0000_0000 + u64::from(why.number()),
    }
}

/// Makes an instruction word from what a listing shows of it; wide 0 is 16-bit words, conditional 0 is no condition.
#[tactic(auto, unfolding(encoder::specs::Computed::encodings))]
#[unsafe(no_mangle)]
pub extern "C" fn coffee_encode(
    operation: u32,
    wide: u32,
    conditional: u32,
    creg: u32,
    condition: u32,
    a: i32,
    b: i32,
    c: i32,
    d: i32,
) -> u64
    ensures { result ≡ encoding_number (encode_of (width_by (not (eqb wide 0))) (choice_by operation (not (eqb conditional 0)) creg condition a b c d)) }
{
    let condition = if conditional != 0 {
        Some(Guard { creg, condition })
    } else {
        None
    };
    let choice = Choice {
        operation,
        condition,
        operands: [a, b, c, d],
    };
    encoding_number(encoder::encode(Width::from(wide != 0), choice))
}

/// Writes 1 to a map's byte at the address of each word that can be reached from a start address, and 0 to the others over the program's
/// length; wide 0 is 16-bit words, any other number 32-bit.
#[unsafe(no_mangle)]
pub extern "C" fn coffee_reach(program: &[u8], wide: u32, start: u32, map: &mut [u8]) -> u32
    ensures { mapped result map.new ≡ reach_call (width_by (not (eqb wide 0))) program.now start map.old }
{
    refusal_number(reach::reach(program, Width::from(wide != 0), start, map))
}
