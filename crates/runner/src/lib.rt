//! The run program: runs code.bin from reset for the steps that limit.txt says, and prints the answer (Manual 15.1).
#![tactic(auto, unfolding(crate::specs::Report::answer_text))]

ghost use Rattle.std.specs.Prelude.{◌≡◌, length, replicate, IfOk, IfErr};
ghost use Rattle.codec.specs.Number.{over};
ghost use Rattle.machine.specs.Control.{reset as resetOf};
ghost use Rattle.image.specs.Image.{write_image, LONGEST};
ghost use Rattle.emulator.specs.Run.{reply_of, RefusedWith, RanFor};
ghost use Rattle.std.specs.Counts.{IsPrefixLen};
ghost use Rattle.console.specs.Limit.{limit_number};
ghost use Rattle.runner.specs.Report.{pc_of, answer_text, report_of};

use console::Line;
use emulator::Ran;
use machine::Refusal;
use std::convert::AsSlice;
use std::fs;
use std::io::{Print, Read};
use std::rt::Files;

// ---- the report

/// The machine image at reset, at the front of the longest image's 720 bytes; the bytes behind it are 0.
#[tactic(auto, unfolding(emulator::specs::Reset::reset_call, emulator::specs::Outcome::image_call, word::specs::Choice::choices))]
pub fn reset_image() -> [u8; image::LONGEST]
    ensures { result ≡ over (write_image resetOf) (replicate LONGEST 0) }
{
    let mut bytes = [0u8; image::LONGEST];
    // There is room for the image.
    let _ = emulator::reset(&mut bytes);
    bytes
}

/// The program counter that an image at the front of a buffer says.
#[tactic(auto, using(crate::proofs::Buffers::pc_read))]
fn pc(buffer: &[u8]) -> u32
    requires { length buffer.now ≡ LONGEST }
    ensures { result ≡ pc_of buffer.now }
{
    codec::number_at(buffer, 4 * machine::words::POSITION)
}

/// The line for an answer's numbers, whatever they are, and the buffer that holds the new image: steps, ending and PC; of a refusal its number alone.
pub fn numbered_line(answer: Result<(u32, u32), u32>, buffer: &[u8]) -> Line
    requires { length buffer.now ≡ LONGEST }
    ensures ran { IfOk answer (λ (steps, ending). result.bytes ≡ answer_text (RanFor steps ending) buffer.now) }
    ensures refused { IfErr answer (λ n. result.bytes ≡ answer_text (RefusedWith n) buffer.now) }
{
    match answer {
        Ok((steps, ending)) => console::ran_line(steps, ending, pc(buffer)),
        Err(n) => console::refusal_line(n),
    }
}

/// The same for what a run call answers.
pub fn line(answer: Result<Ran, Refusal>, buffer: &[u8]) -> Line
    requires { length buffer.now ≡ LONGEST }
    ensures { result.bytes ≡ answer_text (reply_of answer) buffer.now }
{
    match answer {
        Ok(ran) => numbered_line(Ok((ran.steps, ran.ending.number())), buffer),
        Err(why) => numbered_line(Err(why.number()), buffer),
    }
}

/// The step limit that a text says, as a run call takes it; of a text that says none the largest number, which the call refuses.
pub fn limit(text: &[u8]) -> u32
    ensures { result ≡ limit_number text.now }
{
    console::limit_of(text).unwrap_or(u32::MAX)
}

/// The line that the run program prints for the bytes of code.bin and of limit.txt.
pub fn report(code: &[u8], text: &[u8]) -> Line
    ensures { result.bytes ≡ report_of code.now text.now }
{
    let start = reset_image();
    let mut cells = [0u32; 4096];
    let requests = [0u32; 0];
    let mut buffer = [0u8; image::LONGEST];
    let answer = emulator::run(
        code,
        &mut cells,
        &start[..image::SHORTEST],
        &requests,
        limit(text),
        &mut buffer,
    );
    line(answer, &buffer)
}

// ---- files

/// Reads until the buffer is full, the file ends or a read fails, and answers how many bytes it put at the buffer's front.
fn read_full(file: &mut impl Read, buffer: &mut [u8]) -> usize
    ensures { IsPrefixLen result buffer.new }
{
    let mut done: usize = 0;
    while done < buffer.len() {
        let Ok(n) = file.read(&mut buffer[done..]) else {
            break
        };
        if n == 0 {
            break;
        }
        done += n;
    }
    done
}

/// Puts a file's bytes at the front of a buffer, and answers how many; a file that cannot be opened counts as empty. A path is opened only as UTF-8.
pub fn load(files: &impl Files, path: &[u8], buffer: &mut [u8]) -> usize
    ensures { IsPrefixLen result buffer.new }
{
    let Some(mut file) = str::from_utf8(path)
        .ok()
        .and_then(|path| fs::open(files, path).ok())
    else {
        return 0;
    };
    read_full(&mut file, buffer)
}

/// Writes bytes to standard output, and answers whether all were written. What is written, here and below, no contract can say.
pub fn print_bytes(out: &impl Print, bytes: &[u8]) -> bool {
    out.write_all(bytes).is_ok()
}

/// Writes a line's characters, which need not be text, to standard output, and answers whether all were written.
pub fn print(out: &impl Print, line: impl AsSlice<u8> + Drop) -> bool {
    print_bytes(out, line.as_slice())
}

/// Reads two files, and prints the report of their bytes: a program, and the steps that it is run for. Of a longer file the bytes that are read say the
/// same (proofs/Reports: report_fronts). It writes no memory of the caller's and has no result: the exit status says nothing.
pub fn run_paths(rt: &(impl Files + Print), code_path: &[u8], limit_path: &[u8]) {
    let mut code = [0u8; machine::MOST_MEMORY + 1];
    let n = load(rt, code_path, &mut code);
    let mut text = [0u8; 16];
    let m = load(rt, limit_path, &mut text);
    print(rt, report(&code[..n], &text[..m]).as_str());
}

/// The run program: code.bin and limit.txt of the folder that it is started in.
pub fn run_files(rt: &(impl Files + Print)) {
    run_paths(rt, b"code.bin", b"limit.txt");
}
