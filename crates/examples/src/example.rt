//! An example, and what its lines show.
use crate::program::Program;
use crate::run::Run;
use crate::text::{ends_word, number};
use encoder::{Choice, Guard};
use isa::{Instruction, Operation, Role, Width};
use machine::Refusal;
use runner::print_bytes;
use std::io::Print;

/// An example: its title, its program and the requests of its steps.
#[derive(Drop)]
pub(crate) struct Example<'a> {
    title: &'a [u8],
    program: Program,
    requests: [u32; 16],
}

// The width that hexadecimal digits say; any number but 32 counts as 16.
fn width(digits: &[u8]) -> Width {
    Width::from(number(digits) == 0x32)
}

// The word that is made from what a listing shows of a word.
fn written(word: u32, width: Width) -> Result<u32, Refusal> {
    let i = Instruction::decode(word, width);
    let operation = Operation::from_number(i.opcode);
    let value = |role: Role| i.operand(role).cast_signed();
    let choice = Choice {
        operation: i.opcode,
        condition: i.conditional.then_some(Guard {
            creg: i.creg,
            condition: i.condition,
        }),
        operands: operation.roles(width).map(|role| role.map_or(0, value)),
    };
    encoder::encode(width, choice)
}

// Shows a number in eight hexadecimal digits.
fn show_number(number: u32, out: &impl Print) {
    let mut digits = [0; 8];
    console::put_digits(&mut digits, 0, 16, 8, number);
    print_bytes(out, &digits);
}

// Shows the number of a refusal.
fn show_refusal(refusal: Refusal, out: &impl Print) {
    print_bytes(out, b"refusal ");
    runner::print(out, console::refusal_line(refusal.number()).as_str());
}

impl<'a> Example<'a> {
    /// An example with an empty program and no requests.
    pub(crate) fn new(title: &'a [u8]) -> Self {
        Example {
            title,
            program: Program::new(),
            requests: [0; 16],
        }
    }

    /// Reads a line, and shows what it asks for. What cannot be printed is left out, and what comes after it is still tried.
    pub(crate) fn read(&mut self, line: &'a [u8], names: &[u8], out: &impl Print) {
        // The first character says what a line is, in examples.txt.
        match line {
            [(b'a'..), ..] => self.begin(line),
            [b'>', ..] => self.show_run(line, names, out),
            [b'=', ..] => self.show_listing(width(line), out),
            [b'<', ..] => self.show_written(width(line), out),
            [b'*', ..] => self.show_reached(line, out),
            [b'@', ..] => self.put_request(line),
            [(b'0'..), ..] => self.program.put(line),
            _ => {}
        }
    }

    // Begins a further example, with the program of this one and no requests.
    fn begin(&mut self, title: &'a [u8]) {
        self.title = title;
        self.requests = [0; 16];
    }

    // Puts the requests of a line at its step.
    fn put_request(&mut self, line: &[u8]) {
        if line.len() < 7 {
            return;
        }
        if let Some(step @ 1..=16) = console::limit_of(&line[1..3]) {
            self.requests[step as usize - 1] = number(&line[4..7]);
        }
    }

    // Runs the program for the steps that a line says, and shows the title, what the names in the line say, and what the run program would print.
    fn show_run(&self, line: &[u8], names: &[u8], out: &impl Print) {
        let Some(text) = line.get(2..) else {
            return;
        };
        let (limit, asked) = text.split_at(text.iter().position(ends_word).unwrap_or(text.len()));
        let run = Run::from_reset(self.program.memory(), &self.requests, runner::limit(limit));
        print_bytes(out, self.title);
        if !asked.is_empty() {
            print_bytes(out, b",");
            print_bytes(out, asked);
            print_bytes(out, b":");
        }
        print_bytes(out, b" ");
        for name in asked.split(ends_word).skip(1) {
            if let Some(value) = run.value(name, names) {
                show_number(value, out);
                print_bytes(out, b" ");
            }
        }
        print_bytes(out, b"| ");
        runner::print(out, run.line().as_str());
    }

    // Shows the listing of the program; nothing where it is refused.
    #[tactic(auto, unfolding(isa::specs::Decode::word_bytes))]
    fn show_listing(&self, width: Width, out: &impl Print) {
        let program = self.program.memory();
        let words = program.len() / width.bytes() as usize;
        let mut text = [0; listing::LINE * 128];
        if listing::list(program, width, &mut text).is_ok() {
            print_bytes(out, &text[..listing::LINE * words]);
        }
    }

    // Shows the word that is made from the listing of each word of the program, or the refusal.
    #[tactic(auto, using(isa::proofs::Decoded::bytes_positive))]
    fn show_written(&self, width: Width, out: &impl Print) {
        let bytes = width.bytes() as usize;
        for word in self.program.memory().chunks_exact(bytes) {
            match written(width.word_at(word, 0), width) {
                Ok(word) => {
                    show_number(word, out);
                    print_bytes(out, b"\n");
                }
                Err(refusal) => show_refusal(refusal, out),
            }
        }
    }

    // Shows the addresses of the words that can be reached from the address that a line says, in words of the width that it says, with single
    // blanks between, or the refusal.
    fn show_reached(&self, line: &[u8], out: &impl Print) {
        if line.len() < 5 {
            return;
        }
        let program = self.program.memory();
        let mut map = [0; 256];
        let start = number(&line[5..]);
        match reach::reach(program, width(&line[2..4]), start, &mut map) {
            Ok(()) => {
                let mut between = b"".as_slice();
                for (at, mark) in map[..program.len()].iter().enumerate() {
                    if *mark == 1 {
                        print_bytes(out, between);
                        show_number(at as u32, out);
                        between = b" ";
                    }
                }
                print_bytes(out, b"\n");
            }
            Err(refusal) => show_refusal(refusal, out),
        }
    }
}
