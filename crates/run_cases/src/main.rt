//! The run program on the files of other folders: limits, lengths, a watchdog, a missing nop, missing files. A line has the path of code.bin and what
//! the run program prints.
#![tactic(auto)]

use std::io::Print;
use std::rt::Files;

// Prints the first path, and what the run program prints for the files at the two.
fn case(rt: &(impl Files + Print), code: &[u8], limit: &[u8]) {
    runner::print_bytes(rt, code);
    runner::print_bytes(rt, b": ");
    runner::run_paths(rt, code, limit);
}

// The folders one after the other. The program is that of the worked example (Manual 16.2) where nothing else is said of it.
fn main(rt: HostRuntime) {
    // a newline after the limit
    case(&rt, b"newline/code.bin", b"newline/limit.txt");
    // limit 0: no step
    case(&rt, b"limit_zero/code.bin", b"limit_zero/limit.txt");
    // the largest limit, and a loop that it ends in: A8h adds, ACh jumps back, B0h is the slot
    case(&rt, b"limit_most/code.bin", b"limit_most/limit.txt");
    // a limit that is one too large: refusal 7
    case(&rt, b"limit_high/code.bin", b"limit_high/limit.txt");
    // a limit with a letter in it: refusal 7
    case(&rt, b"letter/code.bin", b"letter/limit.txt");
    // a limit of eight digits: refusal 7
    case(&rt, b"eight_digits/code.bin", b"eight_digits/limit.txt");
    // a program of 65,536 bytes, all nop, and a limit that leads to its last word
    case(&rt, b"full/code.bin", b"full/limit.txt");
    // a program that is one byte too long, with no good limit either: refusal 1 comes first
    case(&rt, b"long/code.bin", b"long/limit.txt");
    // a watchdog that counts to 8 from the fifth step on, over a loop of three: the twelfth step ends at reset
    case(&rt, b"watchdog/code.bin", b"watchdog/limit.txt");
    // addi in place of the second nop after swm, the second word: stop 20
    case(&rt, b"nops/code.bin", b"nops/limit.txt");
    // no code.bin: the empty program stops at once
    case(&rt, b"no_code/code.bin", b"no_code/limit.txt");
    // no files at all: an empty limit.txt says no limit
    case(&rt, b"no_files/code.bin", b"no_files/limit.txt");
}
