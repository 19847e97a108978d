//! Runs and lists the examples of examples.txt, which says how it is read, makes their words from the listing, and finds which of them can be reached;
//! prints a line for each run, for each word that is listed or made, and for each search.
#![tactic(auto)]

mod example;
mod program;
mod run;
mod text;

use crate::example::Example;
use crate::text::ends_line;
use std::io::Print;

// Most bytes that are read of examples.txt.
const MOST_TEXT: usize = 32768;

// Most bytes that are read of image.txt.
const MOST_NAMES: usize = 2048;

// Reads the examples line by line, and shows what they ask for.
fn show_examples(text: &[u8], image: &[u8], out: &impl Print) {
    // The names of an image's numbers, in the image's order: the words after the first line.
    let words = image.splitn(2, ends_line).nth(1);
    let names = words.unwrap_or(b"");
    // Until a title comes, the first line is one.
    let first = text.split(ends_line).next().unwrap_or(b"");
    let mut example = Example::new(first);
    for line in text.split(ends_line) {
        example.read(line, names, out);
    }
}

// Reads the two files, and runs the examples.
fn main(rt: HostRuntime) {
    let mut text = [0; MOST_TEXT];
    let n = runner::load(&rt, b"examples.txt", &mut text);
    let mut image = [0; MOST_NAMES];
    let m = runner::load(&rt, b"image.txt", &mut image);
    show_examples(&text[..n], &image[..m], &rt);
}
