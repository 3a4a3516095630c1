// Runs the conversion of the low side on the cases of a text, its standard input: six numbers each, those of the
// call, with `#` before a comment. A line printed has the number answered, take and supply. The answers that are
// due, in the file `stdout`, are those of the reader of the same text in tests/oracle.
#![tactic(auto)]

mod numbers;
mod words;

use numbers::{signed, size};
use transformer::{DataSheet, HighSide, LowSide, convert};
use words::Words;

// Standard input and standard output, by their numbers: no crate may list `libc`, which names them.
const STDIN_FILENO: i32 = 0;

const STDOUT_FILENO: i32 = 1;

fn main() {
    let mut input = io::large_buffer();
    let count = io::read_full(STDIN_FILENO, &mut input);
    if count == 65_536 {
        io::write_all(STDOUT_FILENO, b"too long a text");
    }
    run(&input[..count]);
}

// Every case of the text; past 65,536 of them it stops.
fn run(text: &[u8]) {
    let mut words = Words::of(text);
    for _ in 0..65_536 {
        let Some((low, sheet)) = case_of(&mut words) else {
            break;
        };
        show(low, sheet);
    }
}

// The next case; none where fewer than six words are left.
fn case_of(words: &mut Words<'_>) -> Option<(LowSide, DataSheet)> {
    let low = LowSide {
        active: signed(words.next()?),
        reactive: signed(words.next()?),
    };
    let sheet = DataSheet {
        sn: size(words.next()?),
        uk: size(words.next()?),
        i0: size(words.next()?),
        copper: size(words.next()?),
    };
    Some((low, sheet))
}

// One case.
fn show(low: LowSide, sheet: DataSheet) {
    match convert(low, sheet) {
        Ok(HighSide { take, supply }) => line(0, take, supply),
        Err(refusal) => line(u32::from(refusal), 0, 0),
    }
}

// A line of three numbers.
fn line(answer: u32, take: u32, supply: u32) {
    figure(answer, b" ");
    figure(take, b" ");
    figure(supply, b"\n");
}

// A number in decimal, and what stands behind it.
fn figure(n: u32, behind: &[u8]) {
    io::print_decimal(STDOUT_FILENO, u64::from(n));
    io::write_all(STDOUT_FILENO, behind);
}
