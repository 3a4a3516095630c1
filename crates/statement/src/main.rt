// Prints the statement of the month file on standard input.
#![tactic(auto)]

use report::printed;

// Standard input and standard output, by their numbers: no crate may list `libc`, which names them.
const STDIN_FILENO: i32 = 0;

const STDOUT_FILENO: i32 = 1;

fn main() {
    // One byte more than a month file may have: that many show that it is too long.
    let mut input = [0u8; 65_537];
    let count = io::read_full(STDIN_FILENO, &mut input);
    let page = printed(&input[..count]);
    io::write_all(STDOUT_FILENO, &page.bytes[..page.length]);
}
