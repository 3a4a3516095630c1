// Runs post and write on the cases of a text, its standard input: files posted whole, each refusal with its
// index and the book handed back, and books written. docs/posting_cases.md has the cases; the answers that
// are due, in the file `stdout`, are those of the reader of the same text in tests/oracle.
#![tactic(auto)]

// Standard input, by its number: no crate may list `libc`, which names it.
const STDIN_FILENO: i32 = 0;

fn main() {
    let mut input = io::large_buffer();
    let count = io::read_full(STDIN_FILENO, &mut input);
    cases::run(&input[..count]);
}
