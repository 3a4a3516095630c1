// Runs the book on the cases of a text, its standard input: every call, every refusal, and books, journals
// and indexes that no call has made. docs/book_cases.md has the language of the text; the answers that are
// due, in the file `stdout`, are those of the reader of the same text in tests/oracle.
//
// A line printed is a case. It has a label, then each call with the number answered. Beside a refusal
// stands `kept` where book, journal and index are as before, and `void` beside an opening that hands back the
// void book and leaves the index. Totals has the length and, for each place that is not all 0, the place and
// its eight figures. A number that has no room where it is put prints `?`.
#![tactic(auto)]

// Standard input, by its number: no crate may list `libc`, which names it.
const STDIN_FILENO: i32 = 0;

fn main() {
    let mut input = io::large_buffer();
    let count = io::read_full(STDIN_FILENO, &mut input);
    if count == 65_536 {
        case_lines::text(b"too long a text");
    }
    cases::run(&input[..count]);
}
