// The lines that are printed for the calls of a script.
use call_script::{CallKind, room_at, size_at};

// Standard output, by its number: no crate may list `libc`, which names it.
pub(crate) const STDOUT_FILENO: i32 = 1;

// Prints the answer to each call of the script. The answers stand one after the other.
pub(crate) fn print_answers(script: &[u8], answers: &[u8]) {
    let mut calls = script;
    let mut left = answers;
    // Each call takes a byte at least, so there are no more calls than bytes.
    for _ in script {
        let size = size_at(calls, 0);
        if size == 0 {
            return;
        }
        let Some((answer, behind)) = left.split_at_checked(room_at(calls, 0)) else {
            return;
        };
        print_answer(calls, answer);
        left = behind;
        calls = calls.get(size..).unwrap_or(&[]);
    }
}

// Prints a line for the call that these bytes begin with, and for totals eight more.
fn print_answer(calls: &[u8], answer: &[u8]) {
    let Some(byte) = calls.first() else {
        return;
    };
    match CallKind::try_from(*byte) {
        Ok(CallKind::Deliver) => print_line(b"deliver", answer),
        Ok(CallKind::TakeBack) => print_line(b"take_back", answer),
        Ok(CallKind::Close) => print_line(b"close", answer),
        Ok(CallKind::Totals) => print_totals(answer),
        Err(_) => {}
    }
}

// Prints number and length, and a line for each place.
fn print_totals(answer: &[u8]) {
    let Some((first, figures)) = answer.split_at_checked(16) else {
        return;
    };
    print_line(b"totals", first);
    for (place, bytes) in figures.chunks_exact(64).enumerate() {
        io::print_decimal(STDOUT_FILENO, place as u64);
        print_line(b"", bytes);
    }
}

// Prints a word and numbers of eight bytes, a space before each, and ends the line.
fn print_line(word: &[u8], bytes: &[u8]) {
    say(word);
    for number in bytes.chunks_exact(8) {
        say(b" ");
        io::print_decimal(STDOUT_FILENO, number_in(number));
    }
    say(b"\n");
}

// The number in the first eight bytes, most significant first.
fn number_in(bytes: &[u8]) -> u64 {
    bytes
        .first_chunk()
        .map_or(0, |bytes| u64::from_be_bytes(*bytes))
}

// Prints a text.
pub(crate) fn say(text: &[u8]) {
    io::write_all(STDOUT_FILENO, text);
}
