// Runs a list of calls on the book of a month file, and prints what each answers.
//
// Standard input is the length of the file, the file, how many bytes the journal has, how many places the index, and
// the calls. These numbers have four bytes each, most significant first.
#![tactic(auto)]

mod buffers;
mod page;

ghost use Rattle.std.specs.Prelude.{◌<◌, ◌^◌, IfSome};

use answers::Refusal;
use buffers::filled;
use call_list::run_calls;
use page::{STDOUT_FILENO, print_answers, say};

// Standard input, by its number: no crate may list `libc`, which names it.
const STDIN_FILENO: i32 = 0;

// What standard input holds.
#[derive(Clone, Copy)]
struct Input<'a> {
    file: &'a [u8],
    journal_bytes: usize,
    index_places: usize,
    script: &'a [u8],
}

fn main() {
    // A byte more than is taken, so that an input that is too long shows.
    let mut input: [u8; 1_600_001] = filled(0);
    // The longest journal and index that can be asked for, the index of a number that an opening has to overwrite.
    let mut journal: [u8; 786_432] = filled(0);
    let mut index: [u16; 32_768] = filled(65_535);
    let mut answers: [u8; 1_600_000] = filled(0);
    let count = io::read_full(STDIN_FILENO, &mut input);
    if count > 1_600_000 {
        say(b"input too long\n");
        return;
    }
    replay(&input[..count], &mut journal, &mut index, &mut answers);
}

// Lends so many bytes of the journal and places of the index as the input says.
fn replay(input: &[u8], journal: &mut [u8], index: &mut [u16], answers: &mut [u8]) {
    let Some(input) = Input::of(input) else {
        say(b"input too short\n");
        return;
    };
    let Some(journal) = journal.get_mut(..input.journal_bytes) else {
        say(b"journal too long\n");
        return;
    };
    let Some(index) = index.get_mut(..input.index_places) else {
        say(b"index too long\n");
        return;
    };
    run(input.file, input.script, journal, index, answers);
}

impl Input<'_> {
    // Finds the file, the two lengths and the calls, one after the other; none where the input ends before them.
    fn of(bytes: &[u8]) -> Option<Input<'_>> {
        let (length, behind) = length_in(bytes)?;
        let (file, behind) = behind.split_at_checked(length)?;
        let (journal_bytes, behind) = length_in(behind)?;
        let (index_places, script) = length_in(behind)?;
        Some(Input {
            file,
            journal_bytes,
            index_places,
            script,
        })
    }
}

// The number in the first four bytes, and what is behind them.
fn length_in(bytes: &[u8]) -> Option<(usize, &[u8])>
    ensures { IfSome result (λ found. found.0 < 2 ^ 32) }
{
    let (number, behind) = bytes.split_first_chunk()?;
    Some((u32::from_be_bytes(*number) as usize, behind))
}

// Makes the calls and prints the answers.
fn run(file: &[u8], script: &[u8], journal: &mut [u8], index: &mut [u16], answers: &mut [u8]) {
    match run_calls(file, script, journal, index, answers) {
        Ok(_) => {
            print_opening(0);
            print_answers(script, answers);
        }
        Err(Refusal::ShortOutput) => say(b"answers too long\n"),
        Err(refusal) => print_opening(u32::from(refusal)),
    }
}

// Prints the number that opening the file answered.
fn print_opening(number: u32) {
    say(b"open ");
    io::print_decimal(STDOUT_FILENO, u64::from(number));
    say(b"\n");
}
