// Running a list of calls on the book of a file.
ghost use Rattle.std.specs.Prelude.{◌≡◌, ◌≤◌, length};
ghost use Rattle.refusals.specs.Refusals.{first};
ghost use Rattle.bits.specs.Fields.{with_words};
ghost use Rattle.book.specs.Library as library;
ghost use Rattle.book.specs.Library.{lent};
ghost use Rattle.call_script.specs.Script.{calls};
ghost use Rattle.call_script.specs.Room.{room_of};
ghost use Rattle.call_answers.specs.Answers.{all_numbers};
ghost use Rattle.call_list.specs.Run.{run_given, running};

use crate::answering::answer_call;
use answers::Refusal;
use book::{Book, Reply};
use call_script::{fits, room_at, size_at};
use opening::open;

// Opens the file, makes the calls that the script holds, all on one journal and one index, and puts their answers
// into the first bytes of `answers`; gives how many bytes these take. Where there are too few nothing is opened.
pub fn run_calls(
    file: &[u8],
    script: &[u8],
    journal: &mut [u8],
    index: &mut [u16],
    answers: &mut [u8],
) -> Result<usize, Refusal>
    ensures { run_given result (lent journal.new index.new) answers.new ≡ running file.now script.now (lent journal.old index.old) answers.old }
{
    // Before the opening, which zeroes the index.
    if !fits(script, answers.len()) {
        return Err(Refusal::ShortOutput);
    }
    let Reply { book, answer } = open(file, index);
    answer?;
    Ok(make_calls(book, script, journal, index, answers))
}

// Makes the calls one after the other, and gives how many bytes their answers take.
fn make_calls(
    mut book: Book,
    script: &[u8],
    journal: &mut [u8],
    index: &mut [u16],
    output: &mut [u8],
) -> usize
    requires index_value { first (library.guards book (lent journal.old index.old)) ≡ 0 }
    requires script_in_bounds { room_of (calls script.now) ≤ length output.old }
    ensures value { result ≡ room_of (calls script.now) }
    ensures index_after { lent journal.new index.new ≡ (library.run book (lent journal.old index.old) (calls script.now)).lent }
    ensures output_after { output.new ≡ with_words output.old 0 (all_numbers (library.answers book (lent journal.old index.old) (calls script.now))) }
{
    let mut at = 0usize;
    let mut to = 0usize;
    // Each call takes a byte at least, so there are no more calls than bytes.
    for _ in 0..script.len() {
        let size = size_at(script, at);
        if size == 0 {
            return to;
        }
        let room = room_at(script, at);
        book = answer_call(book, script, at, journal, index, output, to);
        to += room;
        at += size;
    }
    to
}
