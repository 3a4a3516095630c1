// What bench/ times, over plain slices: posting a file, and asking for totals again and again.
ghost use Rattle.std.specs.Prelude.{◌≡◌, ◌≤◌, length};
ghost use Rattle.book.specs.Library.{lent};
ghost use Rattle.reactive.specs.Measured.{asked, measured};

use answers::answered;
use book::{Book, Totals};
use call_answers::put_totals;
use posting::post;

// The bytes that totals answers.
const ANSWER_BYTES: usize = 528;

// Posts the file, and then asks for totals `rounds` times; what the last call gave goes into the first
// 528 bytes of `answer`. Gives the number of post, or 13 where `answer` is shorter.
pub fn reactive_post_totals(
    file: &[u8],
    journal: &mut [u8],
    index: &mut [u16],
    rounds: u32,
    answer: &mut [u8],
) -> u32
    ensures { (result, (lent journal.new index.new, answer.new)) ≡ measured file.now (lent journal.old index.old) rounds answer.old }
{
    if answer.len() < ANSWER_BYTES {
        return 13;
    }
    let posted = post(file, journal, index);
    ask(posted.book, journal, index, rounds, answer);
    match posted.answer {
        Ok(()) => 0,
        Err(stopped) => u32::from(stopped.refusal),
    }
}

// Asks for totals so many times.
fn ask(book: Book, journal: &[u8], index: &[u16], rounds: u32, output: &mut [u8])
    requires { 528 ≤ length output.old }
    ensures { output.new ≡ asked rounds book (lent journal.now index.now) output.old }
{
    for _ in 0..rounds {
        let given = book.totals(journal, index);
        let totals = given.unwrap_or(Totals::none());
        put_totals(output, 0, answered(&given), totals.length, totals.points);
    }
}
