// One call of a script: making it, and putting its answer into the slice of answers.
ghost use Rattle.std.specs.Prelude.{◌≡◌, [], ◌∷◌, ◌+◌, ◌≤◌, ◌<◌, length};
ghost use Rattle.bits.specs.Fields.{with_words};
ghost use Rattle.answers.specs.Numbers.{answered};
ghost use Rattle.book.specs.Library.{lent, answer, after};
ghost use Rattle.call_script.specs.Script.{size_at, call_at};
ghost use Rattle.call_script.specs.Room.{room};
ghost use Rattle.call_answers.specs.Answers.{numbers};

use answers::answered;
use bits::put_words;
use book::{Book, Reply, Totals};
use call_answers::put_totals;
use call_script::CallKind;

// Makes the call at `at` in the script, and puts its answer into `output` from `to` on.
pub(crate) fn answer_call(
    book: Book,
    script: &[u8],
    at: usize,
    journal: &mut [u8],
    index: &mut [u16],
    output: &mut [u8],
    to: usize,
) -> Book
    requires at_nonzero { 0 < size_at script.now at }
    requires at_in_bounds { to + room (call_at script.now at) ≤ length output.old }
    ensures value { result ≡ (after book (lent journal.old index.old) (call_at script.now at)).book }
    ensures index_after { lent journal.new index.new ≡ (after book (lent journal.old index.old) (call_at script.now at)).lent }
    ensures output_after { output.new ≡ with_words output.old to (numbers (answer book (lent journal.old index.old) (call_at script.now at))) }
{
    match CallKind::try_from(script[at]) {
        Ok(CallKind::Deliver) => {
            let start = at + 2;
            let end = start + script[at + 1] as usize;
            put_reply(
                book.deliver(journal, index, &script[start..end]),
                output,
                to,
            )
        }
        Ok(CallKind::TakeBack) => put_reply(book.take_back(journal, index), output, to),
        Ok(CallKind::Close) => put_reply(book.close(journal, index), output, to),
        Ok(CallKind::Totals) => {
            let given = book.totals(journal, index);
            let totals = given.unwrap_or(Totals::none());
            put_totals(output, to, answered(&given), totals.length, totals.points);
            book
        }
        // No whole call begins so.
        Err(_) => book,
    }
}

// Puts the number of an answer into `output` from `to` on, and hands the book back.
fn put_reply(reply: Reply, output: &mut [u8], to: usize) -> Book
    requires { to + 8 ≤ length output.old }
    ensures value { result ≡ reply.book }
    ensures output_after { output.new ≡ with_words output.old to (answered reply.answer ∷ []) }
{
    put_words(output, to, &[answered(&reply.answer) as u64]);
    reply.book
}
