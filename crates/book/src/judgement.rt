// The numbers that come before a call's own ones: 17 and then 7, on whatever the book's fields hold.
ghost use Rattle.std.specs.Prelude.{◌≡◌};
ghost use Rattle.refusals.specs.Refusals.{first};
ghost use Rattle.answers.specs.Numbers.{answered};
ghost use Rattle.book.specs.Library.{lent, guards};

use crate::Book;
use answers::Refusal;
use audit::are_equal;
use index::places_of;
use walk::summed_afresh;

// Nothing where none of these numbers applies, else the refusal of every call on the book.
pub fn judge(book: Book, journal: &[u8], index: &[u16]) -> Result<(), Refusal>
    ensures { answered result ≡ first (guards book (lent journal.now index.now)) }
{
    if index.len() < places_of(book.master.count) {
        return Err(Refusal::ShortIndex);
    }
    let sums = summed_afresh(book.master, book.length, journal, index).ok_or(Refusal::Unsound)?;
    if !are_equal(book.totals, sums) {
        return Err(Refusal::Unsound);
    }
    Ok(())
}
