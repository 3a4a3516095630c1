// What the program prints: the statement of a month file, or its refusal.
#![tactic(auto)]

ghost use Rattle.std.specs.Prelude.{◌≡◌, map, ◌≤◌, length};
ghost use Rattle.statement_lines.specs.Lines.{line_of};
ghost use Rattle.statement_total.specs.Total.{Addable};
ghost use Rattle.report.specs.Statement.{printed, of_book, statement};

use book::Book;
use calendar::quarters_of_month;
use index::MOST_PLACES;
use posting::post;
use statement_lines::lines_of;
use statement_text::{Page, Statement, text_of};
use statement_total::total_of;

// The page that is printed for what was read from standard input.
pub fn printed(input: &[u8]) -> Page
    ensures value { result ≡ printed input.now }
    ensures length_in_bounds { result.length ≤ length result.bytes }
{
    text_of(statement_of(input))
}

// Posts what was read, and gives the figures that are handed to printing, or the number of a refusal.
fn statement_of(input: &[u8]) -> Result<Statement, u32>
    ensures { result ≡ statement input.now }
{
    // 12 is the program's own number: no call answers it.
    if input.len() > 65_536 {
        return Err(12);
    }
    let mut journal = [0u8; 65_532];
    let mut index = [0u16; MOST_PLACES];
    let posted = post(input, &mut journal, &mut index);
    if let Err(stopped) = posted.answer {
        return Err(u32::from(stopped.refusal));
    }
    Ok(report(posted.book))
}

// The figures of the book.
fn report(book: Book) -> Statement
    requires { Addable (map line_of book.totals) }
    ensures { result ≡ of_book book }
{
    let master = book.master;
    let lines = lines_of(book.totals);
    Statement {
        year: master.year,
        month: master.month,
        quarters: quarters_of_month(master.year, master.month),
        entries: book.length,
        count: master.count,
        lines,
        total: total_of(lines, master.count as usize),
    }
}
