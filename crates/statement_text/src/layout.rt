// The text of a statement, as document 01, "Statement", lays it out, with the last line of document 02,
// Ticket 1.
ghost use Rattle.std.specs.Prelude.{◌≡◌, ◌+◌, ◌≤◌, length, take};
ghost use Rattle.statement_text.specs.Steps.{Behind};
ghost use Rattle.statement_text.specs.Text.{refused_text, month_text, columns_text, ended, point_text, points_text, total_text, text_of, page_of};

use crate::{Line, Page, Statement};

// The page that is printed for a statement, or for a refusal by its number: this crate knows no call whose refusals it
// could name.
pub fn text_of(statement: Result<Statement, u32>) -> Page
    ensures value { result ≡ page_of (text_of statement) }
    ensures length_in_bounds { result.length ≤ length result.bytes }
{
    let blank = Page::blank();
    match statement {
        Ok(statement) => {
            let first = month(blank, statement);
            let above = points(first, statement.count as usize, statement.lines);
            total(above, statement.total)
        }
        Err(number) => refused(blank, number),
    }
}

// "refused N".
fn refused(page: Page, number: u32) -> Page
    requires { page.length + 29 ≤ 2048 }
    ensures behind { Behind page (refused_text number) result }
    ensures length_bound { result.length ≤ page.length + 29 }
{
    page.word(b"refused").spaced(number as u64).end()
}

// The first line, "year-month quarters entries".
fn month(page: Page, statement: Statement) -> Page
    requires { page.length + 66 ≤ 2048 }
    ensures behind { Behind page (month_text statement) result }
    ensures length_bound { result.length ≤ page.length + 66 }
{
    page.number(statement.year as u64)
        .byte(b'-')
        .two_digits(statement.month)
        .spaced(statement.quarters as u64)
        .spaced(statement.entries as u64)
        .end()
}

// The lines of the points, each behind the one before it. A count past the eight places prints all eight.
fn points(mut page: Page, count: usize, lines: [Line; 8]) -> Page
    requires { page.length + 1512 ≤ 2048 }
    ensures behind { Behind page (points_text 0 (take count lines)) result }
    ensures length_bound { result.length ≤ page.length + 1512 }
{
    let counted = &lines[..count.min(8)];
    for (number, line) in counted.iter().enumerate() {
        page = point(page, number, *line);
    }
    page
}

// The line of a point: its number, and its figures.
fn point(page: Page, number: usize, line: Line) -> Page
    requires { page.length + 189 ≤ 2048 }
    ensures behind { Behind page (point_text number line) result }
    ensures length_bound { result.length ≤ page.length + 189 }
{
    columns(page.number(number as u64), line)
}

// The last line: "total", and the figures.
fn total(page: Page, line: Line) -> Page
    requires { page.length + 174 ≤ 2048 }
    ensures behind { Behind page (total_text line) result }
    ensures length_bound { result.length ≤ page.length + 174 }
{
    columns(page.word(b"total"), line)
}

// The eight columns behind the first word of a line, and the line's end.
fn columns(page: Page, line: Line) -> Page
    requires { page.length + 169 ≤ 2048 }
    ensures behind { Behind page (ended (columns_text line)) result }
    ensures length_bound { result.length ≤ page.length + 169 }
{
    page.spaced(line.absolute)
        .spaced(line.paid)
        .spaced(line.free)
        .spaced(line.billed)
        .spaced(line.allowance)
        .spaced(line.disconnected)
        .spaced(line.credit)
        .spaced(line.debit)
        .end()
}
