// Books that no call has made, for the cases of number 7 (docs/book_cases.md). What is changed comes as a row of
// numbers, as a command has them, each cut to what its field holds.
#![tactic(auto)]

ghost use Rattle.std.specs.Prelude.{◌≡◌};
ghost use Rattle.forged_books.specs.Forged.{forgery_of, place_of, point_of, figures_of};
ghost use Rattle.forged_books.specs.Forged.{with_month, with_point, with_figures, forged};

use book::Book;
use point_record::Point;
use quantity::Grains;
use quarter::{Level, Tariffs, Transformer};
use worth::Figures;

// What is forged: the month with count, length and mark; a point's record; or stored totals.
#[derive(Clone, Copy, Debug, PartialEq, Eq)]
pub enum Forgery {
    Month,
    Record,
    Totals,
}

// As a number: 0 the month, 1 a point's record, any other number stored totals.
impl From<u8> for Forgery {
    ghost from_gives = { λ number forgery. forgery ≡ forgery_of number };

    fn from(number: u8) -> Forgery {
        match number {
            0 => Forgery::Month,
            1 => Forgery::Record,
            _ => Forgery::Totals,
        }
    }
}

// The book with what is forged taken from the row.
pub fn forged(book: Book, forgery: Forgery, row: [u64; 24]) -> Book
    ensures { result ≡ forged book forgery row }
{
    match forgery {
        Forgery::Month => with_month(book, row),
        Forgery::Record => with_point(book, row),
        Forgery::Totals => with_figures(book, row),
    }
}

// Another month, count of points, length of L, and whether the book is closed.
#[tactic(auto, unfolding(crate::specs::Forged::with_month))]
fn with_month(mut book: Book, row: [u64; 24]) -> Book
    ensures { result ≡ with_month book row }
{
    let mut master = book.master;
    master.year = (row[0] % 65_536) as u16;
    master.month = (row[1] % 256) as u8;
    master.count = (row[2] % 256) as u8;
    book.master = master;
    book.length = row[3] as usize;
    book.closed = row[4] == 1;
    book
}

// Another record of a point, also of one past the count. The row's first number is its place.
#[tactic(auto, unfolding(crate::specs::Forged::with_point))]
fn with_point(mut book: Book, row: [u64; 24]) -> Book
    ensures { result ≡ with_point book row }
{
    let point = point_of(row);
    let mut master = book.master;
    let mut points = master.points;
    let place = (row[0] % 8) as usize;
    points[place] = point;
    master.points = points;
    book.master = master;
    book
}

// Other stored totals of a place, the row's first number.
#[tactic(auto, unfolding(crate::specs::Forged::with_figures))]
fn with_figures(mut book: Book, row: [u64; 24]) -> Book
    ensures { result ≡ with_figures book row }
{
    let figures = figures_of(row);
    let mut totals = book.totals;
    let place = (row[0] % 8) as usize;
    totals[place] = figures;
    book.totals = totals;
    book
}

// The point of a row, behind its place: role (1 semi-active), level (1 is 380 kV), transformers, payment
// tariff, billing tariff, penalty, and uk and Sn of the four places.
#[tactic(auto, unfolding(crate::specs::Forged::point_of))]
fn point_of(row: [u64; 24]) -> Point
    ensures { result ≡ point_of row }
{
    let tariffs = Tariffs {
        payment: (row[4] % 4_294_967_296) as u32,
        billing: (row[5] % 4_294_967_296) as u32,
        penalty: (row[6] % 4_294_967_296) as u32,
    };
    Point {
        semi_active: row[1] == 1,
        level: Level::from(row[2]),
        transformers: (row[3] % 256) as u8,
        tariffs,
        first: transformer(row[7], row[8]),
        second: transformer(row[9], row[10]),
        third: transformer(row[11], row[12]),
        fourth: transformer(row[13], row[14]),
    }
}

fn transformer(uk: u64, sn: u64) -> Transformer
    ensures { result ≡ place_of uk sn }
{
    Transformer {
        uk: (uk % 65_536) as u16,
        sn: (sn % 65_536) as u16,
    }
}

// The figures of a row, behind its place. An amount is made of as many grains at a tariff of 1.
#[tactic(auto, unfolding(crate::specs::Forged::figures_of))]
fn figures_of(row: [u64; 24]) -> Figures
    ensures { result ≡ figures_of row }
{
    Figures {
        absolute: Grains::of(row[1]),
        paid: Grains::of(row[2]),
        free: Grains::of(row[3]),
        billed: Grains::of(row[4]),
        allowance: Grains::of(row[5]),
        disconnected: Grains::of(row[6]),
        credit: Grains::of(row[7]).times(1),
        debit: Grains::of(row[8]).times(1),
    }
}
