// Opening a file: the fresh book of its header and points, and an index that says nothing yet.
#![tactic(auto)]

ghost use Rattle.std.specs.Prelude.{◌≡◌, ◌+◌, ◌*◌, ◌≤◌, length};
ghost use Rattle.point_record.specs.Point.{no_point};
ghost use Rattle.answers.specs.Numbers.{answered};
ghost use Rattle.opening.specs.Opening.{read_points, opening_number, master_of, void, fresh_of, handed_back, opened_book, opened_index};

use answers::Refusal;
use book::{Book, Reply};
use header_record::{Header, decode_header};
use index::{clear, places_of};
use master_data::MasterData;
use point_record::{Point, decode_point};
use quarter::{Level, Tariffs, Transformer};
use worth::Figures;

// Opens a file: a book of its month and points, with no entry yet, or the void book beside a refusal. Accepted, it
// zeroes the index's places of these points.
pub fn open(file: &[u8], index: &mut [u16]) -> Reply
    ensures answer_value { answered result.answer ≡ opening_number file.now index.old }
    ensures book_value { result.book ≡ opened_book file.now index.old }
    ensures index_after { index.new ≡ opened_index file.now index.old }
{
    match try_open(file, index) {
        Ok(book) => Reply {
            book,
            answer: Ok(()),
        },
        Err(refusal) => Reply {
            book: void(),
            answer: Err(refusal),
        },
    }
}

// The fresh book, or the first refusal, beside which the index is as it was.
fn try_open(file: &[u8], index: &mut [u16]) -> Result<Book, Refusal>
    ensures answer_value { answered result ≡ opening_number file.now index.old }
    ensures book_value { handed_back result ≡ opened_book file.now index.old }
    ensures index_after { index.new ≡ opened_index file.now index.old }
{
    if file.len() < 7 {
        return Err(Refusal::TooShort);
    }
    let header = decode_header(&file[..7]).ok_or(Refusal::WrongHeader)?;
    let count = header.points as usize;
    let entries = header.entries as usize;
    if file.len() != 7 + 21 * count + 12 * entries {
        return Err(Refusal::WrongLength);
    }
    let points = read_points(file, count).ok_or(Refusal::WrongPoint)?;
    if index.len() < places_of(header.points) {
        return Err(Refusal::ShortIndex);
    }
    clear(index, header.points);
    Ok(fresh(header, points))
}

// The points, and zeros in the places past their count; none where one of them breaks a rule.
fn read_points(file: &[u8], count: usize) -> Option<[Point; 8]>
    requires count_in_bounds { 7 + 21 * count ≤ length file.now }
    requires count_bound { count ≤ 8 }
    ensures { result ≡ read_points count file.now }
{
    let mut points = [no_point(); 8];
    // By its place, which is the point's and tells where its bytes are.
    for i in 0..count {
        let start = 7 + 21 * i;
        let end = start + 21;
        points[i] = decode_point(&file[start..end])?;
    }
    Some(points)
}

// A point of zeros.
fn no_point() -> Point
    ensures { result ≡ no_point }
{
    let none = Transformer { uk: 0, sn: 0 };
    let tariffs = Tariffs {
        payment: 0,
        billing: 0,
        penalty: 0,
    };
    Point {
        semi_active: false,
        level: Level::Kv220,
        transformers: 0,
        tariffs,
        first: none,
        second: none,
        third: none,
        fourth: none,
    }
}

// The void book, 01's word for what a refused opening hands back: closed, no points, every number 0.
pub fn void() -> Book
    ensures { result ≡ void }
{
    let master = MasterData {
        year: 0,
        month: 0,
        count: 0,
        points: [no_point(); 8],
    };
    Book {
        master,
        length: 0,
        closed: true,
        totals: [Figures::none(); 8],
    }
}

// The book of this month and these points with no entry.
fn fresh(header: Header, points: [Point; 8]) -> Book
    ensures { result ≡ fresh_of (master_of header points) }
{
    let master = MasterData {
        year: header.year,
        month: header.month,
        count: header.points,
        points,
    };
    Book {
        master,
        length: 0,
        closed: false,
        totals: [Figures::none(); 8],
    }
}
