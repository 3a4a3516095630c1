// Writing a book as a month file.
#![tactic(auto)]

ghost use Rattle.std.specs.Prelude.{◌≡◌, true, false, ◌++◌, ◌*◌, ◌≤◌, length, take, drop};
ghost use Rattle.lists.specs.Lists.{all_of};
ghost use Rattle.point_record.specs.Point.{point_in_range};
ghost use Rattle.master_data.specs.Master.{wrong_month, wrong_point};
ghost use Rattle.audit.specs.Audit.{too_long};
ghost use Rattle.book.specs.Library.{lent};
ghost use Rattle.writing.specs.Writing.{written_points, file_of, file_length, write_given, writing};

use answers::Refusal;
use book::{Book, judge};
use header_record::{Header, encode_header};
use point_record::{Point, encode_point};

// Writes the book as a month file into the first bytes of the output, and gives the file's length.
pub fn write(book: Book, journal: &[u8], index: &[u16], output: &mut [u8]) -> Result<usize, Refusal>
    ensures { write_given result output.new ≡ writing book (lent journal.now index.now) output.old }
{
    judge(book, journal, index)?;
    let count = book.master.count as usize;
    let length = 7 + 21 * count + 12 * book.length;
    if output.len() < length {
        return Err(Refusal::ShortOutput);
    }
    write_file(book, journal, output);
    Ok(length)
}

// Writes header, points and entries. Each has a part of the output to itself and fills it, so that no
// byte past the file is lent.
fn write_file(book: Book, journal: &[u8], output: &mut [u8])
    requires master_value { wrong_month book.master ≡ false }
    requires master_value_2 { wrong_point book.master ≡ false }
    requires journal_value { too_long book.length journal.now ≡ false }
    requires book_in_bounds { file_length book ≤ length output.old }
    ensures { output.new ≡ file_of book journal.now ++ drop (file_length book) output.old }
{
    let master = book.master;
    let points = master.points;
    let count = master.count as usize;
    let entries = book.length as u32;
    let header = Header {
        year: master.year,
        month: master.month,
        points: master.count,
        entries,
    };
    let first = 7 + 21 * count;
    let held = 12 * book.length;
    let end = first + held;
    // The header of a sound book is in range, so it is written.
    encode_header(header, &mut output[..7]);
    write_points(points, count, &mut output[7..first]);
    output[first..end].copy_from_slice(&journal[..held]);
}

// Writes the points that are counted, one after the other.
fn write_points(points: [Point; 8], count: usize, output: &mut [u8])
    requires count_bound { count ≤ 8 }
    requires points_value { all_of point_in_range (take count points) ≡ true }
    requires output_len { length output.old ≡ 21 * count }
    ensures { output.new ≡ written_points (take count points) }
{
    // By its place, which is the point's and tells where its bytes go.
    for i in 0..count {
        let start = 21 * i;
        let end = start + 21;
        // The point is in range, so it is written.
        encode_point(points[i], &mut output[start..end]);
    }
}
