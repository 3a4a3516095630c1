// The master data of a book: month and points, whether they are such as a file can have, and what is outside
// them.
#![tactic(auto)]

ghost use Rattle.std.specs.Prelude.{◌≡◌, false, not, ◌||◌, ◌≤◌};
ghost use Rattle.machine.specs.Machine.{outside};
ghost use Rattle.master_data.specs.Master.{frame_of, wrong_month, wrong_point};

use calendar::quarters_of_month;
use header_record::{Header, header_in_range};
use point_record::{Point, point_in_range};

// The master data of a book: what the header and the points of its file say. No call changes them.
#[derive(Clone, Copy, Debug, PartialEq, Eq)]
pub struct MasterData {
    pub year: u16,
    pub month: u8,
    pub count: u8,
    pub points: [Point; 8],
}

// Whether a point or a quarter is outside the book.
pub fn is_outside(master: MasterData, point: u8, quarter: u16) -> bool
    requires { wrong_month master ≡ false }
    ensures { result ≡ outside (frame_of master) point quarter }
{
    (master.count <= point) | (quarters_of_month(master.year, master.month) <= quarter)
}

// Whether month, count of points and each point that is counted keep the rules of a file.
pub fn in_range(master: MasterData) -> bool
    ensures { result ≡ not (wrong_month master || wrong_point master) }
{
    if !has_month(master) {
        return false;
    }
    has_points(master)
}

// Whether year, month and count of points are those of a header.
#[tactic(auto, unfolding(crate::specs::Master::wrong_month))]
fn has_month(master: MasterData) -> bool
    ensures { result ≡ not (wrong_month master) }
{
    let header = Header {
        year: master.year,
        month: master.month,
        points: master.count,
        entries: 0,
    };
    header_in_range(header)
}

// Whether each point that is counted keeps the rules of a point.
fn has_points(master: MasterData) -> bool
    requires { master.count ≤ 8 }
    ensures { result ≡ not (wrong_point master) }
{
    let points = master.points;
    let count = master.count as usize;
    for point in &points[..count] {
        if !point_in_range(*point) {
            return false;
        }
    }
    true
}
