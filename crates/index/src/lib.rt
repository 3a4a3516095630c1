// An index of a journal: for each point and quarter the position plus one of the entry that stands, 0 for none,
// in a slice of 16-bit numbers. `specs/Index.antt` says what each of its places holds.
#![tactic(auto)]

ghost use Rattle.std.specs.Prelude.{◌≡◌, false, not};
ghost use Rattle.index.specs.Index.{places_of, key_place, short_index, cleared, differ};

use calendar::MOST_QUARTERS;

// The places of an index of eight points.
pub const MOST_PLACES: usize = 8 * MOST_QUARTERS;

// The places of so many points.
pub fn places_of(count: u8) -> usize
    ensures { result ≡ places_of count }
{
    MOST_QUARTERS * count as usize
}

// The place of a point and quarter.
pub fn key_place(point: u8, quarter: u16) -> usize
    ensures { result ≡ key_place point quarter }
{
    MOST_QUARTERS * point as usize + quarter as usize
}

// Zeroes the places of so many points, and no others.
pub fn clear(index: &mut [u16], count: u8)
    requires { short_index count index.old ≡ false }
    ensures { index.new ≡ cleared count index.old }
{
    let places = places_of(count);
    index[..places].fill(0);
}

// Whether two indexes say the same in the places of so many points.
pub fn agree(one: &[u16], other: &[u16], count: u8) -> bool
    requires one_value { short_index count one.now ≡ false }
    requires other_value { short_index count other.now ≡ false }
    ensures { result ≡ not (differ (places_of count) one.now other.now) }
{
    let compared = places_of(count);
    let mut same = true;
    // Without leaving early, many places are compared at once; `==` of the parts was a sixth slower.
    for (said, due) in one[..compared].iter().zip(&other[..compared]) {
        same &= said == due;
    }
    same
}
