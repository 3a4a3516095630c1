// The totals of a book restated for one entry: its figures come in, and those of the entry that it takes the
// place of go out; or the other way round.
#![tactic(auto)]

ghost use Rattle.std.specs.Prelude.{◌≡◌, ◌<◌};
ghost use Rattle.restating.specs.Steps.{worth_at_point, worth_among, worth_standing, Placed, exchanged_at};

use entry_record::Entry;
use point_record::Point;
use worth::Figures;

// The totals with one entry's figures added to those of a point, and another's taken away: the one that
// stands now comes in, and the one that stood before goes out.
pub fn restated(
    points: [Point; 8],
    totals: [Figures; 8],
    point: u8,
    incoming: Option<Entry>,
    outgoing: Option<Entry>,
) -> [Figures; 8]
    requires point_bound { point < 8 }
    requires placed { Placed incoming }
    requires placed_2 { Placed outgoing }
    ensures { result ≡ exchanged_at totals point (worth_standing points incoming) (worth_standing points outgoing) }
{
    let added = worth_standing(points, incoming);
    let removed = worth_standing(points, outgoing);
    exchange(totals, point, added, removed)
}

// What an entry is worth to its point, one of these.
fn worth_in(points: [Point; 8], entry: Entry) -> Figures
    requires { entry.point < 8 }
    ensures { result ≡ worth_among points entry }
{
    let at = entry.point as usize;
    let point = points[at];
    worth_of(point, entry)
}

// What an entry is worth at this point.
pub fn worth_of(point: Point, entry: Entry) -> Figures
    ensures { result ≡ worth_at_point point entry }
{
    let metered = entry.metered;
    Figures::of(point, point.tariffs, metered)
}

// What the entry that stands is worth; nothing where none does.
#[tactic(auto, unfolding(crate::specs::Steps::worth_standing, crate::specs::Steps::Placed))]
fn worth_standing(points: [Point; 8], standing: Option<Entry>) -> Figures
    requires { Placed standing }
    ensures { result ≡ worth_standing points standing }
{
    match standing {
        None => Figures::none(),
        Some(entry) => worth_in(points, entry),
    }
}

// The totals with figures added to those of one point, and others taken away.
#[tactic(auto, unfolding(crate::specs::Steps::exchanged_held))]
fn exchange(
    mut totals: [Figures; 8],
    point: u8,
    incoming: Figures,
    outgoing: Figures,
) -> [Figures; 8]
    requires { point < 8 }
    ensures { result ≡ exchanged_at totals point incoming outgoing }
{
    let at = point as usize;
    let stored = totals[at];
    totals[at] = stored.plus(incoming).minus(outgoing);
    totals
}
