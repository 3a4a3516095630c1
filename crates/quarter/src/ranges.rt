// The ranges of document 01, "Month file", for what a quarter-hour is classified and valued by.
ghost use Rattle.std.specs.Prelude.{◌≡◌};
ghost use Rattle.quarter.specs.Ranges.{tariffs_in_range, metered_in_range};

use crate::{Metered, Tariffs};

// Whether tariffs are in their range for a point of this role.
#[tactic(auto, unfolding(crate::specs::Ranges::tariffs_in_range))]
pub fn tariffs_in_range(semi_active: bool, tariffs: Tariffs) -> bool
    ensures { result ≡ tariffs_in_range semi_active tariffs }
{
    (tariffs.payment <= 100_000)
        & (tariffs.billing <= 100_000)
        & (tariffs.penalty <= 100_000)
        & (!semi_active | (tariffs.penalty == 0))
}

// Whether what was metered is in its range.
#[tactic(auto, unfolding(crate::specs::Ranges::metered_in_range))]
pub fn metered_in_range(metered: Metered) -> bool
    ensures { result ≡ metered_in_range metered }
{
    let actual = metered.actual.count();
    let set = metered.set.count();
    (metered.take <= 1_000_000)
        & (metered.supply <= 1_000_000)
        & (actual <= 50_000)
        & (set <= 50_000)
}
