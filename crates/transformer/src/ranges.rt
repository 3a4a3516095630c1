// What is turned away: fields out of range, and fields that do not go together.
ghost use Rattle.std.specs.Prelude.{◌≡◌, true, ◌||◌};
ghost use Rattle.transformer.specs.LowSide.{energy_in_range, in_range, uk_below_U_R, overloaded};

use crate::energies::squared_energy;
use crate::{DataSheet, LowSide};

// Whether every field is in its range.
#[tactic(auto, unfolding(crate::specs::LowSide::in_range, crate::specs::LowSide::sheet_in_range))]
pub(crate) fn in_range(low: LowSide, sheet: DataSheet) -> bool
    ensures { result ≡ in_range low sheet }
{
    energy_in_range(low.active)
        & energy_in_range(low.reactive)
        & ((1 <= sheet.sn)
            & (sheet.sn <= 5_000)
            & (1 <= sheet.uk)
            & (sheet.uk <= 4_000)
            & (sheet.i0 <= 4_000)
            & (sheet.copper <= 4_000))
}

#[tactic(auto, unfolding(crate::specs::LowSide::energy_in_range))]
fn energy_in_range(energy: i32) -> bool
    ensures { result ≡ energy_in_range energy }
{
    (-300_000 <= energy) & (energy <= 300_000)
}

// Whether uk is below uR, or the apparent power above twice the rated one. In whole numbers: uR is 100 times the
// copper losses over Sn, in the unit of uk; twice Sn gives 50 times Sn kVAh in a quarter-hour.
pub(crate) fn is_implausible(low: LowSide, sheet: DataSheet) -> bool
    requires { in_range low sheet ≡ true }
    ensures { result ≡ (uk_below_U_R sheet || overloaded low sheet) }
{
    let sn = sheet.sn as u64;
    let uk = sheet.uk as u64;
    let copper = 100 * (sheet.copper as u64);
    let most = 50 * sn;
    (uk * sn < copper) | (most * most < squared_energy(low))
}
