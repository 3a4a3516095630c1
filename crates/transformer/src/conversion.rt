// The conversion, and what it puts into an entry.
ghost use Rattle.std.specs.Prelude.{◌≡◌, ◌≤◌};
ghost use Rattle.transformer.specs.Source.{QOS};
ghost use Rattle.transformer.specs.LowSide.{entered, converted};
ghost use Rattle.transformer.specs.Numbers.{given};

use crate::loss::loss;
use crate::ranges::{in_range, is_implausible};
use crate::{ConversionRefusal, DataSheet, HighSide, LowSide};

// The reactive energy of the high side as take or supply; or 14 or 15.
#[tactic(auto, unfolding(crate::specs::LowSide::converted, crate::specs::LowSide::number, crate::specs::LowSide::high_side))]
pub fn convert(low: LowSide, sheet: DataSheet) -> Result<HighSide, ConversionRefusal>
    ensures { given result ≡ converted low sheet }
{
    if !in_range(low, sheet) {
        return Err(ConversionRefusal::OutOfRange);
    }
    if is_implausible(low, sheet) {
        return Err(ConversionRefusal::Implausible);
    }
    Ok(high_side(low.reactive, loss(low, sheet)))
}

// Minus the low side's energy, plus the loss: a take where it is positive, else a supply.
fn high_side(reactive: i32, loss: u32) -> HighSide
    requires { loss ≤ 250000 }
    ensures { (result.take, result.supply) ≡ entered (QOS reactive loss) }
{
    let energy = i64::from(loss) - i64::from(reactive);
    let size = energy.unsigned_abs() as u32;
    if 0 < energy {
        HighSide {
            take: size,
            supply: 0,
        }
    } else {
        HighSide {
            take: 0,
            supply: size,
        }
    }
}
