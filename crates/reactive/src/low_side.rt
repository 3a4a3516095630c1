// A quarter-hour metered on the low-voltage side of a transformer.
ghost use Rattle.std.specs.Prelude.{◌≡◌};
ghost use Rattle.reactive.specs.LowSide.{metered, sheet, called};

use transformer::{DataSheet, LowSide, convert};

// Answers 0 and puts take and supply of the high side into the two numbers; or 14 for an argument out of range, or 15
// for arguments that do not go together, and leaves both as they are.
#[tactic(auto, using(crate::proofs::Lent::put, crate::proofs::Lent::kept, transformer::proofs::Refusing::refused_number), unfolding(crate::specs::LowSide::called, transformer::specs::LowSide::converted))]
pub fn reactive_low_side(
    active: i32,
    reactive: i32,
    rated_power: u32,
    short_circuit_voltage: u32,
    no_load_current: u32,
    copper_losses: u32,
    take: &mut u32,
    supply: &mut u32,
) -> u32
    ensures { (result, (take.new, supply.new)) ≡ called (metered active reactive) (sheet rated_power short_circuit_voltage no_load_current copper_losses) take.old supply.old }
{
    let low = LowSide { active, reactive };
    let sheet = DataSheet {
        sn: rated_power,
        uk: short_circuit_voltage,
        i0: no_load_current,
        copper: copper_losses,
    };
    match convert(low, sheet) {
        Ok(high) => {
            *take = high.take;
            *supply = high.supply;
            0
        }
        Err(refusal) => u32::from(refusal),
    }
}
