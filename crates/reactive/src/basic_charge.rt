// The charge for weighted supply points at the fixed basic tariff.
ghost use Rattle.std.specs.Prelude.{◌≡◌};
ghost use Rattle.reactive.specs.BasicCharge.{called};

use basic_tariff::basic_charge;

// Answers 0 and puts the charge into the number; or 16 for an argument out of range, a slice with fewer places than
// points or a point that drew and fed in nothing, and leaves it as it is.
#[tactic(auto, using(crate::proofs::Lent::put, crate::proofs::Lent::kept, basic_tariff::proofs::Refusing::refused_number), unfolding(crate::specs::BasicCharge::called, basic_tariff::specs::BasicTariff::charged))]
pub fn reactive_basic_charge(
    fixed_tariff: u32,
    points: u32,
    drawn: &[u64],
    fed_in: &[u64],
    charge: &mut u64,
) -> u32
    ensures { (result, charge.new) ≡ called fixed_tariff points drawn.now fed_in.now charge.old }
{
    match basic_charge(fixed_tariff, points, drawn, fed_in) {
        Ok(rappen) => {
            *charge = rappen;
            0
        }
        Err(refusal) => u32::from(refusal),
    }
}
