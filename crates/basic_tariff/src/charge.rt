// The charge for the counted points.
ghost use Rattle.std.specs.Prelude.{◌≡◌, ◌≤◌, false, length, sum_by};
ghost use Rattle.std.specs.List.{list_any, zip};
ghost use Rattle.basic_tariff.specs.BasicTariff.{point, point_at, point_refused, share, K, refused, charge, charged};
ghost use Rattle.basic_tariff.specs.Numbers.{given};

use crate::ChargeRefusal;
use crate::ranges::is_refused;
use crate::weights::{k_factor, share};

// What the counted points cost at a fixed tariff, in rappen for a point of full weight. Each has a place in both
// slices: the energy it drew in the last 12 months, and the energy it fed in, in kWh. Places past the count are not
// read.
#[tactic(auto, unfolding(crate::specs::BasicTariff::charged, crate::specs::BasicTariff::number))]
pub fn basic_charge(
    fixed_tariff: u32,
    points: u32,
    drawn: &[u64],
    fed_in: &[u64],
) -> Result<u64, ChargeRefusal>
    ensures { given result ≡ charged fixed_tariff points drawn.now fed_in.now }
{
    if is_refused(fixed_tariff, points, drawn, fed_in) {
        return Err(ChargeRefusal::OutOfRange);
    }
    Ok(charge(fixed_tariff, points, drawn, fed_in))
}

// The tariff times the sum of K. It is divided once, behind the sum, and so nothing is rounded before.
#[tactic(auto, unfolding(crate::specs::BasicTariff::refused, crate::specs::BasicTariff::call_refused))]
fn charge(fixed_tariff: u32, points: u32, drawn: &[u64], fed_in: &[u64]) -> u64
    requires { refused fixed_tariff points drawn.now fed_in.now ≡ false }
    ensures { result ≡ charge fixed_tariff (point_at drawn.now fed_in.now) points }
{
    let count = points as usize;
    let sum = sum_of_weights(&drawn[..count], &fed_in[..count]);
    let undivided = (fixed_tariff as u64) * sum;
    undivided / 600
}

// The sum of K.
fn sum_of_weights(drawn: &[u64], fed_in: &[u64]) -> u64
    requires few { length drawn.now ≤ 8 }
    requires accepted { list_any (λ p. point_refused (point p.0 p.1)) (zip drawn.now fed_in.now) ≡ false }
    ensures { result ≡ sum_by (λ p. K (share (point p.0 p.1))) (zip drawn.now fed_in.now) }
{
    drawn
        .iter()
        .zip(fed_in)
        .map(|(drawn, fed_in)| k_factor(share(*drawn, *fed_in)) as u64)
        .sum()
}
