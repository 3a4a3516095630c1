// The weight of a supply point: the factor K of its share.
ghost use Rattle.std.specs.Prelude.{◌≡◌, false, ◌≤◌};
ghost use Rattle.basic_tariff.specs.BasicTariff.{point, point_refused, share, K};

use crate::k_factors::K_FACTORS;

// 02's share: the drawn part of all that a point drew and fed in, in thousandths, rounded down.
#[tactic(auto, unfolding(crate::specs::BasicTariff::point_refused, crate::specs::BasicTariff::share))]
pub(crate) fn share(drawn: u64, fed_in: u64) -> usize
    requires { point_refused (point drawn fed_in) ≡ false }
    ensures value { result ≡ share (point drawn fed_in) }
    ensures upper_bound { result ≤ 1000 }
{
    let sum = drawn + fed_in;
    (1_000 * drawn / sum) as usize
}

// K of a share, in 600ths.
pub(crate) fn k_factor(share: usize) -> u16
    requires { share ≤ 1000 }
    ensures { result ≡ K share }
{
    K_FACTORS[share]
}
