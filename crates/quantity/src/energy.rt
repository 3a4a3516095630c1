// Energy in grains.
ghost use Rattle.std.specs.Prelude.{◌≡◌, ◌+◌, ◌-◌, ◌*◌};
ghost use Rattle.quantity.specs.Quantity.{per_kvarh, capped, grains};

use crate::{Amount, Grains};

impl Grains {
    // A number of grains. The name says the unit, which a `From` of a number would leave open.
    pub fn of(count: u64) -> Grains
        ensures { result ≡ grains count }
    {
        Grains(count)
    }

    // Energy given in kvarh.
    pub fn of_kvarh(kvarh: u32) -> Grains
        ensures { result.0 ≡ per_kvarh * kvarh }
    {
        Grains(1600 * u64::from(kvarh))
    }

    // How many grains.
    pub fn count(self) -> u64
        ensures { result ≡ self.0 }
    {
        self.0
    }

    // The sum.
    pub fn plus(self, other: Grains) -> Grains
        ensures { result.0 ≡ capped 64 (self.0 + other.0) }
    {
        Grains(self.0.saturating_add(other.0))
    }

    // The difference.
    pub fn minus(self, other: Grains) -> Grains
        ensures { result.0 ≡ self.0 - other.0 }
    {
        Grains(self.0.saturating_sub(other.0))
    }

    // What this energy is worth at a tariff.
    pub fn times(self, tariff: u64) -> Amount
        ensures { result.0 ≡ capped 64 (self.0 * tariff) }
    {
        Amount(self.0.saturating_mul(tariff))
    }
}
