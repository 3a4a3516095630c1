// Amounts of money, and their rappen.
ghost use Rattle.std.specs.Prelude.{◌≡◌, ◌+◌, ◌-◌};
ghost use Rattle.quantity.specs.Quantity.{capped, rappen};

use crate::Amount;

impl Amount {
    // How many, unrounded.
    pub fn count(self) -> u64
        ensures { result ≡ self.0 }
    {
        self.0
    }

    // The sum.
    pub fn plus(self, other: Amount) -> Amount
        ensures { result.0 ≡ capped 64 (self.0 + other.0) }
    {
        Amount(self.0.saturating_add(other.0))
    }

    // The difference.
    pub fn minus(self, other: Amount) -> Amount
        ensures { result.0 ≡ self.0 - other.0 }
    {
        Amount(self.0.saturating_sub(other.0))
    }

    // This amount in whole rappen, halves up. The sum of the rule itself could wrap.
    pub fn rappen(self) -> u64
        ensures { result ≡ rappen self.0 }
    {
        let count = self.0;
        let whole = count / 1_600_000;
        if count % 1_600_000 < 800_000 {
            return whole;
        }
        whole + 1
    }
}
