// Voltages and the margins between them, the third kind of quantity beside energy and money. Like
// those of the crate `quantity` it is a tuple struct whose field is private to its crate, and no
// function has a `requires`: a sum past the largest count is that largest count.
#![tactic(auto)]

ghost use Rattle.std.specs.Prelude.{◌≡◌, ◌+◌, ltb};
ghost use Rattle.quantity.specs.Quantity.{capped};
ghost use Rattle.voltages.specs.Voltages.{voltage};

// A voltage, or the margin between two, in hundredths of a kilovolt.
#[derive(Clone, Copy, Debug, PartialEq, Eq)]
pub struct Voltage(u32);

impl Voltage {
    // A number of hundredths of a kilovolt. No `From`, which would leave the unit open.
    pub fn of(count: u32) -> Voltage
        ensures { result ≡ voltage count }
    {
        Voltage(count)
    }

    // How many hundredths of a kilovolt.
    pub fn count(self) -> u32
        ensures { result ≡ self.0 }
    {
        self.0
    }

    // The sum.
    pub fn plus(self, other: Voltage) -> Voltage
        ensures { result.0 ≡ capped 32 (self.0 + other.0) }
    {
        Voltage(self.0.saturating_add(other.0))
    }

    // Whether this voltage is below `other` with a margin added. Since the margin is added to one
    // side and never taken from the other, no difference can fall below 0.
    pub fn is_below(self, other: Voltage, margin: Voltage) -> bool
        ensures { result ≡ ltb self.0 (other.0 + margin.0) }
    {
        u64::from(self.0) < u64::from(other.0) + u64::from(margin.0)
    }

    // Whether this voltage is above `other` by more than a margin.
    pub fn is_above(self, other: Voltage, margin: Voltage) -> bool
        ensures { result ≡ ltb (other.0 + margin.0) self.0 }
    {
        u64::from(other.0) + u64::from(margin.0) < u64::from(self.0)
    }
}
