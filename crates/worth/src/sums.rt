// Sums of figures, column by column.
ghost use Rattle.std.specs.Prelude.{◌≡◌, ◌+◌, ◌-◌};
ghost use Rattle.quantity.specs.Quantity.{capped};
ghost use Rattle.worth.specs.Figures.{figure, each, same};

use crate::Figures;

impl Figures {
    // The sum of each figure.
    pub fn plus(self, other: Figures) -> Figures
        ensures { result ≡ each (λ c. capped 64 (figure self c + figure other c)) }
    {
        Figures {
            absolute: self.absolute.plus(other.absolute),
            paid: self.paid.plus(other.paid),
            free: self.free.plus(other.free),
            billed: self.billed.plus(other.billed),
            allowance: self.allowance.plus(other.allowance),
            disconnected: self.disconnected.plus(other.disconnected),
            credit: self.credit.plus(other.credit),
            debit: self.debit.plus(other.debit),
        }
    }

    // The difference of each figure.
    pub fn minus(self, other: Figures) -> Figures
        ensures { result ≡ each (λ c. figure self c - figure other c) }
    {
        Figures {
            absolute: self.absolute.minus(other.absolute),
            paid: self.paid.minus(other.paid),
            free: self.free.minus(other.free),
            billed: self.billed.minus(other.billed),
            allowance: self.allowance.minus(other.allowance),
            disconnected: self.disconnected.minus(other.disconnected),
            credit: self.credit.minus(other.credit),
            debit: self.debit.minus(other.debit),
        }
    }

    // Whether each figure is that of the other.
    pub fn equals(self, other: Figures) -> bool
        ensures { result ≡ same self other }
    {
        self == other
    }
}
