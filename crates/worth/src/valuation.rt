// The figures of one quarter-hour, at tariffs that are given.
ghost use Rattle.std.specs.Prelude.{◌≡◌};
ghost use Rattle.worth.specs.Figures.{nothing};
ghost use Rattle.worth.specs.Worth.{role_of, worth_held};

use crate::Figures;
use point_record::{Point, band};
use quantity::Grains;
use quarter::{Metered, Role, Tariffs, absolute, classify, value};

impl Figures {
    // No energy and no amount.
    pub fn none() -> Figures
        ensures { result ≡ nothing }
    {
        let nothing = Grains::of(0);
        let worthless = nothing.times(0);
        Figures {
            absolute: nothing,
            paid: nothing,
            free: nothing,
            billed: nothing,
            allowance: nothing,
            disconnected: nothing,
            credit: worthless,
            debit: worthless,
        }
    }

    // What was metered in a quarter-hour at a point, with the tariffs in force there.
    pub fn of(point: Point, tariffs: Tariffs, metered: Metered) -> Figures
        ensures { result ≡ worth_held point tariffs metered }
    {
        let level = point.level;
        let shares = classify(role_of(point), level, metered);
        let amounts = value(shares, tariffs);
        let paid = shares.paid;
        let free = shares.free;
        let billed = shares.billed;
        let allowance = shares.allowance;
        let disconnected = shares.disconnected;
        let credit = amounts.credit;
        let debit = amounts.debit;
        Figures {
            absolute: absolute(metered),
            paid,
            free,
            billed,
            allowance,
            disconnected,
            credit,
            debit,
        }
    }
}

// The role of a point, with its band where it has one.
fn role_of(point: Point) -> Role
    ensures { result ≡ role_of point }
{
    if point.semi_active {
        return Role::SemiActive(band(point));
    }
    Role::Active
}
