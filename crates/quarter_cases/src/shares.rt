// Quarter-hours through the classification and the valuation. A line has paid, free, billed,
// allowance, disconnected, credit and debit.
use crate::print::{figure, last_figure};
use quantity::Grains;
use quarter::{Amounts, Level, Metered, Role, Shares, Tariffs};
use voltages::Voltage;

// Role (1 semi-active), level (1 is 380 kV), band, lamp, take, supply, actual and set voltage.
const QUARTER_HOURS: [[u32; 8]; 31] = [
    // Active at 220 kV: 01's edges without a star, set voltages below the tolerance, the lamp out.
    [0, 0, 0, 1, 0, 1000, 22199, 22000],
    [0, 0, 0, 1, 1000, 0, 21801, 22000],
    [0, 0, 0, 1, 10, 0, 0, 99],
    [0, 0, 0, 1, 10, 0, 0, 100],
    [0, 0, 0, 1, 10, 0, 0, 200],
    [0, 0, 0, 0, 1000, 400, 22000, 22000],
    // Active at 380 kV: the tolerance is 200, the free margin 100 as at 220 kV.
    [0, 1, 0, 1, 0, 1000, 40199, 40000],
    [0, 1, 0, 1, 0, 1000, 40200, 40000],
    [0, 1, 0, 1, 0, 1000, 40299, 40000],
    [0, 1, 0, 1, 0, 1000, 40300, 40000],
    [0, 1, 0, 1, 1000, 0, 39801, 40000],
    [0, 1, 0, 1, 1000, 0, 39800, 40000],
    [0, 1, 0, 1, 1000, 0, 39701, 40000],
    [0, 1, 0, 1, 1000, 0, 39700, 40000],
    // Semi-active at 220 kV: a band of 100 kvarh, the free margin 200, the lamp without effect.
    [1, 0, 160000, 1, 0, 500, 21799, 22000],
    [1, 0, 160000, 1, 0, 500, 21800, 22000],
    [1, 0, 160000, 1, 0, 500, 22200, 22000],
    [1, 0, 160000, 1, 0, 500, 22201, 22000],
    [1, 0, 160000, 0, 500, 0, 22201, 22000],
    [1, 0, 160000, 0, 500, 0, 22200, 22000],
    [1, 0, 160000, 0, 500, 0, 21800, 22000],
    [1, 0, 160000, 0, 500, 0, 21799, 22000],
    // Point 1 of 01's example, the free margin 300; energy both ways; set voltages at the margin.
    [1, 1, 1200000, 0, 1750, 0, 38200, 38500],
    [1, 1, 1200000, 0, 1750, 0, 38199, 38500],
    [1, 1, 1200000, 1, 1750, 999, 38801, 38500],
    [1, 1, 1200000, 1, 1750, 1000, 38801, 38500],
    [1, 1, 1200000, 1, 0, 1750, 0, 300],
    [1, 1, 1200000, 1, 0, 1750, 0, 301],
    // A band of uk 1234 times Sn 567, 699,678 grains: between 437 and 438 kvarh.
    [1, 0, 699678, 1, 437, 0, 0, 22000],
    [1, 0, 699678, 1, 438, 0, 0, 22000],
    [1, 0, 699678, 1, 0, 438, 0, 22000],
];

// Every quarter-hour of the table.
pub fn show_all() {
    for quarter_hour in QUARTER_HOURS {
        show(quarter_hour);
    }
}

// One row of the table.
fn show(quarter_hour: [u32; 8]) {
    let [role, level, band, lamp, take, supply, actual, set] = quarter_hour;
    let metered = Metered {
        lamp: lamp == 1,
        take,
        supply,
        actual: Voltage::of(actual),
        set: Voltage::of(set),
    };
    show_worth(role_of(role, band), Level::from(u64::from(level)), metered);
}

// The shares of a quarter-hour and what they are worth.
fn show_worth(role: Role, level: Level, metered: Metered) {
    let shares = quarter::classify(role, level, metered);
    show_shares(shares);
    show_amounts(quarter::value(shares, tariffs_of(role)));
}

// The five shares, in document 01's order.
fn show_shares(shares: Shares) {
    figure(shares.paid.count());
    figure(shares.free.count());
    figure(shares.billed.count());
    figure(shares.allowance.count());
    figure(shares.disconnected.count());
}

// Credit and debit, unrounded.
fn show_amounts(amounts: Amounts) {
    figure(amounts.credit.count());
    last_figure(amounts.debit.count());
}

// The role that a number stands for, written anew: a case takes nothing from what it tests.
fn role_of(role: u32, band: u32) -> Role {
    if role == 0 {
        return Role::Active;
    }
    Role::SemiActive(Grains::of(u64::from(band)))
}

// The tariffs of 01's example: 300 and 1000, and a penalty of 500 for the active role.
fn tariffs_of(role: Role) -> Tariffs {
    let penalty = match role {
        Role::Active => 500,
        Role::SemiActive(_) => 0,
    };
    Tariffs {
        payment: 300,
        billing: 1000,
        penalty,
    }
}
