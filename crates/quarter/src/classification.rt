// The classification of one quarter-hour, for both roles.
//
// A take asks of the set voltage against the actual one what a supply asks of the actual voltage
// against the set one. So a take is classified as a supply with the two voltages exchanged.
ghost use Rattle.std.specs.Prelude.{◌≡◌, ◌≤◌};
ghost use Rattle.quantity.specs.Quantity.{grains};
ghost use Rattle.quarter.specs.Reading.{absolute, classified, connected, filed};
ghost use Rattle.quarter.specs.Reading.{tolerance, active_free, active_supply};
ghost use Rattle.quarter.specs.Reading.{semi_active_free};
ghost use Rattle.quarter.specs.Steps.{semi_active_supply, allowance_of};

use crate::{Class, Level, Metered, Role, Shares};
use quantity::Grains;
use voltages::Voltage;

// The five shares of one quarter-hour.
pub fn classify(role: Role, level: Level, metered: Metered) -> Shares
    ensures { result ≡ classified role level metered }
{
    let take = metered.take;
    let supply = metered.supply;
    if take <= supply {
        return classify_supply(role, level, metered);
    }
    let mirrored = Metered {
        take: supply,
        supply: take,
        actual: metered.set,
        set: metered.actual,
        ..metered
    };
    classify_supply(role, level, mirrored)
}

// The five shares of a quarter-hour in which no less is supplied than taken. Without net energy
// every share is nothing, whatever its class.
fn classify_supply(role: Role, level: Level, metered: Metered) -> Shares
    requires { metered.take ≤ metered.supply }
    ensures { result ≡ classified role level metered }
{
    let actual = metered.actual;
    let set = metered.set;
    let energy = absolute(metered);
    let none = Grains::of(0);
    if !is_connected(role, metered.lamp) {
        return file(Class::Disconnected, energy, none);
    }
    match role {
        Role::Active => file(active(level, actual, set), energy, none),
        Role::SemiActive(band) => {
            let class = semi_active(level, band < energy, actual, set);
            let allowance = allowance(class, band);
            file(class, energy.minus(allowance), allowance)
        }
    }
}

// The absolute energy |W|.
#[tactic(auto, unfolding(crate::specs::Reading::absolute))]
pub fn absolute(metered: Metered) -> Grains
    ensures { result ≡ grains (absolute metered) }
{
    Grains::of_kvarh(metered.take.abs_diff(metered.supply))
}

// Whether the energy counts at all: the run lamp says so of active points alone.
fn is_connected(role: Role, lamp: bool) -> bool
    ensures { result ≡ connected role lamp }
{
    match role {
        Role::Active => lamp,
        Role::SemiActive(_) => true,
    }
}

// The class of a supply from an active point.
#[tactic(auto, using(crate::proofs::Supply::limit), unfolding(crate::specs::Reading::active_supply))]
fn active(level: Level, actual: Voltage, set: Voltage) -> Class
    ensures { result ≡ active_supply level actual.0 set.0 }
{
    let limit = tolerance(level);
    if actual.is_below(set, limit) {
        return Class::Paid;
    }
    if actual.is_below(set, limit.plus(active_free(level))) {
        return Class::Free;
    }
    Class::Billed
}

// The class of a supply from a semi-active point, with whether it exceeds the band.
#[tactic(auto, unfolding(crate::specs::Steps::semi_active_supply, crate::specs::Reading::helps_by_supply, crate::specs::Reading::helps_by_take))]
fn semi_active(level: Level, above: bool, actual: Voltage, set: Voltage) -> Class
    ensures { result ≡ semi_active_supply level above actual.0 set.0 }
{
    let margin = semi_active_free(level);
    if !above {
        return Class::Free;
    }
    if set.is_above(actual, margin) {
        return Class::Paid;
    }
    if actual.is_above(set, margin) {
        return Class::Billed;
    }
    Class::Free
}

// What of the band is left out of a class: all of it, where the energy is paid or billed.
fn allowance(class: Class, band: Grains) -> Grains
    ensures { result ≡ allowance_of class band }
{
    match class {
        Class::Paid | Class::Billed => band,
        Class::Free | Class::Disconnected => Grains::of(0),
    }
}

// An energy under its class, beside an allowance.
fn file(class: Class, energy: Grains, allowance: Grains) -> Shares
    ensures { result ≡ filed class energy allowance }
{
    let none = Grains::of(0);
    let mut shares = Shares {
        paid: none,
        free: none,
        billed: none,
        allowance,
        disconnected: none,
    };
    match class {
        Class::Paid => shares.paid = energy,
        Class::Free => shares.free = energy,
        Class::Billed => shares.billed = energy,
        Class::Disconnected => shares.disconnected = energy,
    }
    shares
}

// The tolerance of an active point.
fn tolerance(level: Level) -> Voltage
    ensures { result.0 ≡ tolerance level }
{
    match level {
        Level::Kv220 => Voltage::of(100),
        Level::Kv380 => Voltage::of(200),
    }
}

// The free margin of an active point, past the tolerance.
fn active_free(level: Level) -> Voltage
    ensures { result.0 ≡ active_free level }
{
    match level {
        Level::Kv220 => Voltage::of(100),
        Level::Kv380 => Voltage::of(100),
    }
}

// The free margin of a semi-active point.
fn semi_active_free(level: Level) -> Voltage
    ensures { result.0 ≡ semi_active_free level }
{
    match level {
        Level::Kv220 => Voltage::of(200),
        Level::Kv380 => Voltage::of(300),
    }
}
