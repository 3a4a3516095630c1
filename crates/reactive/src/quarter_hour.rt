// The classification of one quarter-hour.
ghost use Rattle.std.specs.Prelude.{◌≡◌, [], ◌∷◌, ◌++◌, ◌≤◌, length, drop};
ghost use Rattle.refusals.specs.Refusals.{first};
ghost use Rattle.reactive.specs.QuarterHour.{arguments, point_in_range, role_of, image, called};

use bits::put_words;
use quantity::Grains;
use quarter::{Level, Metered, Role, Shares, classify, metered_in_range};
use voltages::Voltage;

// Answers 0 and puts the five shares into the first 40 bytes of `shares`; or 5 for an argument out
// of range, or 13 for a slice under 40 bytes, and leaves the slice as it is.
pub fn reactive_classify(
    role: u32,
    level: u32,
    band: u32,
    lamp: u32,
    take: u32,
    supply: u32,
    actual: u32,
    set: u32,
    shares: &mut [u8],
) -> u32
    ensures { (result, shares.new) ≡ called (arguments role level band lamp take supply actual set) shares.old }
{
    let metered = Metered {
        lamp: lamp == 1,
        take,
        supply,
        actual: Voltage::of(actual),
        set: Voltage::of(set),
    };
    let fits = point_in_range(role, level, band) & (lamp <= 1) & metered_in_range(metered);
    let number = refusal(!fits, shares.len() < 40);
    if number != 0 {
        return number;
    }
    let level = Level::from(level as u64);
    store(classify(role_of(role, band), level, metered), shares);
    0
}

// The number of the first refusal that holds, and 0 where none does.
fn refusal(out_of_range: bool, too_short: bool) -> u32
    ensures { result ≡ first ((5, out_of_range) ∷ (13, too_short) ∷ []) }
{
    if out_of_range {
        return 5;
    }
    if too_short {
        return 13;
    }
    0
}

// Whether role, level and band are in their ranges. A band belongs to a semi-active point alone.
fn point_in_range(role: u32, level: u32, band: u32) -> bool
    ensures { result ≡ point_in_range role level band }
{
    ((role == 0) & (band == 0) | (role == 1) & (1 <= band) & (band <= 320_000_000)) & (level <= 1)
}

// The role that a number stands for, with its band.
fn role_of(role: u32, band: u32) -> Role
    ensures { result ≡ role_of role band }
{
    if role == 0 {
        return Role::Active;
    }
    Role::SemiActive(Grains::of(band as u64))
}

// Puts the five shares into the first 40 bytes.
fn store(shares: Shares, bytes: &mut [u8])
    requires { 40 ≤ length bytes.old }
    ensures { bytes.new ≡ image shares ++ drop 40 bytes.old }
{
    let words = [
        shares.paid.count(),
        shares.free.count(),
        shares.billed.count(),
        shares.allowance.count(),
        shares.disconnected.count(),
    ];
    put_words(bytes, 0, &words);
}
