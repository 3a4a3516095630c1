// The reactive energy lost in the transformer.
ghost use Rattle.std.specs.Prelude.{◌≡◌, ◌≤◌, ◌<◌};
ghost use Rattle.quantity.specs.Fraction.{ratio, nearest};
ghost use Rattle.transformer.specs.LowSide.{number, loss};

use crate::energies::squared_energy;
use crate::root::root;
use crate::{DataSheet, LowSide};

// The loss in kvarh. With the squares of the energies, in place of those of the powers, and the root in millionths,
// 001's formula is squares · root / (25,000,000 · Sn) + i0 · Sn / 400: one fraction, rounded once.
pub(crate) fn loss(low: LowSide, sheet: DataSheet) -> u32
    requires { number low sheet ≡ 0 }
    ensures value { result ≡ loss low sheet }
    ensures upper_bound { result ≤ 250000 }
{
    let sn = sheet.sn as u64;
    let squares = squared_energy(low);
    let load = squares * root(sheet);
    let no_load = 62_500 * (sheet.i0 as u64) * sn * sn;
    let under = 25_000_000 * sn;
    let over = load + no_load;
    nearest(over, under) as u32
}

// The nearest whole number of a fraction, the larger one where two are.
fn nearest(over: u64, under: u64) -> u64
    requires under_nonzero { 0 < under }
    requires under_bound { under ≤ 9223372036854775807 }
    ensures { result ≡ nearest (ratio over under) }
{
    let whole = over / under;
    if under <= 2 * (over % under) {
        return whole + 1;
    }
    whole
}
