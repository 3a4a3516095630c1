// The root of the difference of two squares, in millionths.
ghost use Rattle.std.specs.Prelude.{◌≡◌, true, false, ◌+◌, ◌*◌, ◌≤◌, ◌<◌};
ghost use Rattle.transformer.specs.LowSide.{sheet_in_range, uk_below_U_R, root};

use crate::DataSheet;

// uR is no whole number of millionths, but Sn times uR is. So the squares are those of Sn times uk and Sn times uR.
pub(crate) fn root(sheet: DataSheet) -> u64
    requires sheet_value { sheet_in_range sheet ≡ true }
    requires sheet_value_2 { uk_below_U_R sheet ≡ false }
    ensures value { result ≡ root sheet }
    ensures upper_bound { result ≤ 400000 }
{
    let sn = sheet.sn as u64;
    let uk = 100 * (sheet.uk as u64) * sn;
    let copper = 10_000 * (sheet.copper as u64);
    let radicand = uk * uk - copper * copper;
    bisected(sn, radicand)
}

// The greatest number whose product with Sn has a square of at most the radicand: the one before the least that
// has a larger square, found by bisection. By hand, since the library's square root goes 32 turns, whatever its number,
// where these are at most 19: with it a conversion took nearly twice as long on one data sheet.
fn bisected(sn: u64, radicand: u64) -> u64
    requires sn_bound { sn ≤ 5000 }
    requires radicand_bound { radicand < 400001 * sn * (400001 * sn) }
    ensures sn_bound_2 { result * sn * (result * sn) ≤ radicand }
    ensures radicand_bound_2 { radicand < (result + 1) * sn * ((result + 1) * sn) }
    ensures upper_bound { result ≤ 400000 }
{
    let mut low = 0u64;
    let mut high = 400_001u64;
    while low + 1 < high {
        let middle = (low + high) / 2;
        let side = middle * sn;
        if side * side <= radicand {
            low = middle;
        } else {
            high = middle;
        }
    }
    high - 1
}
