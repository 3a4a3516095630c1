// Amounts and their rappen: an amount is so many grains at a tariff of 1.
use crate::print::{figure, last_figure};
use quantity::Grains;

const AMOUNTS: [u64; 6] = [
    0,
    799_999,
    800_000,
    2_399_999,
    2_400_000,
    18_446_744_073_709_551_615,
];

// Every amount of the table.
pub fn show_all() {
    for grains in AMOUNTS {
        let amount = Grains::of(grains).times(1);
        figure(amount.count());
        last_figure(amount.rappen());
    }
}
