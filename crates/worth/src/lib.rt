// What a quarter-hour adds to the totals of its point: the eight figures that document 01, "The book
// as a plain machine", lists for totals, and their sums.
//
// No function here has a `requires`. A figure past the largest count is that largest count. Within
// document 01's ranges no quarter-hour meets it (proofs/Held.antt), and the contracts of the book
// show that no sum does.
#![tactic(auto)]

mod sums;
mod valuation;

use quantity::{Amount, Grains};

// The figures of a quarter-hour, or of a point's whole month: energies in grains, amounts unrounded.
#[derive(Clone, Copy, Debug, PartialEq, Eq)]
pub struct Figures {
    pub absolute: Grains,
    pub paid: Grains,
    pub free: Grains,
    pub billed: Grains,
    pub allowance: Grains,
    pub disconnected: Grains,
    pub credit: Amount,
    pub debit: Amount,
}
