// Energy and money, two of the three kinds of quantity of the settlement; the third stands in the
// crate `voltages`. Each is a tuple struct whose field is private to its crate, so that code
// elsewhere cannot add one kind to another. So what the three have alike, as `plus`, stands in each
// for its own kind alone, and is neither one generic type nor an operator, which would not say that
// it stops at the ends.
//
// No function here has a `requires`. A sum or a product past the largest count is that largest
// count, and a difference below nothing is nothing; the exact contracts of callers show that they
// meet neither.
#![tactic(auto)]

mod energy;
mod money;

// Energy. A grain, a term of document 01, is 1/1600 kvarh.
#[derive(Clone, Copy, Debug, PartialEq, Eq, PartialOrd, Ord)]
pub struct Grains(u64);

// Money, as grains times a tariff in 0.01 CHF/Mvarh, unrounded: 1,600,000 make one rappen.
#[derive(Clone, Copy, Debug, PartialEq, Eq)]
pub struct Amount(u64);
