// The one door to C: each function of the crate `reactive` under its name, by C's calling convention, with the
// clauses that it has there. `include/reactive.h` declares the calls of the members' C program.
#![tactic(auto)]

mod basic_charge;
mod low_side;
mod measured;
mod quarter_hour;

pub use basic_charge::reactive_basic_charge;
pub use low_side::reactive_low_side;
pub use measured::reactive_post_totals;
pub use quarter_hour::reactive_classify;
