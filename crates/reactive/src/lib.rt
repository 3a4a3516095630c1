// What the members' C program calls: functions on plain numbers and slices, each thin over the crate that does the
// work. Numbers stand for kinds and refusals here, and slices lie beside one another, for the C interface. The crate
// `reactive_c` exports the functions under these names, and `include/reactive.h` declares them.
#![tactic(auto)]

mod basic_charge;
mod low_side;
mod measured;
mod quarter_hour;

pub use basic_charge::reactive_basic_charge;
pub use low_side::reactive_low_side;
pub use measured::reactive_post_totals;
pub use quarter_hour::reactive_classify;
