// A journal judged, without a book: how many entries it can hold, whether stored totals are the sums, and what
// number 7 of document 01 asks for, as definitions.
#![tactic(auto)]

mod comparing;
mod room;

pub use comparing::are_equal;
pub use room::capacity;
