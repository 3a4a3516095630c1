// A list of calls, given as bytes, run on the book of a file: demand 3 as the contract of one function.
#![tactic(auto)]

mod answering;
mod running;

pub use running::run_calls;
