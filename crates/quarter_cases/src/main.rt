// Runs the classification, the valuation, the rounding and the C call on cases of document 01. The
// file `stdout` has the answers, each checked by hand against 01; docs/quarter_cases.md has the working.
#![tactic(auto)]

mod calls;
mod print;
mod rounding;
mod shares;

fn main() {
    shares::show_all();
    rounding::show_all();
    calls::show_all();
}
