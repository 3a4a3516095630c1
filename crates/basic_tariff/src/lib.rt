// The fixed basic tariff: what supply points cost, each weighted by how much of its energy it drew. 02, Ticket 3;
// source document 002, "Tariffa di base fissa".
#![tactic(auto)]

mod answers;
mod charge;
mod k_factors;
mod ranges;
mod weights;

pub use charge::basic_charge;

// Why nothing is charged: 02's refusal.
#[derive(Clone, Copy, Debug, PartialEq, Eq)]
pub enum ChargeRefusal {
    OutOfRange,
}
