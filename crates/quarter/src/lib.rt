// One quarter-hour of a supply point: which shares its net reactive energy falls into, and what they
// are worth. The shares are those of document 01, "One quarter-hour", which reads source document
// 004, chapters 2 to 4; `specs/Reading.antt` has 01's lines and `specs/Source.antt` those of 004.
#![tactic(auto)]

mod classification;
mod levels;
mod ranges;
mod valuation;

pub use classification::{absolute, classify};
use quantity::{Amount, Grains};
pub use ranges::{metered_in_range, tariffs_in_range};
pub use valuation::value;
use voltages::Voltage;

// The role that a point plays in keeping the voltage. A semi-active point has its band B with it,
// the energy a quarter-hour that is free at any voltage.
#[derive(Clone, Copy, Debug, PartialEq, Eq)]
pub enum Role {
    Active,
    SemiActive(Grains),
}

// The voltage level that a point is connected to.
#[derive(Clone, Copy, Debug, PartialEq, Eq)]
pub enum Level {
    Kv220,
    Kv380,
}

// A transformer of a semi-active point: the short-circuit voltage uk in 0.01 %, and the rated power
// Sn in 0.1 MVA.
#[derive(Clone, Copy, Debug, PartialEq, Eq)]
pub struct Transformer {
    pub uk: u16,
    pub sn: u16,
}

// What is metered in one quarter-hour: energies in kvarh, the run lamp, and the actual and the set
// voltage.
#[derive(Clone, Copy, Debug, PartialEq, Eq)]
pub struct Metered {
    pub lamp: bool,
    pub take: u32,
    pub supply: u32,
    pub actual: Voltage,
    pub set: Voltage,
}

// The five shares of document 01. Allowance is its word for the band's part of an energy above the
// band, disconnected for energy of an active point whose lamp is out.
#[derive(Clone, Copy, Debug, PartialEq, Eq)]
pub struct Shares {
    pub paid: Grains,
    pub free: Grains,
    pub billed: Grains,
    pub allowance: Grains,
    pub disconnected: Grains,
}

// The share that an energy is filed under.
#[derive(Clone, Copy, Debug, PartialEq, Eq)]
pub enum Class {
    Paid,
    Free,
    Billed,
    Disconnected,
}

// Tariffs in 0.01 CHF/Mvarh.
#[derive(Clone, Copy, Debug, PartialEq, Eq)]
pub struct Tariffs {
    pub payment: u32,
    pub billing: u32,
    pub penalty: u32,
}

// What a quarter-hour brings and costs, unrounded.
#[derive(Clone, Copy, Debug, PartialEq, Eq)]
pub struct Amounts {
    pub credit: Amount,
    pub debit: Amount,
}
