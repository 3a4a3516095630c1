// A quarter-hour that was metered on the low-voltage side of a transformer, for stations without a meter on the
// high side: what the high side took or supplied. 02, Ticket 2; the procedure is the exact one of source
// document 001, 4.1.1.
#![tactic(auto)]

mod answers;
mod conversion;
mod energies;
mod loss;
mod ranges;
mod root;

pub use conversion::convert;

// What the low side metered in a quarter-hour: active energy in kWh and reactive energy in kvarh, positive
// towards the transformer.
#[derive(Clone, Copy, Debug, PartialEq, Eq)]
pub struct LowSide {
    pub active: i32,
    pub reactive: i32,
}

// What the transformer's data sheet has: the rated power Sn in 0.1 MVA, the short-circuit voltage uk and the
// no-load current i0 in 0.01 %, and the copper losses at rated current in kW.
#[derive(Clone, Copy, Debug, PartialEq, Eq)]
pub struct DataSheet {
    pub sn: u32,
    pub uk: u32,
    pub i0: u32,
    pub copper: u32,
}

// Why nothing is converted: 02's refusals. Implausible is our word for 15, fields that do not go together: uk below
// uR, or an apparent power above twice Sn.
#[derive(Clone, Copy, Debug, PartialEq, Eq)]
pub enum ConversionRefusal {
    OutOfRange,
    Implausible,
}

// Reactive energy of the high side in kvarh, for an entry: one of the two is 0.
#[derive(Clone, Copy, Debug, PartialEq, Eq)]
pub struct HighSide {
    pub take: u32,
    pub supply: u32,
}
