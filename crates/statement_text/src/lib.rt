// The text of a statement: the figures that are to be printed, and the page that they are laid out on.
#![tactic(auto)]

mod layout;
mod page;

pub use layout::text_of;
pub use page::Page;

// A line of the statement: energies in grains, credit and debit in rappen.
#[derive(Clone, Copy, Debug, PartialEq, Eq)]
pub struct Line {
    pub absolute: u64,
    pub paid: u64,
    pub free: u64,
    pub billed: u64,
    pub allowance: u64,
    pub disconnected: u64,
    pub credit: u64,
    pub debit: u64,
}

// A line whose figures are all 0.
pub const NO_FIGURES: Line = Line {
    absolute: 0,
    paid: 0,
    free: 0,
    billed: 0,
    allowance: 0,
    disconnected: 0,
    credit: 0,
    debit: 0,
};

// What is printed of a month: the figures of the first line, of each point and of the total.
#[derive(Clone, Copy, Debug, PartialEq, Eq)]
pub struct Statement {
    pub year: u16,
    pub month: u8,
    pub quarters: u16,
    pub entries: usize,
    pub count: u8,
    pub lines: [Line; 8],
    pub total: Line,
}
