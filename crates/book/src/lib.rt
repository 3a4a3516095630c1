// The settlement book of one month, document 01, "The book as a plain machine".
//
// A book is a value: a call takes it, with the journal that its entries lie in and the index that says which of
// them stand, and hands it back. `specs/Library.antt` says what each call does to book, journal and index.
#![tactic(auto)]

mod calls;
mod judgement;
mod no_totals;

use answers::Refusal;
pub use judgement::judge;
use master_data::MasterData;
use worth::Figures;

// The book. Its fields are public, and no call trusts them: each tests them against 01's number 7.
#[derive(Clone, Copy, Debug, PartialEq, Eq)]
pub struct Book {
    pub master: MasterData,
    pub length: usize,
    pub closed: bool,
    pub totals: [Figures; 8],
}

// A book handed back, and the answer of the call that hands it back.
#[derive(Clone, Copy, Debug, PartialEq, Eq)]
pub struct Reply {
    pub book: Book,
    pub answer: Result<(), Refusal>,
}

// What totals gives: the figures of each point and how many entries the journal has.
#[derive(Clone, Copy, Debug, PartialEq, Eq)]
pub struct Totals {
    pub points: [Figures; 8],
    pub length: usize,
}
