// Runs the library on the cases of a text, for the programs that read one (docs/book_cases.md has the language).
#![tactic(auto)]

mod calls;
mod commands;
mod desk;
mod fields;
mod running;
mod words;

pub use running::run;
