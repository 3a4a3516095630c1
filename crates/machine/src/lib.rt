// Document 01's plain machine, as definitions with the laws about it alone. There is no code here, and
// nothing below this crate knows a book or a journal.
#![tactic(auto)]
