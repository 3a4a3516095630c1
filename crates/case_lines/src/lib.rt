// What a case prints of a call, for the programs that run cases (docs/book_cases.md): words, the number answered,
// whether a refused call has left all as it was, and figures. Every function prints, and hands back nothing.
#![tactic(auto)]

use answers::{Refusal, answered};
use book::{Book, Reply, Totals};
use opening::void;
use posting::{Posted, TurnedDown};
use worth::Figures;

// Standard output, by its number: no crate may list `libc`, which names it.
const STDOUT_FILENO: i32 = 1;

// Bytes as they are.
pub fn text(text: &[u8]) {
    io::write_all(STDOUT_FILENO, text);
}

// A number after a space.
fn number(n: u64) {
    text(b" ");
    io::print_decimal(STDOUT_FILENO, n);
}

// The first bytes of a slice in hexadecimal, 12 to a group; all of them where there are fewer.
pub fn show_bytes(bytes: &[u8], count: usize) {
    for (place, byte) in bytes.iter().take(count).enumerate() {
        if place % 12 == 0 {
            text(b" ");
        }
        io::print_hex(STDOUT_FILENO, u64::from(*byte), 2);
    }
}

// An index as runs of equal places, each as their value and their count.
pub fn show_index(index: &[u16]) {
    for run in index.chunk_by(|place, next| *place == *next) {
        show_run(run);
    }
}

fn show_run(run: &[u16]) {
    let Some(value) = run.first() else {
        return;
    };
    number(u64::from(*value));
    text(b"*");
    io::print_decimal(STDOUT_FILENO, run.len() as u64);
}

// The calls that are printed by name.
#[derive(Clone, Copy, Debug, PartialEq, Eq)]
pub enum Call {
    Open,
    Deliver,
    TakeBack,
    Close,
}

// What is printed before a call.
pub fn announce(call: Call) {
    match call {
        Call::Open => text(b" open"),
        Call::Deliver => text(b" deliver"),
        Call::TakeBack => text(b" take-back"),
        Call::Close => text(b" close"),
    }
}

// The number answered. A refused opening has to hand back the void book, any other refused call the book
// as it was; and journal and index have to be as they were.
pub fn show_answer(call: Call, before: Book, reply: Reply, same_buffers: bool) {
    number(u64::from(answered(&reply.answer)));
    if reply.answer.is_ok() {
        return;
    }
    match call {
        Call::Open => show_void(reply.book, same_buffers),
        _ => kept(b" kept", before == reply.book && same_buffers),
    }
}

// What posting a file gave: number and index; beside a refusal of the opening, whether it has handed back the void
// book and left journal and index as they were.
pub fn show_posted(posted: Posted, same_buffers: bool) {
    text(b" post");
    let Err(TurnedDown { refusal, entry }) = posted.answer else {
        number(0);
        number(0);
        return;
    };
    number(u64::from(u32::from(refusal)));
    number(entry as u64);
    if is_of_opening(refusal) {
        show_void(posted.book, same_buffers);
    }
}

fn is_of_opening(refusal: Refusal) -> bool {
    matches!(
        refusal,
        Refusal::TooShort
            | Refusal::WrongHeader
            | Refusal::WrongLength
            | Refusal::WrongPoint
            | Refusal::ShortIndex
    )
}

// The number and the length that writing a book gave.
pub fn show_written(written: Result<usize, Refusal>) {
    text(b" write");
    number(u64::from(answered(&written)));
    number(written.unwrap_or(0) as u64);
}

// Whether a refused opening has handed back the void book, and journal and index are as they were.
fn show_void(book: Book, same_buffers: bool) {
    kept(b" void", void() == book && same_buffers);
}

fn kept(word: &[u8], as_due: bool) {
    text(if as_due { word } else { b" changed" });
}

// Number, length and figures that totals gives.
pub fn show_totals(totals: Result<Totals, Refusal>) {
    text(b" totals");
    number(u64::from(answered(&totals)));
    match totals {
        Ok(totals) => show_figures(totals),
        Err(_) => number(0),
    }
}

// The length, and the figures of all eight places.
fn show_figures(totals: Totals) {
    number(totals.length as u64);
    for (place, figures) in totals.points.iter().enumerate() {
        show_place(place as u64, *figures);
    }
}

// A place and its figures, unless all of them are 0.
fn show_place(place: u64, figures: Figures) {
    if figures == Figures::none() {
        return;
    }
    text(b" [");
    io::print_decimal(STDOUT_FILENO, place);
    number(figures.absolute.count());
    number(figures.paid.count());
    number(figures.free.count());
    number(figures.billed.count());
    number(figures.allowance.count());
    number(figures.disconnected.count());
    number(figures.credit.count());
    number(figures.debit.count());
    text(b"]");
}
