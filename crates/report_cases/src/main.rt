// Runs the statement on cases of document 01 that its example does not show: each refusal that the program can
// print, months of each length, clock changes, the rounding of amounts, their total, and the largest file and one
// entry more.
//
// A case is a line with its label, and the text that the program would print. The file `stdout` has the
// answers; docs/report_cases.md says where they come from.
#![tactic(auto)]

mod files;

use files::{EMPTY_MONTH, EXAMPLE, HALF_RAPPEN, LARGEST_HEAD, TWO_HALVES};
use report::printed;

// Standard output, by its number: no crate may list `libc`, which names it.
const STDOUT_FILENO: i32 = 1;

fn main() {
    show(b"example", &EXAMPLE);
    show_beginnings();
    show_headers();
    show_points();
    show_entries();
    show_months();
    show_clock_changes();
    show(b"799,999 and 800,000", &HALF_RAPPEN);
    show(b"half a rappen twice", &TWO_HALVES);
    show_largest();
}

// The statement of a file.
fn show(label: &[u8], file: &[u8]) {
    let page = printed(file);
    io::write_all(STDOUT_FILENO, label);
    io::write_all(STDOUT_FILENO, b"\n");
    io::write_all(STDOUT_FILENO, &page.bytes[..page.length]);
}

// The first bytes of the example.
fn show_beginnings() {
    for count in [0, 6, 7, 28, 49, 96] {
        show_first(b"first bytes", &EXAMPLE, count);
    }
}

// The example with two bytes changed.
fn show_with(label: &[u8], at: usize, first: u8, second: u8) {
    let mut file = EXAMPLE;
    show_changed(label, &mut file, at, first, second);
}

// A file with two bytes changed.
fn show_changed(label: &[u8], file: &mut [u8], at: usize, first: u8, second: u8) {
    put(file, at, &[first, second]);
    show(label, file);
}

// Stores bytes from an index on, where there is room for them.
fn put(file: &mut [u8], at: usize, bytes: &[u8]) {
    let Some(places) = file.get_mut(at..) else {
        return;
    };
    for (place, byte) in places.iter_mut().zip(bytes) {
        *place = *byte;
    }
}

// Wrong headers, and numbers of entries that the file does not have.
fn show_headers() {
    show_with(b"opening 4542", 0, 0x45, 0x42);
    show_with(b"year 2019, month 2", 2, 0x7e, 0x32);
    show_with(b"year 2024, month 0", 2, 0x7e, 0x80);
    show_with(b"year 2024, month 13", 2, 0x7e, 0x8d);
    show_with(b"no points", 4, 0x00, 0x00);
    show_with(b"nine points", 4, 0x90, 0x00);
    show_with(b"65,536 entries", 4, 0x21, 0x00);
    show_with(b"260 entries", 5, 0x01, 0x04);
}

// Point records that break a rule.
fn show_points() {
    show_with(b"active, one transformer", 7, 0x08, 0x04);
    show_with(b"payment tariff 131,071", 7, 0x07, 0xff);
    show_with(b"spare transformer", 26, 0x00, 0x01);
    show_with(b"semi-active, no transformer", 28, 0xc0, 0x04);
    show_with(b"uk 0", 35, 0x00, 0x00);
}

// Entries that are turned down, and the last quarter of the month, which is not.
fn show_entries() {
    show_with(b"closing bit", 59, 0xaf, 0x81);
    show_with(b"version 0", 50, 0x00, 0x08);
    show_with(b"take 1,048,064", 51, 0x1f, 0xff);
    show_with(b"point 2", 49, 0x40, 0x00);
    show_with(b"quarter 2,784", 49, 0x15, 0xc0);
    show_with(b"quarter 2,783", 49, 0x15, 0xbe);
    show_with(b"version 1 again", 87, 0x10, 0x03);
}

// Months of 28, 29, 30 and 31 days.
fn show_months() {
    show_month(0x7e, 0x72);
    show_month(0x7e, 0x82);
    show_month(0x83, 0x34);
    show_month(0x7e, 0x41);
}

// A month with no entry: its year and month are the third and fourth byte.
fn show_month(third: u8, fourth: u8) {
    let mut file = EMPTY_MONTH;
    show_changed(b"a month", &mut file, 2, third, fourth);
}

// The last quarter of March and of October, and the first behind each.
fn show_clock_changes() {
    show_clock_change(b"March, quarter 2,971", 0x83, 0x36);
    show_clock_change(b"March, quarter 2,972", 0x83, 0x38);
    show_clock_change(b"October, quarter 2,979", 0x8a, 0x46);
    show_clock_change(b"October, quarter 2,980", 0x8a, 0x48);
}

// The example in another month of 2024, by the file's fourth byte; its first entry is in quarter 2,944 and half of
// `second` more.
fn show_clock_change(label: &[u8], fourth: u8, second: u8) {
    let mut file = EXAMPLE;
    file[3] = fourth;
    show_changed(label, &mut file, 49, 0x17, second);
}

// The largest file, one byte more, and one entry more.
fn show_largest() {
    let mut file = [0u8; 65_548];
    put(&mut file, 0, &LARGEST_HEAD);
    for i in 0..5_460 {
        put(&mut file, 28 + 12 * i, &entry(i));
    }
    show_first(b"65,536 bytes", &file, 65_536);
    show_first(b"65,537 bytes", &file, 65_537);
    // The header counts the last entry too.
    put(&mut file, 6, &[0x54]);
    show(b"5,460 entries", &file);
}

// The first bytes of a file.
fn show_first(label: &[u8], file: &[u8], count: usize) {
    if let Some(first) = file.get(..count) {
        show(label, first);
    }
}

// Entry i of the largest file: quarter after quarter, and then again as version 2, with 1,000 kvarh
// supplied at U 22050, S 22000 and lamp 1.
fn entry(i: usize) -> [u8; 12] {
    let mut entry = *b"\x00\x00\x18\x00\x00\x00\x1f\x42\xb1\x12\xaf\x80";
    let quarter = i % 2_976;
    entry[0] = (quarter / 128) as u8;
    entry[1] = (2 * (quarter % 128)) as u8;
    if 2_976 <= i {
        entry[2] = 0x28;
    }
    entry
}
