// Runs the records of a month file and the calendar. The bytes below are the header, the points and
// the entries of document 01's example of February 2024; docs/month_file_cases.md works them out by
// hand. They and the answers in `stdout` were compared with packers written apart from this code.
//
// A sample's line has the values of its fields and the bytes that encode it again. A bound's line has
// a field's place and width in bits, the value put there, and whether the record is then read.
#![tactic(auto)]

ghost use Rattle.std.specs.Prelude.{◌+◌, ◌^◌, ◌≤◌, ◌<◌};

use bits::put;
use entry_record::{decode_entry, encode_entry};
use header_record::{decode_header, encode_header};
use point_record::{decode_point, encode_point};
use quarter::{Level, Transformer};

// Standard output, by its number: no crate may list `libc`, which names it.
const STDOUT_FILENO: i32 = 1;

const HEADER: [u8; 7] = *b"BE\x7e\x82\x20\x00\x04";

// Point 0 is active, point 1 semi-active with one transformer.
const ACTIVE: [u8; 21] =
    *b"\x00\x04\xb0\x07\xd0\x01\xf4\x00\x00\x00\x00\x00\x00\x00\x00\x00\x00\x00\x00\x00\x00";

const SEMI_ACTIVE: [u8; 21] =
    *b"\xc8\x04\xb0\x07\xd0\x00\x00\x4b\x00\x3e\x80\x00\x00\x00\x00\x00\x00\x00\x00\x00\x00";

// A semi-active point at 220 kV with tariffs 0 and four transformers of uk 1 and Sn 1.
const FOUR: [u8; 21] =
    *b"\xa0\x00\x00\x00\x00\x00\x00\x00\x10\x00\x10\x01\x00\x01\x00\x10\x00\x10\x01\x00\x01";

const FIRST: [u8; 12] = *b"\x00\x00\x18\x00\x00\x00\x3e\x82\xb1\x12\xaf\x80";

const SECOND: [u8; 12] = *b"\x00\x02\x18\x00\x00\x00\x1f\x42\xb5\xc2\xaf\x80";

const THIRD: [u8; 12] = *b"\x20\x00\x10\x03\x6b\x00\x00\x04\xa9\xc4\xb3\x20";

const FOURTH: [u8; 12] = *b"\x20\x00\x20\x03\x6b\x00\x00\x04\xa9\xbc\xb3\x20";

fn main() {
    samples();
    lengths();
    header_bounds();
    active_bounds();
    semi_active_bounds();
    four_bounds();
    entry_bounds();
    months();
}

// The records of document 01's example, and a point with four transformers.
fn samples() {
    show_header(&HEADER);
    show_point(&ACTIVE);
    show_point(&SEMI_ACTIVE);
    show_point(&FOUR);
    show_entry(&FIRST);
    show_entry(&SECOND);
    show_entry(&THIRD);
    show_entry(&FOURTH);
}

// A byte less and a byte more than each record has.
fn lengths() {
    show_header(b"BE\x7e\x82\x20\x00");
    show_header(b"BE\x7e\x82\x20\x00\x04\x00");
    show_point(&ACTIVE[..20]);
    show_point(&[0; 22]);
    show_entry(&FIRST[..11]);
    show_entry(b"\x00\x00\x18\x00\x00\x00\x3e\x82\xb1\x12\xaf\x80\x00");
}

// The opening bytes, and each bound of a header's fields.
fn header_bounds() {
    text(b"header\n");
    header_case(0, 8, 0x45);
    header_case(8, 8, 0x42);
    header_case(16, 12, 2019);
    header_case(16, 12, 2020);
    header_case(16, 12, 2099);
    header_case(16, 12, 2100);
    header_case(28, 4, 0);
    header_case(28, 4, 1);
    header_case(28, 4, 12);
    header_case(28, 4, 13);
    header_case(32, 4, 0);
    header_case(32, 4, 1);
    header_case(32, 4, 8);
    header_case(32, 4, 9);
    header_case(36, 20, 0);
    header_case(36, 20, 65_535);
    header_case(36, 20, 65_536);
}

// The level, the count, the tariffs and the spare places of an active point.
fn active_bounds() {
    text(b"active\n");
    point_case(ACTIVE, 1, 1, 1);
    point_case(ACTIVE, 2, 3, 1);
    point_case(ACTIVE, 5, 17, 100_000);
    point_case(ACTIVE, 5, 17, 100_001);
    point_case(ACTIVE, 22, 17, 100_000);
    point_case(ACTIVE, 22, 17, 100_001);
    point_case(ACTIVE, 39, 17, 100_000);
    point_case(ACTIVE, 39, 17, 100_001);
    point_case(ACTIVE, 56, 12, 1);
    point_case(ACTIVE, 68, 16, 1);
}

// The count, the penalty, the counted place and the spare places of a semi-active point.
fn semi_active_bounds() {
    text(b"semi-active\n");
    point_case(SEMI_ACTIVE, 2, 3, 0);
    point_case(SEMI_ACTIVE, 39, 17, 1);
    point_case(SEMI_ACTIVE, 56, 12, 0);
    point_case(SEMI_ACTIVE, 56, 12, 1);
    point_case(SEMI_ACTIVE, 56, 12, 4_000);
    point_case(SEMI_ACTIVE, 56, 12, 4_001);
    point_case(SEMI_ACTIVE, 68, 16, 0);
    point_case(SEMI_ACTIVE, 68, 16, 1);
    point_case(SEMI_ACTIVE, 68, 16, 20_000);
    point_case(SEMI_ACTIVE, 68, 16, 20_001);
    point_case(SEMI_ACTIVE, 84, 12, 1);
    point_case(SEMI_ACTIVE, 96, 16, 1);
}

// The largest count, and the bounds of the last place.
fn four_bounds() {
    text(b"four transformers\n");
    point_case(FOUR, 2, 3, 3);
    point_case(FOUR, 2, 3, 4);
    point_case(FOUR, 2, 3, 5);
    point_case(FOUR, 140, 12, 0);
    point_case(FOUR, 140, 12, 4_001);
    point_case(FOUR, 152, 16, 20_001);
}

// Each bound of an entry's fields. Point and quarter have none here.
fn entry_bounds() {
    text(b"entry\n");
    entry_case(0, 3, 7);
    entry_case(3, 12, 4_095);
    entry_case(15, 5, 0);
    entry_case(15, 5, 31);
    entry_case(20, 1, 0);
    entry_case(21, 20, 1_000_000);
    entry_case(21, 20, 1_000_001);
    entry_case(41, 20, 1_000_000);
    entry_case(41, 20, 1_000_001);
    entry_case(61, 16, 50_000);
    entry_case(61, 16, 50_001);
    entry_case(77, 16, 50_000);
    entry_case(77, 16, 50_001);
    entry_case(93, 3, 1);
    entry_case(93, 3, 4);
}

// Months of each length, the exceptions of the leap years, and numbers that are no month.
fn months() {
    text(b"months\n");
    month(2024, 2);
    month(2023, 2);
    month(2100, 2);
    month(2000, 2);
    month(2020, 12);
    month(2021, 4);
    month(2024, 3);
    month(2024, 10);
    month(2021, 0);
    month(2021, 13);
}

// Decodes a header with another value in one of its fields.
fn header_case(at: usize, width: usize, value: u64)
    requires width_bound { at + width ≤ 56 }
    requires value_bound { value < 2 ^ width }
{
    let mut bytes = HEADER;
    put(&mut bytes, at, width, value);
    bound(at, width, value, decode_header(&bytes).is_some());
}

// Decodes a point with another value in one of its fields.
fn point_case(mut bytes: [u8; 21], at: usize, width: usize, value: u64)
    requires width_bound { at + width ≤ 168 }
    requires width_bound_2 { width ≤ 56 }
    requires value_bound { value < 2 ^ width }
{
    put(&mut bytes, at, width, value);
    bound(at, width, value, decode_point(&bytes).is_some());
}

// Decodes the first entry with another value in one of its fields.
fn entry_case(at: usize, width: usize, value: u64)
    requires width_bound { at + width ≤ 96 }
    requires width_bound_2 { width ≤ 56 }
    requires value_bound { value < 2 ^ width }
{
    let mut bytes = FIRST;
    put(&mut bytes, at, width, value);
    bound(at, width, value, decode_entry(&bytes).is_some());
}

// Writes a bound's line.
fn bound(at: usize, width: usize, value: u64, is_read: bool) {
    io::print_decimal(STDOUT_FILENO, at as u64);
    number(width as u64);
    number(value);
    text(if is_read { b" read\n" } else { b" refused\n" });
}

// Writes a header's fields, and the bytes that encode them.
fn show_header(bytes: &[u8]) {
    let Some(header) = decode_header(bytes) else {
        text(b"header refused\n");
        return;
    };
    text(b"header");
    number(u64::from(header.year));
    number(u64::from(header.month));
    number(u64::from(header.points));
    number(u64::from(header.entries));
    let mut again = [0u8; 7];
    encode_header(header, &mut again);
    hex(&again);
}

// Writes a point's fields, its band, and the bytes that encode them.
fn show_point(bytes: &[u8]) {
    let Some(point) = decode_point(bytes) else {
        text(b"point refused\n");
        return;
    };
    text(b"point");
    number(u64::from(point.semi_active));
    show_level(point.level);
    number(u64::from(point.transformers));
    number(u64::from(point.tariffs.payment));
    number(u64::from(point.tariffs.billing));
    number(u64::from(point.tariffs.penalty));
    place(point.first);
    place(point.second);
    place(point.third);
    place(point.fourth);
    text(b" band");
    number(point_record::band(point).count());
    let mut again = [0u8; 21];
    encode_point(point, &mut again);
    hex(&again);
}

// Writes an entry's fields, and the bytes that encode them.
fn show_entry(bytes: &[u8]) {
    let Some(entry) = decode_entry(bytes) else {
        text(b"entry refused\n");
        return;
    };
    let metered = entry.metered;
    text(b"entry");
    number(u64::from(entry.point));
    number(u64::from(entry.quarter));
    number(u64::from(entry.version));
    number(u64::from(metered.lamp));
    number(u64::from(metered.take));
    number(u64::from(metered.supply));
    number(u64::from(metered.actual.count()));
    number(u64::from(metered.set.count()));
    let mut again = [0u8; 12];
    encode_entry(entry, &mut again);
    hex(&again);
}

// Writes a month and its quarters.
fn month(year: u16, month: u8) {
    io::print_decimal(STDOUT_FILENO, u64::from(year));
    number(u64::from(month));
    number(calendar::quarters_of_month(year, month) as u64);
    text(b"\n");
}

// Writes a level in kV.
fn show_level(level: Level) {
    match level {
        Level::Kv220 => number(220),
        Level::Kv380 => number(380),
    }
}

// Writes uk and Sn.
fn place(place: Transformer) {
    number(u64::from(place.uk));
    number(u64::from(place.sn));
}

// Writes bytes as they are.
fn text(text: &[u8]) {
    io::write_all(STDOUT_FILENO, text);
}

// Writes a number after a space.
fn number(n: u64) {
    text(b" ");
    io::print_decimal(STDOUT_FILENO, n);
}

// Writes bytes in hexadecimal after a space, and the line's end.
fn hex(bytes: &[u8]) {
    text(b" ");
    for byte in bytes {
        io::print_hex(STDOUT_FILENO, u64::from(*byte), 2);
    }
    text(b"\n");
}
