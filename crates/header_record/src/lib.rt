// The header of a month file, 7 bytes; document 01, "Month file".
// The decoder and the encoder undo each other, and both refuse a slice of any other length.
#![tactic(auto)]

ghost use Rattle.std.specs.Prelude.{◌≡◌};
ghost use Rattle.record_fields.specs.Layout.{Small};
ghost use Rattle.header_record.specs.Header.{header_widths, header_values, header_of};
ghost use Rattle.header_record.specs.Header.{header_in_range, header_given, read_header, encoded_header};

use record_fields::{read_fields, write_fields};

// The two bytes that a month file opens with.
const OPENING: [u8; 2] = *b"BE";

// The same two as values of fields.
const FIRST: u64 = OPENING[0] as u64;

const SECOND: u64 = OPENING[1] as u64;

// The widths of the fields: the two opening bytes, year, month, points and entries.
const WIDTHS: [usize; 6] = [8, 8, 12, 4, 4, 20];

// The month, how many points the file has, and how many entries.
#[derive(Clone, Copy, Debug, PartialEq, Eq)]
pub struct Header {
    pub year: u16,
    pub month: u8,
    pub points: u8,
    pub entries: u32,
}

// Whether each field is in its range.
pub fn header_in_range(header: Header) -> bool
    ensures { result ≡ header_in_range header }
{
    (2_020 <= header.year)
        & (header.year <= 2_099)
        & (1 <= header.month)
        & (header.month <= 12)
        & (1 <= header.points)
        & (header.points <= 8)
        & (header.entries <= 65_535)
}

// The header that the bytes hold; none where they are refused.
pub fn decode_header(bytes: &[u8]) -> Option<Header>
    ensures { header_given result ≡ read_header bytes.now }
{
    if bytes.len() != 7 {
        return None;
    }
    let mut values = [0u64; 6];
    read_fields(bytes, &WIDTHS, &mut values);
    let opens = (values[0] == FIRST) & (values[1] == SECOND);
    let header = header_of(values);
    if opens & header_in_range(header) {
        return Some(header);
    }
    None
}

// The header that fields with these values make.
fn header_of(values: [u64; 6]) -> Header
    requires { Small header_widths values }
    ensures { result ≡ header_of values }
{
    let year = values[2] as u16;
    let month = values[3] as u8;
    let points = values[4] as u8;
    let entries = values[5] as u32;
    Header {
        year,
        month,
        points,
        entries,
    }
}

// Writes the header into 7 bytes; or answers false, and leaves the bytes as they are, where a field
// is out of range or there are not 7 bytes.
// A bool and no Result: there is nothing to hand back but whether it was written.
pub fn encode_header(header: Header, bytes: &mut [u8]) -> bool
    ensures { (result, bytes.new) ≡ encoded_header header bytes.old }
{
    if !((bytes.len() == 7) & header_in_range(header)) {
        return false;
    }
    let values = header_values(header);
    write_fields(bytes, &WIDTHS, &values);
    true
}

// The values of a header's fields.
fn header_values(header: Header) -> [u64; 6]
    ensures { result ≡ header_values header }
{
    [
        FIRST,
        SECOND,
        header.year as u64,
        header.month as u64,
        header.points as u64,
        header.entries as u64,
    ]
}
