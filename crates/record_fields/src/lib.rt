// What the records of a month file share, document 01, "Month file": the fields of a record follow
// each other from its first bit on without gaps. Header, point and entry are three kinds of record
// (`Kind` in `specs/Record.antt`); each has a crate of its own.
#![tactic(auto)]

ghost use Rattle.std.specs.Prelude.{◌≡◌, length};
ghost use Rattle.bits.specs.Fields.{fields_at, stored_all, Fit};
ghost use Rattle.record_fields.specs.Layout.{Layout, Small};

// Reads the fields of these widths.
pub fn read_fields(bytes: &[u8], widths: &[usize], values: &mut [u64])
    requires layout { Layout bytes.now widths.now }
    requires values_len { length values.old ≡ length widths.now }
    ensures values_after { values.new ≡ fields_at bytes.now 0 widths.now }
    ensures small { Small widths.now values.new }
{
    let mut at = 0;
    for (i, width) in widths.iter().enumerate() {
        values[i] = bits::get(bytes, at, *width);
        at += *width;
    }
}

// Writes these values into the fields of these widths.
pub fn write_fields(bytes: &mut [u8], widths: &[usize], values: &[u64])
    requires layout { Layout bytes.old widths.now }
    requires fit { Fit widths.now values.now }
    ensures { bytes.new ≡ stored_all bytes.old 0 widths.now values.now }
{
    let mut at = 0;
    for (i, width) in widths.iter().enumerate() {
        bits::put(bytes, at, *width, values[i]);
        at += *width;
    }
}
