// Records in bytes: a row of numbers in fields of given widths, one after the other.
use bits::put;
use case_lines::text;

// The two opening bytes, year, month, points, entries.
pub(crate) const HEADER: [usize; 6] = [8, 8, 12, 4, 4, 20];

// Role, level, transformers, payment tariff, billing tariff, penalty, four places of uk and Sn.
pub(crate) const POINT: [usize; 14] = [1, 1, 3, 17, 17, 17, 12, 16, 12, 16, 12, 16, 12, 16];

// Point, quarter, version, lamp, take, supply, actual and set voltage, closing bits.
pub(crate) const ENTRY: [usize; 9] = [3, 12, 5, 1, 20, 20, 16, 16, 3];

// Bytes as they are.
pub(crate) const BYTES: [usize; 23] = [8; 23];

// Puts numbers into fields of these widths, from a byte on. Prints `?` where a number does not fit its field, or a
// field the bytes.
pub(crate) fn pack(bytes: &mut [u8], from: u64, widths: &[usize], numbers: &[u64]) {
    let first = 8 * (from % 512) as usize;
    if packed(bytes, first, widths, numbers).is_none() {
        text(b" ?");
    }
}

// Puts numbers into fields from a bit on, and gives the bit behind the last; none where one does not fit.
fn packed(bytes: &mut [u8], first: usize, widths: &[usize], numbers: &[u64]) -> Option<usize> {
    let mut at = first;
    for (width, number) in widths.iter().zip(numbers) {
        at = place(bytes, at, *width, *number)?;
    }
    Some(at)
}

// Puts a number into a field, and gives the bit behind it; none where it does not fit.
fn place(bytes: &mut [u8], at: usize, width: usize, value: u64) -> Option<usize> {
    let end = at.checked_add(width)?;
    if bytes.len() < end.div_ceil(8) || 56 < width || value >> width != 0 {
        return None;
    }
    put(bytes, at, width, value);
    Some(end)
}
