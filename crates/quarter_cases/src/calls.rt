// The C call. A line has the number answered and then the 48 bytes of a buffer, each 255 before
// the call, of which a front part was lent.
use crate::print::{STDOUT_FILENO, byte, end_of_line};

// Role, level, band, lamp, take, supply, actual and set voltage, and the length of the lent slice.
const CALLS: [[u32; 9]; 25] = [
    // Accepted: each share in its place, and none.
    [0, 0, 0, 1, 0, 1000, 22050, 22000, 41],
    [0, 0, 0, 1, 0, 1000, 22199, 22000, 41],
    [0, 0, 0, 1, 0, 1000, 22200, 22000, 41],
    [1, 1, 1200000, 0, 1750, 0, 38199, 38500, 41],
    [0, 0, 0, 0, 1000, 0, 22000, 22000, 41],
    [0, 0, 0, 0, 1000, 1000, 22000, 22000, 41],
    // Accepted: the largest argument of each range, and the smallest band.
    [0, 1, 0, 1, 1000000, 0, 50000, 50000, 48],
    [1, 1, 320000000, 1, 0, 1000000, 0, 50000, 48],
    [1, 0, 1, 1, 1000000, 1000000, 50000, 0, 48],
    [1, 0, 1, 1, 1, 0, 50000, 0, 48],
    // Refused: each argument just out of its range, and C's −1.
    [2, 0, 1, 1, 0, 1000, 22050, 22000, 48],
    [0, 2, 0, 1, 0, 1000, 22050, 22000, 48],
    [0, 0, 1, 1, 0, 1000, 22050, 22000, 48],
    [1, 0, 0, 1, 0, 1000, 22050, 22000, 48],
    [1, 0, 320000001, 1, 0, 1000, 22050, 22000, 48],
    [1, 0, 1, 2, 0, 1000, 22050, 22000, 48],
    [0, 0, 0, 1, 1000001, 0, 22050, 22000, 48],
    [0, 0, 0, 1, 0, 1000001, 22050, 22000, 48],
    [0, 0, 0, 1, 0, 1000, 50001, 22000, 48],
    [0, 0, 0, 1, 0, 1000, 22050, 50001, 48],
    [0, 0, 0, 1, 0, 4294967295, 22050, 22000, 48],
    // Slices about 40 bytes long, and one too short beside an argument out of range.
    [0, 0, 0, 1, 0, 1000, 22050, 22000, 0],
    [0, 0, 0, 1, 0, 1000, 22050, 22000, 39],
    [0, 0, 0, 1, 0, 1000, 22050, 22000, 40],
    [2, 0, 0, 1, 0, 1000, 22050, 22000, 39],
];

// Every call of the table.
pub fn show_all() {
    for call in CALLS {
        show(call);
    }
}

// One row of the table: the call on a front part of a buffer of its own, as long as the row says.
fn show(call: [u32; 9]) {
    let [role, level, band, lamp, take, supply, actual, set, length] = call;
    let mut buffer = [255u8; 48];
    let Some(lent) = buffer.get_mut(..length as usize) else {
        return;
    };
    let answer = reactive::reactive_classify(
        role, level, band, lamp, take, supply, actual, set, lent,
    );
    io::print_decimal(STDOUT_FILENO, u64::from(answer));
    show_bytes(&buffer);
}

// All bytes of the buffer.
fn show_bytes(bytes: &[u8]) {
    for (place, value) in bytes.iter().enumerate() {
        byte(*value, place);
    }
    end_of_line();
}
