// Numbers on standard output.

// Standard output, by its number: no crate may list `libc`, which names it.
pub const STDOUT_FILENO: i32 = 1;

// A number in decimal and a space.
pub fn figure(n: u64) {
    io::print_decimal(STDOUT_FILENO, n);
    io::write_all(STDOUT_FILENO, b" ");
}

// A number in decimal, as the last of its line.
pub fn last_figure(n: u64) {
    io::print_decimal(STDOUT_FILENO, n);
    io::write_all(STDOUT_FILENO, b"\n");
}

// A byte as two hexadecimal digits, after a space where it is the first of eight.
pub fn byte(b: u8, place: usize) {
    if place % 8 == 0 {
        io::write_all(STDOUT_FILENO, b" ");
    }
    io::print_hex(STDOUT_FILENO, u64::from(b), 2);
}

// The end of a line.
pub fn end_of_line() {
    io::write_all(STDOUT_FILENO, b"\n");
}
