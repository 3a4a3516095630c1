// The numbers that words stand for.

// A number without its sign, in 32 bits.
pub(crate) fn size(word: &[u8]) -> u32 {
    let mut size = 0u32;
    for byte in word {
        if *byte != b'-' {
            size = size.wrapping_mul(10).wrapping_add(u32::from(*byte % 16));
        }
    }
    size
}

// A number with its sign, in 32 bits. The least has no opposite: 1 is taken off first, and `!` gives -1 less the rest.
pub(crate) fn signed(word: &[u8]) -> i32 {
    let size = size(word);
    if size == 0 || !word.starts_with(b"-") {
        return (size % 2_147_483_648) as i32;
    }
    !(((size - 1) % 2_147_483_648) as i32)
}
