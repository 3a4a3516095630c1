// Fields of bits in a slice of bytes, at any bit offset and without gaps. Bits are counted from the
// most significant bit of the first byte. A field has at most 56 bits: at any offset the bytes that
// it lies in then fit one `u64`. Numbers of 64 bits go into whole bytes, by `put_words`.
//
// The contracts cite `specs/Fields.antt`; `proofs/Laws.antt` has the laws of reading after writing.
#![tactic(auto)]

ghost use Rattle.std.specs.Prelude.{◌≡◌, ◌+◌, ◌-◌, ◌*◌, ◌%◌, ◌^◌, ◌≤◌, ◌<◌, length};
ghost use Rattle.std.proofs.Math.Seq.{paste};
ghost use Rattle.bits.specs.Fields.{field, stored, bytes as bytes_of, with_words};
ghost use Rattle.bits.specs.Place.{Covers};

// The bytes that a field lies in, `count` of them from index `first` on, and how many of their bits
// stand before and after the field.
#[derive(Clone, Copy)]
struct Span {
    first: usize,
    count: usize,
    before: usize,
    after: usize,
}

// The value of the field of `width` bits at bit `at`.
pub fn get(bytes: &[u8], at: usize, width: usize) -> u64
    requires width_bound { at + width ≤ 8 * length bytes.now }
    requires width_bound_2 { width ≤ 56 }
    ensures value { result ≡ field bytes.now at width }
    ensures upper_bound { result < 2 ^ width }
{
    let span = span_of(at, width);
    let word = load(bytes, span.first, span.count);
    (word >> span.after) & ones(width)
}

// Writes `value` into the field of `width` bits at bit `at`, and keeps all other bits.
pub fn put(bytes: &mut [u8], at: usize, width: usize, value: u64)
    requires width_bound { at + width ≤ 8 * length bytes.old }
    requires width_bound_2 { width ≤ 56 }
    requires value_bound { value < 2 ^ width }
    ensures { bytes.new ≡ stored bytes.old at width value }
{
    let span = span_of(at, width);
    let word = load(bytes, span.first, span.count);
    let upper = word >> (width + span.after);
    let lower = word & ones(span.after);
    let new = (((upper << width) | value) << span.after) | lower;
    store(bytes, span.first, span.count, new);
}

// Writes numbers into the bytes from index `at` on, one after the other, eight bytes each.
pub fn put_words(bytes: &mut [u8], at: usize, words: &[u64])
    requires { at + 8 * length words.now ≤ length bytes.old }
    ensures { bytes.new ≡ with_words bytes.old at words.now }
{
    for (i, word) in words.iter().enumerate() {
        put_word(bytes, at + 8 * i, *word);
    }
}

// Writes a number into the eight bytes from index `at` on, most significant first.
fn put_word(bytes: &mut [u8], at: usize, word: u64)
    requires { at + 8 ≤ length bytes.old }
    ensures { bytes.new ≡ paste bytes.old at (bytes_of word 8) 8 }
{
    store(bytes, at, 8, word);
}

// Where the field of `width` bits at bit `at` lies.
fn span_of(at: usize, width: usize) -> Span
    requires { width ≤ 56 }
    ensures { Covers at width result }
{
    let first = at >> 3;
    let before = at & 7;
    let count = (before + width + 7) >> 3;
    let after = (count << 3) - (before + width);
    Span {
        first,
        count,
        before,
        after,
    }
}

// The number whose `count` lowest bits are set.
fn ones(count: usize) -> u64
    requires { count < 64 }
    ensures { result ≡ 2 ^ count - 1 }
{
    (1 << count) - 1
}

// The number that `count` bytes from index `first` on make.
fn load(bytes: &[u8], first: usize, count: usize) -> u64
    requires count_in_bounds { first + count ≤ length bytes.now }
    requires count_bound { count ≤ 8 }
    ensures { result ≡ field bytes.now (8 * first) (8 * count) }
{
    let mut word = 0u64;
    for byte in &bytes[first..first + count] {
        word = (word << 8) | (*byte as u64);
    }
    word
}

// Writes a number into `count` bytes from index `first` on, the last one first.
fn store(bytes: &mut [u8], first: usize, count: usize, mut word: u64)
    requires count_in_bounds { first + count ≤ length bytes.old }
    requires word_bound { word < 2 ^ (8 * count) }
    ensures { bytes.new ≡ stored bytes.old (8 * first) (8 * count) word }
{
    for i in (0..count).rev() {
        bytes[first + i] = low_byte(word);
        word = word >> 8;
    }
}

// The lowest byte of a number.
fn low_byte(word: u64) -> u8
    ensures { result ≡ word % 2 ^ 8 }
{
    (word & 255) as u8
}
