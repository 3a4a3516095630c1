// A page of text that is written from its start on.
//
// Each step takes the page and hands it back with something behind its text. The steps ask for room;
// no statement runs out of it, as the contract of `text_of` shows, which asks for nothing.
ghost use Rattle.std.specs.Prelude.{◌≡◌, [], ◌∷◌, ◌+◌, ◌≤◌, ◌<◌, length};
ghost use Rattle.statement_text.specs.Steps.{Behind};
ghost use Rattle.statement_text.specs.Text.{decimal, spaced, two_digits, page_of};

// Bytes of text, and how many there are. The bytes behind them are 0.
#[derive(Clone, Copy, Debug, PartialEq, Eq)]
pub struct Page {
    pub bytes: [u8; 2048],
    pub length: usize,
}

impl Page {
    // A page with no text.
    pub(crate) fn blank() -> Page
        ensures value { result ≡ page_of [] }
        ensures length_value { result.length ≡ 0 }
    {
        Page {
            bytes: [0; 2048],
            length: 0,
        }
    }

    // One byte.
    pub(crate) fn byte(mut self, byte: u8) -> Page
        requires { self.length < 2048 }
        ensures { Behind self (byte ∷ []) result }
    {
        let at = self.length;
        self.bytes[at] = byte;
        self.length = at + 1;
        self
    }

    // A word.
    pub(crate) fn word(mut self, word: &[u8]) -> Page
        requires { self.length + length word.now ≤ 2048 }
        ensures { Behind self word.now result }
    {
        let start = self.length;
        let end = start + word.len();
        self.bytes[start..end].copy_from_slice(word);
        self.length = end;
        self
    }

    // A number in decimal, from its last digit to its first.
    pub(crate) fn number(mut self, n: u64) -> Page
        requires { self.length + 20 ≤ 2048 }
        ensures behind { Behind self (decimal n) result }
        ensures length_bound { result.length ≤ self.length + 20 }
    {
        let start = self.length;
        let mut at = start + digits(n);
        self.length = at;
        let mut rest = n;
        // The rest decides how often this runs, and std has no iterator over the digits of a number.
        while rest >= 10 {
            at -= 1;
            self.bytes[at] = 48 + (rest % 10) as u8;
            rest /= 10;
        }
        self.bytes[start] = 48 + rest as u8;
        self
    }

    // A space, and a number.
    pub(crate) fn spaced(self, n: u64) -> Page
        requires { self.length + 21 ≤ 2048 }
        ensures behind { Behind self (spaced n) result }
        ensures length_bound { result.length ≤ self.length + 21 }
    {
        self.byte(b' ').number(n)
    }

    // The last two digits of a number.
    pub(crate) fn two_digits(self, n: u8) -> Page
        requires { self.length + 2 ≤ 2048 }
        ensures behind { Behind self (two_digits n) result }
        ensures length_value { result.length ≡ self.length + 2 }
    {
        let tens = 48 + n / 10 % 10;
        let ones = 48 + n % 10;
        self.byte(tens).byte(ones)
    }

    // The end of a line.
    pub(crate) fn end(self) -> Page
        requires { self.length < 2048 }
        ensures { Behind self (0x0a ∷ []) result }
    {
        self.byte(b'\n')
    }
}

// How many digits a number has.
fn digits(n: u64) -> usize
    ensures value { result ≡ length (decimal n) }
    ensures upper_bound { result ≤ 20 }
{
    let mut count = 1;
    let mut rest = n;
    // As in `number`, the rest decides how often this runs.
    while rest >= 10 {
        count += 1;
        rest /= 10;
    }
    count
}
