// The words of the text. Blanks tell them apart; from '#' to the end of a line is a comment.

// What is left of a text.
#[derive(Clone, Copy)]
pub(crate) struct Words<'a> {
    rest: &'a [u8],
}

impl<'a> Words<'a> {
    pub(crate) fn of(text: &'a [u8]) -> Words<'a> {
        Words { rest: text }
    }

    // The next word; none at the end of the text.
    pub(crate) fn next(&mut self) -> Option<&'a [u8]> {
        let (word, rest) = cut(from_word(self.rest));
        if word.is_empty() {
            return None;
        }
        self.rest = rest;
        Some(word)
    }

    // The next word if it is a number: it ends in a digit, and no name does.
    pub(crate) fn number(&mut self) -> Option<u64> {
        let (word, rest) = cut(from_word(self.rest));
        let last = word.last()?;
        if !last.is_ascii_digit() {
            return None;
        }
        self.rest = rest;
        Some(number_of(word))
    }

    // What stands from the next word on, up to a colon or the end of its line.
    pub(crate) fn label(&mut self) -> &'a [u8] {
        let text = from_word(self.rest);
        for (at, byte) in text.iter().enumerate() {
            if *byte == b':' || *byte == b'\n' {
                self.rest = &text[at + 1..];
                return &text[..at];
            }
        }
        self.rest = &[];
        text
    }
}

// Past blanks and comments.
fn from_word(text: &[u8]) -> &[u8] {
    let mut comment = false;
    for (at, byte) in text.iter().enumerate() {
        comment = *byte == b'#' || comment && *byte != b'\n';
        if !comment && b' ' < *byte {
            return &text[at..];
        }
    }
    &[]
}

// The word that a text begins with, and what is behind it.
fn cut(text: &[u8]) -> (&[u8], &[u8]) {
    let end = text.iter().position(|byte| *byte <= b' ');
    text.split_at(end.unwrap_or(text.len()))
}

// A decimal number, in 64 bits.
fn number_of(word: &[u8]) -> u64 {
    word.iter().fold(0u64, |number, byte| {
        number.wrapping_mul(10).wrapping_add(u64::from(*byte % 16))
    })
}
