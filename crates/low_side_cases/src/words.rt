// The words of the text. Blanks tell them apart; from '#' to the end of a line is a comment.
// The same stands in `cases`: a crate for both would have these few lines alone, and to read them from there this
// program would stand on the whole book.

// What is left of a text.
#[derive(Clone, Copy)]
pub(crate) struct Words<'a> {
    rest: &'a [u8],
}

impl<'a> Words<'a> {
    pub fn of(text: &'a [u8]) -> Words<'a> {
        Words { rest: text }
    }

    // The next word; none at the end of the text.
    pub fn next(&mut self) -> Option<&'a [u8]> {
        let (word, rest) = cut(from_word(self.rest));
        if word.is_empty() {
            return None;
        }
        self.rest = rest;
        Some(word)
    }
}

// Past blanks and comments.
fn from_word(text: &[u8]) -> &[u8] {
    let mut comment = false;
    for (at, byte) in text.iter().enumerate() {
        comment = *byte == b'#' || comment && *byte != b'\n';
        if !comment && b' ' < *byte {
            return &text[at..];
        }
    }
    &[]
}

// The word that a text begins with, and what is behind it.
fn cut(text: &[u8]) -> (&[u8], &[u8]) {
    let end = text.iter().position(|byte| *byte <= b' ');
    text.split_at(end.unwrap_or(text.len()))
}
