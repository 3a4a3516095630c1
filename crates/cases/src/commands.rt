// The commands of the text, by their names.

#[derive(Clone, Copy)]
pub(crate) enum Command {
    Case,
    Start,
    Open,
    Deliver,
    Bytes,
    Back,
    Close,
    Totals,
    Show,
    Index,
    Header,
    Point,
    Entry,
    Size,
    Book,
    Record,
    Figures,
    Stored,
    Fill,
    Lent,
    Place,
    Paint,
    Places,
    Post,
    Write,
    Blank,
    File,
}

impl Command {
    // The command that a word names by its last seven letters: longer words have always been read so, and what is
    // printed of a text may not change.
    pub(crate) fn of(word: &[u8]) -> Option<Command> {
        let name = &word[word.len().saturating_sub(7)..];
        let command = match name {
            b"case" => Command::Case,
            b"start" => Command::Start,
            b"open" => Command::Open,
            b"deliver" => Command::Deliver,
            b"bytes" => Command::Bytes,
            b"back" => Command::Back,
            b"close" => Command::Close,
            b"totals" => Command::Totals,
            b"show" => Command::Show,
            b"index" => Command::Index,
            b"header" => Command::Header,
            b"point" => Command::Point,
            b"entry" => Command::Entry,
            b"size" => Command::Size,
            b"book" => Command::Book,
            b"record" => Command::Record,
            b"figures" => Command::Figures,
            b"stored" => Command::Stored,
            b"fill" => Command::Fill,
            b"lent" => Command::Lent,
            b"place" => Command::Place,
            b"paint" => Command::Paint,
            b"places" => Command::Places,
            b"post" => Command::Post,
            b"write" => Command::Write,
            b"blank" => Command::Blank,
            b"file" => Command::File,
            _ => return None,
        };
        Some(command)
    }
}
