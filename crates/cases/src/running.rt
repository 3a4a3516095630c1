// The run of a text, command after command.
use crate::commands::Command;
use crate::desk::Desk;
use crate::fields::{ENTRY, HEADER, POINT, pack};
use crate::words::Words;
use case_lines::{Call, show_bytes, show_index, text};
use forged_books::{Forgery, forged};

// The numbers behind a command's name, at most 24, and how many there are: no heap, so the row has a fixed length.
// Those that are left out are 0.
#[derive(Clone, Copy)]
pub(crate) struct Numbers {
    pub row: [u64; 24],
    pub count: usize,
}

// Runs every command of the text, and prints what each answers; past 65,536 commands it stops. A case begins with
// the desk as the last `start` has left it.
pub fn run(letters: &[u8]) {
    let mut words = Words::of(letters);
    let mut first = Desk::empty();
    let mut desk = first;
    for turn in 0..65_536 {
        let Some(name) = words.next() else {
            break;
        };
        let command = Command::of(name);
        if let Some(Command::Case) = command {
            show_label(words.label(), turn);
            desk = first;
            continue;
        }
        let numbers = numbers_of(&mut words);
        if let Some(command) = command {
            desk.obey(command, &numbers);
        }
        if let Some(Command::Start) = command {
            first = desk;
        }
    }
    text(b"\n");
}

// The label of a case, on a new line.
fn show_label(label: &[u8], turn: u32) {
    if 0 < turn {
        text(b"\n");
    }
    text(label);
}

fn numbers_of(words: &mut Words<'_>) -> Numbers {
    let mut row = [0u64; 24];
    let mut count = 0;
    for (at, place) in row.iter_mut().enumerate() {
        let Some(number) = words.number() else {
            break;
        };
        *place = number;
        count = at + 1;
    }
    Numbers { row, count }
}

impl Desk {
    // Writes into the desk, shows it, makes a call or forges the book.
    fn obey(&mut self, command: Command, numbers: &Numbers) {
        let row = numbers.row;
        let from = row[0];
        let number = from as usize;
        let fields = &row[1..];
        match command {
            Command::Case | Command::Start => {}
            Command::Header => pack(&mut self.file, from, &HEADER, fields),
            Command::Point => pack(&mut self.file, from, &POINT, fields),
            Command::Entry => pack(&mut self.file, from, &ENTRY, fields),
            Command::Stored => pack(&mut self.journal, from, &ENTRY, fields),
            Command::Size => self.size = number,
            Command::Lent => self.lent = number,
            Command::Places => self.places = number,
            Command::Place => self.place(row[0], row[1]),
            Command::Blank => self.file.fill((row[0] % 256) as u8),
            Command::Fill => self.journal.fill((row[0] % 256) as u8),
            Command::Paint => self.index.fill((row[0] % 65_536) as u16),
            Command::File => show_bytes(&self.file, number),
            Command::Show => show_bytes(&self.journal, 60),
            Command::Index => show_index(&self.index),
            Command::Open => self.ask(Call::Open, numbers),
            Command::Back => self.ask(Call::TakeBack, numbers),
            Command::Close => self.ask(Call::Close, numbers),
            Command::Deliver => self.ask(Call::Deliver, numbers),
            Command::Bytes => self.ask_bytes(numbers),
            Command::Post => self.ask_post(),
            Command::Totals => self.ask_totals(),
            Command::Write => self.ask_write(number),
            Command::Book => self.book = forged(self.book, Forgery::Month, row),
            Command::Record => self.book = forged(self.book, Forgery::Record, row),
            Command::Figures => self.book = forged(self.book, Forgery::Totals, row),
        }
    }
}
