// What the commands stand on, and those that write into it directly.
use book::Book;
use case_lines::text;
use opening::void;

// The places of the desk's index: 180 more than nine points need, one point more than a book can have.
const DESK_PLACES: usize = 27_000;

// A file, a book, a journal and an index; how many bytes the file has, and how many bytes of the journal and
// places of the index each call is lent.
#[derive(Clone, Copy)]
pub(crate) struct Desk {
    pub book: Book,
    pub file: [u8; 256],
    pub journal: [u8; 60],
    pub index: [u16; DESK_PLACES],
    pub size: usize,
    pub lent: usize,
    pub places: usize,
}

impl Desk {
    // The void book, and zeros, all of them lent.
    pub(crate) fn empty() -> Desk {
        Desk {
            book: void(),
            file: [0; 256],
            journal: [0; 60],
            index: [0; DESK_PLACES],
            size: 0,
            lent: 60,
            places: DESK_PLACES,
        }
    }

    // Puts a number into a place of the index. Prints `?` where there is no such place, or it does not hold the
    // number.
    pub(crate) fn place(&mut self, place: u64, value: u64) {
        match (self.index.get_mut(place as usize), u16::try_from(value)) {
            (Some(place), Ok(value)) => *place = value,
            _ => text(b" ?"),
        }
    }
}
