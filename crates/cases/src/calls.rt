// The calls on the desk's book, its journal and its index. Each prints its name and its answer.
use crate::desk::Desk;
use crate::fields::{BYTES, ENTRY, pack};
use crate::running::Numbers;
use book::Reply;
use case_lines::{Call, announce, show_answer, show_posted, show_totals, show_written};
use opening::open;
use posting::post;
use writing::write;

impl Desk {
    // Makes a call, a delivery with the entry of the numbers.
    pub(crate) fn ask(&mut self, call: Call, numbers: &Numbers) {
        let mut bytes = [0u8; 12];
        pack(&mut bytes, 0, &ENTRY, &numbers.row);
        self.answer(call, &bytes);
    }

    // Delivers so many of the numbers as bytes.
    pub(crate) fn ask_bytes(&mut self, numbers: &Numbers) {
        let mut bytes = [0u8; 24];
        pack(&mut bytes, 0, &BYTES, &numbers.row);
        self.answer(Call::Deliver, first(&bytes, numbers.count));
    }

    fn answer(&mut self, call: Call, bytes: &[u8]) {
        let before = *self;
        announce(call);
        let reply = self.reply(call, bytes);
        show_answer(call, before.book, reply, self.has_buffers_of(&before));
        self.book = reply.book;
    }

    fn reply(&mut self, call: Call, bytes: &[u8]) -> Reply {
        let journal = first_mut(&mut self.journal, self.lent);
        let index = first_mut(&mut self.index, self.places);
        match call {
            Call::Open => open(first(&self.file, self.size), index),
            Call::TakeBack => self.book.take_back(journal, index),
            Call::Close => self.book.close(journal, index),
            Call::Deliver => self.book.deliver(journal, index, bytes),
        }
    }

    // Posts the file.
    pub(crate) fn ask_post(&mut self) {
        let before = *self;
        let posted = post(
            first(&self.file, self.size),
            first_mut(&mut self.journal, self.lent),
            first_mut(&mut self.index, self.places),
        );
        show_posted(posted, self.has_buffers_of(&before));
        self.book = posted.book;
    }

    // Asks for totals.
    pub(crate) fn ask_totals(&self) {
        let journal = first(&self.journal, self.lent);
        let index = first(&self.index, self.places);
        show_totals(self.book.totals(journal, index));
    }

    // Writes the book into the first bytes of the file, so many of which are the output.
    pub(crate) fn ask_write(&mut self, room: usize) {
        let journal = first(&self.journal, self.lent);
        let index = first(&self.index, self.places);
        show_written(write(self.book, journal, index, first_mut(&mut self.file, room)));
    }

    fn has_buffers_of(&self, other: &Desk) -> bool {
        self.journal == other.journal && self.index == other.index
    }
}

// The first of some items; all of them where there are fewer.
fn first<T>(items: &[T], count: usize) -> &[T] {
    &items[..count.min(items.len())]
}

fn first_mut<T>(items: &mut [T], count: usize) -> &mut [T] {
    let most = items.len();
    &mut items[..count.min(most)]
}
