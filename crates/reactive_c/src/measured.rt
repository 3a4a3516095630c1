// What bench/ times, over plain slices.
ghost use Rattle.std.specs.Prelude.{◌≡◌};
ghost use Rattle.book.specs.Library.{lent};
ghost use Rattle.reactive.specs.Measured.{measured};

// Posts the file, and then asks for totals `rounds` times; what the last call gave goes into the first
// 528 bytes of `answer`. Gives the number of post, or 13 where `answer` is shorter.
#[unsafe(no_mangle)]
pub extern "C" fn reactive_post_totals(
    file: &[u8],
    journal: &mut [u8],
    index: &mut [u16],
    rounds: u32,
    answer: &mut [u8],
) -> u32
    ensures { (result, (lent journal.new index.new, answer.new)) ≡ measured file.now (lent journal.old index.old) rounds answer.old }
{
    reactive::reactive_post_totals(file, journal, index, rounds, answer)
}
