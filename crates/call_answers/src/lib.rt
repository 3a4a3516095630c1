// Answers as bytes: what totals gives, put into a slice.
//
// `specs/Answers.antt` says which numbers an answer is.
#![tactic(auto)]

ghost use Rattle.std.specs.Prelude.{◌≡◌, [], ◌∷◌, ◌+◌, ◌≤◌, length};
ghost use Rattle.bits.specs.Fields.{with_words};
ghost use Rattle.call_answers.specs.Answers.{columns, length_and_figures};

use bits::put_words;
use worth::Figures;

// Puts number, length of L and figures into 528 bytes from `to` on.
pub fn put_totals(output: &mut [u8], to: usize, number: u32, entries: usize, points: [Figures; 8])
    requires { to + 528 ≤ length output.old }
    ensures { output.new ≡ with_words output.old to (number ∷ length_and_figures entries points) }
{
    let start = [number as u64, entries as u64];
    put_words(output, to, &start);
    for (i, figures) in points.iter().enumerate() {
        put_figures(output, to + 16 + 64 * i, *figures);
    }
}

// Puts the figures of a point into 64 bytes from `to` on.
fn put_figures(output: &mut [u8], to: usize, figures: Figures)
    requires { to + 64 ≤ length output.old }
    ensures { output.new ≡ with_words output.old to (columns (figures ∷ [])) }
{
    let words = [
        figures.absolute.count(),
        figures.paid.count(),
        figures.free.count(),
        figures.billed.count(),
        figures.allowance.count(),
        figures.disconnected.count(),
        figures.credit.count(),
        figures.debit.count(),
    ];
    put_words(output, to, &words);
}
