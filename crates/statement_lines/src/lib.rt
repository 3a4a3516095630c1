// The lines of a statement: what is printed of the totals of each point.
#![tactic(auto)]

ghost use Rattle.std.specs.Prelude.{◌≡◌, map};
ghost use Rattle.statement_lines.specs.Lines.{line_of};

use statement_text::Line;
use worth::Figures;

// The lines of all places.
pub fn lines_of(totals: [Figures; 8]) -> [Line; 8]
    ensures { result ≡ map line_of totals }
{
    totals.map(line_of)
}

// The line of a point's totals.
fn line_of(figures: Figures) -> Line
    ensures { result ≡ line_of figures }
{
    Line {
        absolute: figures.absolute.count(),
        paid: figures.paid.count(),
        free: figures.free.count(),
        billed: figures.billed.count(),
        allowance: figures.allowance.count(),
        disconnected: figures.disconnected.count(),
        credit: figures.credit.rappen(),
        debit: figures.debit.rappen(),
    }
}
