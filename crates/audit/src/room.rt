// How many entries a journal can hold.
ghost use Rattle.std.specs.Prelude.{◌≡◌, length};
ghost use Rattle.machine.specs.Machine.{capacity_of};

// The whole entries that the journal has room for, 65,535 at most.
pub fn capacity(journal: &[u8]) -> usize
    ensures { result ≡ capacity_of (length journal.now) }
{
    let whole = journal.len() / 12;
    if whole > 65_535 {
        return 65_535;
    }
    whole
}
