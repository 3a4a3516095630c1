// The buffers of the program.
ghost use Rattle.std.specs.Prelude.{◌≡◌, length};

// So many places that hold one value. The contract gives their number alone, since as many values written out would be
// too much for the prover.
pub(crate) fn filled<T: Copy, const N: usize>(value: T) -> [T; N]
    ensures { N ≡ length result }
{
    [value; N]
}
