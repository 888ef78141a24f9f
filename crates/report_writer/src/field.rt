// What a field adds to the data of its word. Its const parameters are the number of its bits and the bit at which it ends, bit 1 to bit 12, so that
// code reads as the document's tables do: `count::<3, 6>(run)` is the field of three bits that ends at bit 6. Data stands without the parity bit, so
// bit 12 weighs 1 in it. A const parameter is a plain integer, so its bounds stand in each function's clause. Relies on nothing.
ghost use Rattle.std.specs.Prelude.{◌≡◌, ◌-◌, ◌^◌, ◌≤◌, ◌<◌};
ghost use Rattle.words.specs.Layout.{flag, count, rest};
ghost use Rattle.report_writer.specs.Data.{placed};

// A field of one bit.
pub(crate) fn flag<const END: u32>(b: bool) -> u32
    requires { END ≤ 12 }
    ensures { (result ≡ placed (flag b) END) × (result ≤ 2 ^ (12 - END)) }
{
    u32::from(b) << (12 - END)
}

// A number. One that does not fit adds 4096 for each of the field's spans that it overruns: it reaches above the twelve data bits.
pub(crate) fn count<const BITS: u32, const END: u32>(n: u32) -> u32
    requires { (1 ≤ BITS) × (BITS ≤ END) × (END ≤ 12) × (n < 1048576) }
    ensures { result ≡ placed (count BITS n) END }
{
    (n << (12 - END)) + (n >> BITS << 12)
}

// The lower bits of a number, at the head of a word. Its upper bits stand in the word before.
pub(crate) fn rest<const BITS: u32>(n: u32) -> u32
    requires { BITS ≤ 12 }
    ensures { result ≡ placed (rest BITS n) BITS }
{
    n % (1 << BITS) << (12 - BITS)
}
