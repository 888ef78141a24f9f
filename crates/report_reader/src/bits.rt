// The bits of a report by the document's numbers, which go on over all its words with the parity bits counted.
// `InOneWord` stays in the contracts: a type for two bit numbers would be made at each of some 90 calls, which is no plainer.
// Private to the crate. Relies on nothing; specs/Word.antt of words says what each answer means, under the same names.
ghost use Rattle.std.specs.Prelude.{◌≡◌, ◌<◌, ◌+◌};
ghost use Rattle.words.specs.Word.{bits, bit, bits_then};
ghost use Rattle.report_reader.specs.Reading.{InOneWord};

// Bits `first` to `last`, which stand in one word.
pub fn bits(words: &[u16; 7], first: usize, last: usize) -> u16
    requires { InOneWord first last }
    ensures { result ≡ bits words.now first last }
{
    let word = words[(first - 1) / 13];
    (word >> (12 - (last - 1) % 13)) % (1 << (last + 1 - first))
}

// The same of at most eight bits.
pub fn byte(words: &[u16; 7], first: usize, last: usize) -> u8
    requires { InOneWord first last × (last < first + 8) }
    ensures { result ≡ bits words.now first last }
{
    bits(words, first, last) as u8
}

// Whether one bit is one.
pub fn bit(words: &[u16; 7], number: usize) -> bool
    requires { InOneWord number number }
    ensures { result ≡ bit words.now number }
{
    bits(words, number, number) == 1
}

// Bits a to b and then bits c to d, as one number: a number that a parity bit divides.
pub fn bits_then(words: &[u16; 7], a: usize, b: usize, c: usize, d: usize) -> u32
    requires { InOneWord a b × InOneWord c d }
    ensures { result ≡ bits_then words.now a b c d }
{
    u32::from(bits(words, a, b)) * (1 << (d + 1 - c)) + u32::from(bits(words, c, d))
}
