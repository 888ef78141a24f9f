// Numbers given by a C program: pairs of eight-byte numbers in a slice of bytes, high byte first: what a pair stands for, and its value.
// Every slice is taken; bytes behind the last whole pair are no pair, and `whole` tells of them.
// Relies on bits for the number that bytes hold; specs/Pairs.antt says what each answer means.
#![tactic(auto)]

ghost use Rattle.std.specs.Prelude.{◌≡◌, ◌+◌, ◌%◌, ◌≤◌, eqb, length, drop};
ghost use Rattle.bits.specs.Bits.{bits_of};
ghost use Rattle.pairs.specs.Pairs.{pairs_in, Slot, gathered_from};

// So many numbers are asked for at once: as many as a report or a field has, whichever has more.
pub const SLOTS: usize = 37;

// The slice is whole pairs: sixteen bytes each, and none left.
pub fn whole(items: &[u8]) -> bool
    ensures { result ≡ eqb (length items.now % 16) 0 }
{
    items.len() % 16 == 0
}

// How many whole pairs there are.
pub fn count(items: &[u8]) -> usize
    ensures { result ≡ length (pairs_in items.now) }
{
    items.len() / 16
}

// The number of the eight bytes from a place on. Read from a part of the slice, so that no slice is too long to count its bits.
fn eight(items: &[u8], at: usize) -> u64
    requires { at ≤ length items.now }
    ensures { result ≡ bits_of (drop at items.now) 0 64 }
{
    bits::read(&items[at..], 0, 64)
}

// Which of the SLOTS numbers from `first` on a number is, counted from 0; None where it is none of them.
fn slot(first: u64, number: u64) -> Option<usize>
    ensures { Slot first number result }
{
    let k = number.checked_sub(first)? as usize;
    if k < SLOTS { Some(k) } else { None }
}

// What is found for the SLOTS numbers from `first` on: the value, where there is one. One pass over the slice, the last pair first: of those with
// the same number the first one stays.
pub fn gather(items: &[u8], first: u64) -> [Option<u64>; SLOTS]
    ensures { result ≡ gathered_from first (pairs_in items.now) }
{
    let mut found = [None; SLOTS];
    let (pairs, _) = items.as_chunks::<16>();
    for pair in pairs.iter().rev() {
        if let Some(k) = slot(first, eight(pair, 0)) {
            found[k] = Some(eight(pair, 8));
        }
    }
    found
}
