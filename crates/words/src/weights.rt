// The bits of a word by name, so that code reads as the document's tables do: `w / BIT_6 % THREE_BITS` is the field of three bits of `w`
// that ends at bit 6. The document numbers the bits on over a report's words: bit k of word n has the number 13 (n - 1) + k.
// For callers: the crates here go by the document's bit numbers, and use ELEVEN_BITS and TWELVE_BITS alone. Relies on nothing.

// What each data bit of a word weighs; bit 13, the parity bit, weighs 1.
pub const BIT_1: u16 = 4096;

pub const BIT_2: u16 = 2048;

pub const BIT_3: u16 = 1024;

pub const BIT_4: u16 = 512;

pub const BIT_5: u16 = 256;

pub const BIT_6: u16 = 128;

pub const BIT_7: u16 = 64;

pub const BIT_8: u16 = 32;

pub const BIT_9: u16 = 16;

pub const BIT_10: u16 = 8;

pub const BIT_11: u16 = 4;

pub const BIT_12: u16 = 2;

// How many values so many bits have.
pub const ONE_BIT: u16 = 2;

pub const TWO_BITS: u16 = 4;

pub const THREE_BITS: u16 = 8;

pub const FOUR_BITS: u16 = 16;

pub const FIVE_BITS: u16 = 32;

pub const SIX_BITS: u16 = 64;

pub const SEVEN_BITS: u16 = 128;

pub const NINE_BITS: u16 = 512;

pub const ELEVEN_BITS: u16 = 2048;

pub const TWELVE_BITS: u16 = 4096;
