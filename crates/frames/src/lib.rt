// Frames of the communications channel (document 02, Ticket 1): a flag, the address, the control, a link data field, the frame check sequence, a
// flag. Here are the types, the refusals and the limits; the reader and the writer have a file each.
// Relies on fields for the direction; specs/Frame.antt says what a frame is.
#![tactic(auto)]

ghost use Rattle.std.specs.Prelude.{◌≡◌};
ghost use Rattle.frames.specs.Numbers.{frame_number};

use fields::Direction;

mod stream; // stream.rt: one bit, and many copied
mod inserted; // inserted.rt: inserted zeros, taken out and put in
mod flag; // flag.rt: where flags are
mod check; // check.rt: the frame check sequence
pub mod reading; // reading.rt: the reader
pub mod writing; // writing.rt: the writer

// The addresses, eight bits as a number.
const TO_SENSOR: u64 = 0xC0;

const FROM_SENSOR: u64 = 0x80;

// The most bits of a field.
const MOST_OF_FIELD: usize = 2008;

// The fewest and the most bits between the flags, inserted zeros not counted.
const FEWEST: usize = 32;

const MOST: usize = 2040;

// The bits of address and control together, and those of the check sequence.
const HEAD_BITS: usize = 16;

const CHECK_BITS: usize = 16;

// Why a place gives no frame, or a frame was not written, in the order of document 02.
#[derive(Clone, Copy, Debug, PartialEq, Eq)]
pub enum FrameRefusal {
    CountOrFlag = 44,
    ZeroMissing = 41,
    NoClosingFlag = 45,
    WrongLength = 40,
    WrongCheck = 43,
    UnknownAddress = 42,
    NoRoom = 46,
}

// The document's number of a refusal.
impl From<FrameRefusal> for u8 {
    ghost from_gives = { λ why n. n ≡ frame_number why };

    fn from(why: FrameRefusal) -> u8 {
        why as u8
    }
}

// What stands at a place: a frame with the way it travels, its control and the bits of its field; a refusal; or nothing but flags.
// It stays an enum: the document names these three, and a Result of an Option is no plainer.
#[derive(Clone, Copy)]
pub enum What {
    Frame {
        way: Direction,
        control: u8,
        count: usize,
    },
    Refused(FrameRefusal),
    End,
}

// With it the place that is answered, and the field's bits: the first on top of the first byte, zeros behind the last. An array, not a Vec:
// the memory is fixed.
#[derive(Clone, Copy)]
pub struct Found {
    pub what: What,
    pub place: usize,
    pub field: [u8; 251],
}

// Why no frame was written, and the caller's place. Beside `NotWritten` of lines, which has a line's refusal: the two libraries know nothing of
// each other.
#[derive(Clone, Copy, Debug, PartialEq, Eq)]
pub struct NotWritten {
    pub why: FrameRefusal,
    pub place: usize,
}
