// The writer of frames. It decides first, from numbers and the field alone; then it writes: a flag, the body with its inserted zeros, a flag.
// Relies on stream.rt for the bits, inserted.rt for the inserted zeros, check.rt for the check sequence; specs/Writing.antt says what it answers
// and leaves.
ghost use Rattle.std.specs.Prelude.{◌≡◌, ◌+◌, ◌*◌, ◌≤◌, length, ◌++◌, IfOk, IfErr};
ghost use Rattle.frames.specs.Stream.{bits_from, put_all};
ghost use Rattle.frames.specs.Frame.{address_number, body, flag};
ghost use Rattle.frames.specs.Writing.{given, write_frame, Writes};
ghost use Rattle.frames.specs.Steps.{DecidedIs};

use crate::check::check;
use crate::flag::FLAG;
use crate::inserted::{Filled, with_zeros};
use crate::stream::{copy_bits, count_over};
use crate::{CHECK_BITS, FROM_SENSOR, FrameRefusal, MOST_OF_FIELD, NotWritten, TO_SENSOR};
use fields::Direction;

// A frame as the writer is given it: which way it travels, its control, and its field, the first `count` bits of bytes.
#[derive(Clone, Copy)]
pub struct Given<'a> {
    pub way: Direction,
    pub control: u8,
    pub field: &'a [u8],
    pub count: usize,
}

fn address_of(way: Direction) -> u64
    ensures { result ≡ address_number way }
{
    match way {
        Direction::ToSensor => TO_SENSOR,
        Direction::FromSensor => FROM_SENSOR,
    }
}

// The body of a frame: address, control, field, check sequence.
fn body_of(frame: Given) -> Filled<255>
    requires { frame.count ≤ 2008 }
    ensures { (bits_from result.bytes 0 result.count ≡ body (given frame.entry.way frame.entry.control frame.entry.field.now frame.entry.count)) × (result.count ≡ frame.entry.count + 32) }
{
    let mut body = Filled::new();
    body.put(8, address_of(frame.way));
    body.put(8, u64::from(frame.control));
    body.put_bits_of(frame.field, frame.count);
    let sequence = check(&body.bytes, body.count);
    body.put(CHECK_BITS, sequence);
    body
}

// The place of the closing flag, and what stands between the flags.
#[derive(Clone, Copy)]
struct Decided {
    closing: usize,
    between: Filled<306>,
}

// What the writer decides, on so many bytes.
fn deciding(length: usize, count: usize, place: usize, frame: Given) -> Result<Decided, NotWritten>
    ensures ok { IfOk result (λ d. DecidedIs length count place frame.entry.way frame.entry.control frame.entry.field.now frame.entry.count d.closing d.between.bytes d.between.count) }
    ensures err { IfErr result (λ e. Err e ≡ write_frame length count place frame.entry.way frame.entry.control frame.entry.field.now frame.entry.count) }
{
    if count_over(length, count) || count_over(frame.field.len(), frame.count) {
        return Err(NotWritten {
            why: FrameRefusal::CountOrFlag,
            place,
        });
    }
    if MOST_OF_FIELD < frame.count {
        return Err(NotWritten {
            why: FrameRefusal::WrongLength,
            place,
        });
    }
    let between = with_zeros(&body_of(frame));
    // the two flags have sixteen bits
    if count.saturating_sub(place) < between.count + 16 {
        return Err(NotWritten {
            why: FrameRefusal::NoRoom,
            place,
        });
    }
    Ok(Decided {
        closing: place + 8 + between.count,
        between,
    })
}

// What `write` answers to the same arguments, the bytes being so many; nothing is written.
pub fn answer(length: usize, count: usize, place: usize, frame: Given) -> Result<usize, NotWritten>
    ensures { result ≡ write_frame length count place frame.entry.way frame.entry.control frame.entry.field.now frame.entry.count }
{
    Ok(deciding(length, count, place, frame)?.closing)
}

// Puts a frame that has these bits between its flags; the closing one is at the end.
fn put_frame(s: &mut [u8], place: usize, end: usize, between: &Filled<306>)
    requires { (place + 8 + between.now.count ≡ end) × (end + 8 ≤ length s.old * 8) }
    ensures { s.new ≡ put_all s.old place (flag ++ (bits_from between.now.bytes 0 between.now.count ++ flag)) }
{
    bits::write(s, place, 8, FLAG);
    copy_bits(s, place + 8, &between.bytes, 0, between.count);
    bits::write(s, end, 8, FLAG);
}

// Writes the frame, from a place on. Answers the place of its closing flag.
pub fn write(b: &mut [u8], count: usize, place: usize, frame: Given) -> Result<usize, NotWritten>
    ensures { Writes b.old count place frame.entry.way frame.entry.control frame.entry.field.now frame.entry.count result b.new }
{
    let decided = deciding(b.len(), count, place, frame)?;
    put_frame(b, place, decided.closing, &decided.between);
    Ok(decided.closing)
}
