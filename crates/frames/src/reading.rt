// The reader of frames: a place of a stream of bits to the frame there, a refusal, or the end.
// It looks for the opening flag, then for the closing one, and then goes through the bits between them once.
// Relies on flag.rt for the flags, inserted.rt for the inserted zeros, check.rt for the check sequence; specs/Reading.antt says what it answers.
ghost use Rattle.std.specs.Prelude.{◌≡◌, true, [], ◌-◌, ◌≤◌};
ghost use Rattle.frames.specs.Stream.{bits_from};
ghost use Rattle.frames.specs.Frame.{frame_of, flag};
ghost use Rattle.frames.specs.Reading.{accepted, begins, control_in, field_in, judged_body, stream_at, field_bytes, found_at, read_frame};
ghost use Rattle.frames.specs.Steps.{addressed_body, behind_flag};

use crate::check::check;
use crate::flag::Stream;
use crate::inserted::{Filled, body_of};
use crate::stream::{copy_bits, count_over};
use crate::{
    CHECK_BITS, FEWEST, FROM_SENSOR, Found, FrameRefusal, HEAD_BITS, MOST, TO_SENSOR, What,
};
use fields::Direction;

// The field of a body: the bits behind address and control, as bytes with zeros behind them.
fn field_of(body: &Filled<255>, count: usize) -> [u8; 251]
    requires { count ≤ 2008 }
    ensures { result ≡ field_bytes (bits_from body.now.bytes 16 count) }
{
    let mut field = [0u8; 251];
    copy_bits(&mut field, 0, &body.bytes, HEAD_BITS, count);
    field
}

// A refusal, or the end: the answered place, and no field.
#[tactic(auto, unfolding(crate::specs::Stream::put_all))]
fn nothing(what: What, place: usize) -> Found
    ensures { result ≡ record { what = what; place = place; field = field_bytes [] } }
{
    Found {
        what,
        place,
        field: [0u8; 251],
    }
}

// A body with an address, as the frame that it is.
// Its bounds stay in the contracts, here, in `addressed` and in `with_zeros`: a type for them is no plainer: `body_of` also makes bodies outside
// them, which `judged` refuses.
fn frame(body: &Filled<255>, way: Direction, place: usize) -> Found
    requires { (32 ≤ body.now.count) × (body.now.count ≤ 2040) }
    ensures { result ≡ found_at place (accepted (frame_of way (control_in (bits_from body.now.bytes 0 body.now.count)) (field_in (bits_from body.now.bytes 0 body.now.count)))) }
{
    let count = body.count - FEWEST;
    let control = bits::read(&body.bytes, 8, 8) as u8;
    Found {
        what: What::Frame {
            way,
            control,
            count,
        },
        place,
        field: field_of(body, count),
    }
}

// The address of a body whose length and check sequence are right: 42, or a frame.
fn addressed(body: &Filled<255>, place: usize) -> Found
    requires { (32 ≤ body.now.count) × (body.now.count ≤ 2040) }
    ensures { result ≡ found_at place (addressed_body (bits_from body.now.bytes 0 body.now.count)) }
{
    match bits::read(&body.bytes, 0, 8) {
        TO_SENSOR => frame(body, Direction::ToSensor, place),
        FROM_SENSOR => frame(body, Direction::FromSensor, place),
        _ => nothing(What::Refused(FrameRefusal::UnknownAddress), place),
    }
}

// What a body is, with its closing flag at a place: 40, 43, 42, or a frame.
fn judged(body: &Filled<255>, place: usize) -> Found
    ensures { result ≡ found_at place (judged_body (bits_from body.now.bytes 0 body.now.count)) }
{
    if body.count < FEWEST || MOST < body.count {
        return nothing(What::Refused(FrameRefusal::WrongLength), place);
    }
    let covered = body.count - CHECK_BITS;
    if check(&body.bytes, covered) == bits::read(&body.bytes, covered, CHECK_BITS) {
        addressed(body, place)
    } else {
        nothing(What::Refused(FrameRefusal::WrongCheck), place)
    }
}

// What stands at a place where a flag begins.
fn behind_flag(stream: Stream, place: usize) -> Found
    requires { begins flag (stream_at stream.bytes.now stream.count place) ≡ true }
    ensures { result ≡ behind_flag place (stream_at stream.entry.bytes.now stream.entry.count place) }
{
    let count = stream.count;
    let from = stream.past_flags(place);
    if from == count {
        return nothing(What::End, count);
    }
    let to = stream.closing(from);
    let Some(body) = body_of(stream.bytes, from, to) else {
        return nothing(What::Refused(FrameRefusal::ZeroMissing), place);
    };
    if to == count {
        return nothing(What::Refused(FrameRefusal::NoClosingFlag), place);
    }
    judged(&body, to)
}

// What stands at a place of a stream of so many bits.
pub fn read(b: &[u8], count: usize, place: usize) -> Found
    ensures { result ≡ read_frame b.now count place }
{
    let stream = Stream { bytes: b, count };
    if count_over(b.len(), count) || !stream.flag_at(place) {
        return nothing(What::Refused(FrameRefusal::CountOrFlag), place);
    }
    behind_flag(stream, place)
}
