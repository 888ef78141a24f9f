// The calls that write a frame into a stream: which way it travels, its control, and the bits of its field.
// The arguments are those that C passes: a struct would be made in each call, and used there once.
// Relies on frames for the writer; specs/Calls.antt says what each call answers.
ghost use Rattle.std.specs.Prelude.{◌≡◌, length};
ghost use Rattle.frames.specs.Writing.{given, write_frame, left_as};
ghost use Rattle.fields.specs.Reading.{way_numbered};
ghost use Rattle.frame_host.specs.Calls.{place_of, write_refusal};

use fields::Direction;
use frames::writing::Given;

// Writes the frame. Answers the place of its closing flag; where it is refused, the place given, and every byte is as it was.
#[unsafe(no_mangle)]
pub extern "C" fn siamrung_frame_write(
    bytes: &mut [u8],
    count: usize,
    place: usize,
    from_sensor: u32,
    control: u8,
    field: &[u8],
    field_count: usize,
) -> usize
    ensures answer { result ≡ place_of (write_frame (length bytes.old) count place (way_numbered from_sensor) control field.now field_count) }
    ensures left { bytes.new ≡ left_as (write_frame (length bytes.old) count place (way_numbered from_sensor) control field.now field_count) bytes.old place (given (way_numbered from_sensor) control field.now field_count) }
{
    let frame = Given {
        way: Direction::from(from_sensor),
        control,
        field,
        count: field_count,
    };
    frames::writing::write(bytes, count, place, frame).unwrap_or_else(|refused| refused.place)
}

// Why the same call of siamrung_frame_write is refused; 0 where it is not. Writes nothing.
#[unsafe(no_mangle)]
pub extern "C" fn siamrung_frame_write_refusal(
    bytes: &[u8],
    count: usize,
    place: usize,
    from_sensor: u32,
    control: u8,
    field: &[u8],
    field_count: usize,
) -> u32
    ensures { result ≡ write_refusal (write_frame (length bytes.now) count place (way_numbered from_sensor) control field.now field_count) }
{
    let frame = Given {
        way: Direction::from(from_sensor),
        control,
        field,
        count: field_count,
    };
    match frames::writing::answer(bytes.len(), count, place, frame) {
        Ok(_) => 0,
        Err(refused) => u32::from(u8::from(refused.why)),
    }
}
