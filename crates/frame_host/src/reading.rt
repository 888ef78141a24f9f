// The calls that read a frame at a bit place of a stream: its bytes, and a count of its bits. Each answers one thing about what stands there. Any
// bytes, any count and any place are taken.
// The arguments are those that C passes: a struct would be made in each call, and used there once.
// Relies on frames for the answer; specs/Calls.antt says what each call answers.
ghost use Rattle.std.specs.Prelude.{◌≡◌, ◌+◌, ◌/◌, ◌≤◌, length, take, drop, ◌++◌};
ghost use Rattle.frames.specs.Reading.{read_frame};
ghost use Rattle.frame_host.specs.Calls.{kind_of, refusal_of, from_sensor, control_of, count_of, copied, field_left};

use frames::What;

// The kinds are numbers of the C interface.
const FRAME: u32 = 122;

const REFUSED: u32 = 120;

const END: u32 = 121;

fn what(bytes: &[u8], count: usize, place: usize) -> What
    ensures { result ≡ (read_frame bytes.now count place).what }
{
    frames::reading::read(bytes, count, place).what
}

// ---- what stands at a place

#[unsafe(no_mangle)]
pub extern "C" fn siamrung_frame_kind(bytes: &[u8], count: usize, place: usize) -> u32
    ensures { result ≡ kind_of (read_frame bytes.now count place).what }
{
    match what(bytes, count, place) {
        What::Frame { .. } => FRAME,
        What::Refused(_) => REFUSED,
        What::End => END,
    }
}

#[unsafe(no_mangle)]
pub extern "C" fn siamrung_frame_refusal(bytes: &[u8], count: usize, place: usize) -> u32
    ensures { result ≡ refusal_of (read_frame bytes.now count place).what }
{
    match what(bytes, count, place) {
        What::Refused(why) => u32::from(u8::from(why)),
        _ => 0,
    }
}

#[unsafe(no_mangle)]
pub extern "C" fn siamrung_frame_place(bytes: &[u8], count: usize, place: usize) -> usize
    ensures { result ≡ (read_frame bytes.now count place).place }
{
    frames::reading::read(bytes, count, place).place
}

// ---- the frame; 0 where there is none

#[unsafe(no_mangle)]
pub extern "C" fn siamrung_frame_from_sensor(bytes: &[u8], count: usize, place: usize) -> u32
    ensures { result ≡ from_sensor (read_frame bytes.now count place).what }
{
    match what(bytes, count, place) {
        What::Frame { way, .. } => u32::from(way),
        _ => 0,
    }
}

#[unsafe(no_mangle)]
pub extern "C" fn siamrung_frame_control(bytes: &[u8], count: usize, place: usize) -> u32
    ensures { result ≡ control_of (read_frame bytes.now count place).what }
{
    match what(bytes, count, place) {
        What::Frame { control, .. } => u32::from(control),
        _ => 0,
    }
}

fn count_of(w: What) -> usize
    ensures { result ≡ count_of w }
{
    match w {
        What::Frame { count, .. } => count,
        _ => 0,
    }
}

#[unsafe(no_mangle)]
pub extern "C" fn siamrung_frame_field_count(bytes: &[u8], count: usize, place: usize) -> usize
    ensures { result ≡ count_of (read_frame bytes.now count place).what }
{
    count_of(what(bytes, count, place))
}

// ---- its field

// Copies the field, or nothing where it does not fit. Answers how many bytes it wrote.
#[tactic(auto, using(crate::proofs::Fields::count_most))]
#[unsafe(no_mangle)]
pub extern "C" fn siamrung_frame_field(
    bytes: &[u8],
    count: usize,
    place: usize,
    field: &mut [u8],
) -> usize
    ensures answer { result ≡ copied (read_frame bytes.now count place).what (length field.old) }
    ensures left { field.new ≡ field_left (read_frame bytes.now count place) field.old }
{
    let found = frames::reading::read(bytes, count, place);
    let n = count_of(found.what).div_ceil(8);
    if field.len() < n {
        return 0;
    }
    field[..n].copy_from_slice(&found.field[..n]);
    n
}
