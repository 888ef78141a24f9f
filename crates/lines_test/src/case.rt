// A case: 71 numbers of two bytes, high byte first.
ghost use Rattle.std.specs.Prelude.{◌<◌};

use reports::altitude::Form;

// How many bytes a case has.
pub const SIZE: usize = 142;

// Numbers of two bytes that stand for others: for the largest place and the largest link number; and for a link number whose last sixteen bits are
// those of link 15.
const FAR: u16 = 65535;

const CUT: u16 = 65534;

const CUT_LINK: u32 = 65551;

// What to do.
#[derive(Clone, Copy, Debug, PartialEq, Eq)]
pub enum Task {
    // Read the line to its end, as words and as bytes.
    Read,
    // Read one byte fewer than the words have.
    ReadOdd,
    // Write the report that the words are, in the other form.
    Rewrite,
    // Write a report that is not in the format. Every other number says so.
    WriteTooLarge,
}

impl From<u16> for Task {
    fn from(n: u16) -> Self {
        match n {
            0 => Task::Read,
            1 => Task::ReadOdd,
            2 => Task::Rewrite,
            _ => Task::WriteTooLarge,
        }
    }
}

#[derive(Clone, Copy)]
pub struct Case {
    pub task: Task,
    // how many words the line has
    pub n: u16,
    // how many words are repeated along it; beside an array, not a Vec: the memory is fixed
    pub k: usize,
    pub place: usize,
    pub form: Form,
    pub to: Form,
    pub link: u32,
    pub words: [u16; 64],
}

// The two bytes at a place of a case, as a number.
fn number(bytes: &[u8; SIZE], at: usize) -> u16
    requires { at < 71 }
{
    u16::from_be_bytes([bytes[at * 2], bytes[at * 2 + 1]])
}

fn place_of(n: u16) -> usize {
    match n {
        FAR => usize::MAX,
        _ => usize::from(n),
    }
}

fn link_of(n: u16) -> u32 {
    match n {
        FAR => u32::MAX,
        CUT => CUT_LINK,
        _ => u32::from(n),
    }
}

// The words that are repeated, behind the first seven numbers.
fn repeated(bytes: &[u8; SIZE]) -> [u16; 64] {
    let mut words = [0u16; 64];
    for (i, word) in words.iter_mut().enumerate() {
        *word = number(bytes, i + 7);
    }
    words
}

impl From<[u8; SIZE]> for Case {
    fn from(bytes: [u8; SIZE]) -> Self {
        Case {
            task: Task::from(number(&bytes, 0)),
            n: number(&bytes, 1),
            k: usize::from(number(&bytes, 2)),
            place: place_of(number(&bytes, 3)),
            form: Form::from(u32::from(number(&bytes, 4))),
            to: Form::from(u32::from(number(&bytes, 5))),
            link: link_of(number(&bytes, 6)),
            words: repeated(&bytes),
        }
    }
}
