// Where flags are in a stream of bits: at a place, behind neighbouring ones, the first from a place on.
// The search for the first goes by windows of many bits: where no six ones stand in a row, no flag is.
// Relies on bits for many bits at a time, stream.rt for one; specs/Reading.antt says what is sought, specs/Steps.antt what its steps leave.
ghost use Rattle.std.specs.Prelude.{◌≡◌, ◌+◌, ◌^◌, ◌≤◌, ◌<◌, length};
ghost use Rattle.bits.specs.Bits.{bits_of};
ghost use Rattle.frames.specs.Frame.{flag};
ghost use Rattle.frames.specs.Reading.{begins, past_flags, up_to_flag, stream_at};
ghost use Rattle.frames.specs.Steps.{SixOnes, NoFlags};

use crate::stream::bit;

// A flag, eight bits as a number.
pub const FLAG: u64 = 0x7E;

// As many bits as one load of eight bytes always holds.
const WINDOW: usize = 57;

// Where six ones stand in a row in w: for each six, a one at the lightest of them.
#[tactic(auto, using(crate::proofs::Windows::six_ones))]
fn six_ones(w: u64) -> u64
    ensures { SixOnes w result }
{
    let two = w & (w >> 1);
    let four = two & (two >> 2);
    four & (two >> 4)
}

// How many places from p on no flag begins at, as the n bits behind p show: those up to the first six ones, or up to the last six bits.
fn clear(b: &[u8], p: usize, n: usize) -> usize
    requires { (6 ≤ n) × (n ≤ 57) × (p + n < 2 ^ 64) }
    ensures { (result + 5 ≤ n) × NoFlags b.now p (p + result) }
{
    let ones = six_ones(bits::read(b, p + 1, n));
    // so many of the n bits stand in front of the first six ones
    n + u64::leading_zeros(ones) as usize - 69
}

// The first place of a flag from `from` on, sought bit by bit up to `to`; `to` where there is none. Called where ones were seen, so that many
// ones in a row, which are no flag, cost no window each. No Option: the search goes on from that place.
fn near(b: &[u8], from: usize, to: usize) -> usize
    requires { (from ≤ to) × (to + 7 < 2 ^ 64) }
    ensures { (from ≤ result) × (result ≤ to) × NoFlags b.now from result × (result < to → bits_of b.now result 8 ≡ 0x7E) }
{
    if from == to {
        return to;
    }
    // the eight bits from p on
    let mut eight = bits::read(b, from, 8);
    for p in from..to {
        if eight == FLAG {
            return p;
        }
        eight = eight * 2 % 256 + bit(b, p + 8);
    }
    to
}

// A stream of bits: the first `count` of bytes.
#[derive(Clone, Copy)]
pub struct Stream<'a> {
    pub bytes: &'a [u8],
    pub count: usize,
}

impl Stream<'_> {
    // Whether a flag begins at a place.
    pub fn flag_at(self, p: usize) -> bool
        ensures { result ≡ begins flag (stream_at self.entry.bytes.now self.entry.count p) }
    {
        8 <= self.count.saturating_sub(p) && bits::read(self.bytes, p, 8) == FLAG
    }

    // The place behind neighbouring flags.
    pub fn past_flags(self, place: usize) -> usize
        requires { place ≤ self.count }
        ensures { (place ≤ result) × (result ≤ self.entry.count) × (stream_at self.entry.bytes.now self.entry.count result ≡ past_flags 0 (stream_at self.entry.bytes.now self.entry.count place)) }
    {
        let mut p = place;
        // not a `for`: only the flags tell how many there are
        while self.flag_at(p) {
            p += 8;
        }
        p
    }

    // The place of the first flag; the count where there is none. No Option: what stands between is judged up to that place.
    pub fn closing(self, from: usize) -> usize
        requires { from ≤ self.count }
        ensures { result ≡ from + length (up_to_flag (stream_at self.entry.bytes.now self.entry.count from)) }
    {
        let mut p = from;
        // not a `for`: a step is as long as the window is clear
        while 8 <= self.count - p {
            // a flag from p on has its ones in the bits behind p, and not in the last one
            let n = (self.count - p - 2).min(WINDOW);
            let to = p + n - 5;
            let place = near(self.bytes, p + clear(self.bytes, p, n), to);
            if place < to {
                return place;
            }
            p = place;
        }
        self.count
    }
}
