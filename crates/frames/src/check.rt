// The frame check sequence: whole bytes by a formula without a table, and the bits behind them one by one. The register is a number of
// sixteen bits, the coefficient of x^15 on top.
// Relies on stream.rt for the bits; specs/Check.antt says what the check sequence is, specs/Steps.antt what a byte makes of the register.
ghost use Rattle.std.specs.Prelude.{◌≡◌, cond, ◌*◌, ◌/◌, ◌%◌, eqb, length};
ghost use Rattle.std.specs.Int.Bits.{bit_xor};
ghost use Rattle.frames.specs.Stream.{bits_from, number};
ghost use Rattle.frames.specs.Check.{check_of};
ghost use Rattle.frames.specs.Steps.{register_at, remainder_of};

use crate::stream::bit;

// The generator's powers below x^16: x^12, x^5 and 1.
const GENERATOR: u16 = 0x1021;

const ONES: u16 = 0xFFFF;

// The register with one bit more.
fn fed(register: u16, b: u64) -> u16
    ensures { result ≡ cond (eqb (register / 32768) b) (register * 2 % 65536) (bit_xor (register * 2 % 65536) 0x1021) }
{
    let moved = register << 1;
    if u64::from(register >> 15) == b {
        moved
    } else {
        moved ^ GENERATOR
    }
}

// The register with a byte more: what of it stays, and the remainder of what leaves it.
fn fed_byte(register: u16, byte: u8) -> u16
    ensures { result ≡ bit_xor (register % 256 * 256) (remainder_of (bit_xor (register / 256) byte)) }
{
    let x = (register >> 8) ^ u16::from(byte);
    let y = x ^ (x >> 4);
    (register << 8) ^ ((y << 12) ^ (y << 5) ^ y)
}

// The register when bytes are fed.
fn fed_bytes(b: &[u8]) -> u16
    ensures { result ≡ register_at b.now (length b.now * 8) }
{
    let mut register = ONES;
    for byte in b {
        register = fed_byte(register, *byte);
    }
    register
}

// The check sequence of the first n bits, as a number.
pub fn check(b: &[u8], n: usize) -> u64
    ensures { result ≡ number (check_of (bits_from b.now 0 n)) }
{
    // so many bytes stand whole among them
    let m = (n / 8).min(b.len());
    let mut register = fed_bytes(&b[..m]);
    for i in m * 8..n {
        register = fed(register, bit(b, i));
    }
    u64::from(ONES - register)
}
