// The lister: a recording on standard input, its listing on standard output (document 01, "The C host and the lister"). What it says is
// listing's, and proved there; here is only the way in and out. A read that fails is no end of input, and a write that fails is not
// passed over: each is named on standard error, and the listing then lacks its last line.
// Relies on listing for every byte that it prints.
#![tactic(auto)]

ghost use Rattle.std.specs.Prelude.{◌≤◌, length, IfOk};

use listing::{LONGEST, Walk, WalkError};
use std::error::Error;
use std::io::Read;
use std::{fmt, io};

// More than a recording of 65,536 bytes has lines, its end among them.
const CALLS: usize = 16386;

// Why a listing lacks its last line.
#[derive(Debug, Drop)]
enum Trouble {
    Input(io::Error),
    Output(io::Error),
    // no walk from the start comes to this (the claim Whole of listing), and it is named all the same
    Lost(WalkError),
}

impl fmt::Display for Trouble {
    fn fmt<W: fmt::Write>(&self, f: &mut fmt::Formatter<W>) -> fmt::Result {
        match self {
            Trouble::Input(error) => write!(f, "standard input: {error}"),
            Trouble::Output(error) => write!(f, "standard output: {error}"),
            Trouble::Lost(why) => write!(f, "{why}"),
        }
    }
}

impl Error for Trouble {}

impl From<WalkError> for Trouble {
    fn from(why: WalkError) -> Self {
        Trouble::Lost(why)
    }
}

// How many bytes came in before the input ended or the buffer was full, or why a read failed.
fn take_in(rt: HostRuntime, buffer: &mut [u8]) -> io::Result<usize>
    ensures { IfOk result (λ count. count ≤ length buffer.old) }
{
    let mut input = rt.stdin();
    let mut count: usize = 0;
    // a read may bring fewer bytes than there is room for, so no iterator counts them; read_exact does not say how many came before the end
    while count < buffer.len() {
        let more = input.read(&mut buffer[count..])?;
        if more == 0 {
            break;
        }
        count += more;
    }
    Ok(count)
}

// Writes a text.
fn put_out(rt: HostRuntime, text: &[u8]) -> Result<(), Trouble> {
    rt.write_all(text).map_err(Trouble::Output)
}

// Where in a text of so many bytes, of which the first `at` are taken, the next line goes: behind them, or, where it may not fit, at the start.
fn start_of(size: usize, at: usize) -> usize
    requires { at ≤ size }
    ensures { result ≤ size }
{
    if size - at < LONGEST { 0 } else { at }
}

// The listing of a recording, line by line into a buffer, which goes out when another line may not fit, and at the end.
fn list(rt: HostRuntime, recording: &[u8], text: &mut [u8]) -> Result<(), Trouble> {
    let mut walk = Walk::new();
    let mut at: usize = 0;
    for _ in 0..CALLS {
        let start = start_of(text.len(), at);
        if start < at {
            put_out(rt, &text[..at])?;
        }
        let Some(line) = listing::next(recording, walk, &mut text[start..])? else {
            return put_out(rt, &text[..start]);
        };
        at = start + line.len;
        walk = line.next;
    }
    Err(Trouble::Lost(WalkError::Astray))
}

fn run(rt: HostRuntime, buffer: &mut [u8], text: &mut [u8]) -> Result<(), Trouble> {
    let count = take_in(rt, buffer).map_err(Trouble::Input)?;
    list(rt, &buffer[..count], text)
}

// An error is returned where standard error itself cannot be written: every other failure is named there.
fn main(rt: HostRuntime) -> io::Result<()> {
    // arrays, not a Vec: the memory is fixed; one byte more than the longest recording, so that a longer one is seen
    let mut buffer = [0u8; 65537];
    let mut text = [0u8; 8192];
    if let Err(trouble) = run(rt, &mut buffer, &mut text) {
        eprintln!(rt; "lister: {trouble}")?;
    }
    Ok(())
}
