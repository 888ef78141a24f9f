// Reads lines of its standard input with both readers, call by call to the end, and writes reports into lines.
// A case is 71 numbers of two bytes: what to do, how many words the line has, how many words are repeated along it, the place, the altitude's form in
// reading and in writing, the link, and 64 words of which so many are repeated. tests/lines.rs works out the cases and what must be printed.
#![tactic(auto)]

use case::{Case, Task};
use lines::What;
use measures::{Azimuth, Range, RunLength, Time};
use print::{Answer, Found};
use reports::altitude::Form;
use reports::{Report, Search};
use std::io;
use std::io::{ErrorKind, Read, Stdout};

mod case; // case.rt: a case, taken out of its bytes
mod lent; // lent.rt: the line and its bytes, filled
mod print; // print.rt: outcomes, answers and words
mod walk; // walk.rt: call by call to the end

// One word more than a line may have.
const ROOM: usize = 32769;

// A line read from a place to its end, each outcome printed where the line is short.
fn read_line(out: Stdout, line: &mut [u16], bytes: &mut [u8], case: &Case) -> io::Result<()> {
    let n = usize::from(case.n);
    if line.len() < n || bytes.len() < n * 2 {
        return Ok(());
    }
    let line = &mut line[..n];
    let bytes = &mut bytes[..n * 2];
    lent::fill(line, &case.words, case.k);
    lent::spell(bytes, line);
    walk::to_the_end(out, line, bytes, case)
}

// One byte fewer than the words have.
fn read_odd(out: Stdout, bytes: &[u8], case: &Case) -> io::Result<()> {
    let Some(odd) = (usize::from(case.n) * 2).checked_sub(1) else {
        return Ok(());
    };
    if bytes.len() < odd {
        return Ok(());
    }
    let received = line_reader::bytes::read(&bytes[..odd], case.place, case.form, case.link);
    println!(out; "{}", Found(received))
}

// A report written into a line whose words are numbered.
fn write_report(out: Stdout, line: &mut [u16], case: &Case, report: Report) -> io::Result<()> {
    let n = usize::from(case.n);
    if line.len() < n {
        return Ok(());
    }
    let line = &mut line[..n];
    lent::numbered(line);
    let wrote = line_writer::wide::write(line, case.place, case.to, report);
    println!(out; "{}", Answer(wrote))?;
    print::changed(out, line)
}

// What the first words are that are repeated.
fn what_of(case: &Case) -> What {
    if case.words.len() < case.k {
        return What::End;
    }
    line_reader::wide::read(&case.words[..case.k], 0, case.form, 0)
        .outcome
        .what
}

// The report that the words are in one form, written in another one or in the same.
fn write_read(out: Stdout, line: &mut [u16], case: &Case) -> io::Result<()> {
    match what_of(case) {
        What::Accepted(report) => write_report(out, line, case, report),
        _ => println!(out; "NO REPORT"),
    }
}

// A time in storage that six bits do not hold.
fn too_large() -> Report {
    Report::Search(Search {
        test: false,
        faa: true,
        af: false,
        range: Range(320),
        azimuth: Azimuth(1024),
        aims: false,
        code: 0,
        run: RunLength(5),
        time: Time(64),
    })
}

fn one_case(out: Stdout, case: &Case) -> io::Result<()> {
    let mut line = [0u16; ROOM];
    let mut bytes = [0u8; ROOM * 2];
    match case.task {
        Task::Read => read_line(out, &mut line, &mut bytes, case),
        Task::ReadOdd => read_odd(out, &bytes, case),
        Task::Rewrite => write_read(out, &mut line, case),
        Task::WriteTooLarge => write_report(out, &mut line, case, too_large()),
    }
}

// The cases of standard input, of which there are fewer than a thousand.
fn cases(rt: HostRuntime) -> io::Result<()> {
    let mut input = rt.stdin();
    for _ in 0..1000 {
        let mut bytes = [0u8; case::SIZE];
        if let Err(error) = input.read_exact(&mut bytes) {
            if error.kind() == ErrorKind::UnexpectedEof {
                return Ok(());
            }
            return Err(error);
        }
        one_case(rt.stdout(), &Case::from(bytes))?;
    }
    Ok(())
}

fn main(rt: HostRuntime) -> io::Result<()> {
    cases(rt)
}
