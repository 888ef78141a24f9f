// What the program prints.
use lines::{NotWritten, Received, What};
use std::io::Stdout;
use std::{fmt, io};

// The name of what was found, and a refusal's number.
#[derive(Clone, Copy)]
struct Name(What);

impl fmt::Display for Name {
    fn fmt<W: fmt::Write>(&self, f: &mut fmt::Formatter<W>) -> fmt::Result {
        match self.0 {
            What::Accepted(_) => f.write_str("REPORT"),
            What::Refused(why) => write!(f, "REFUSED {}", u8::from(why)),
            What::End => f.write_str("END"),
        }
    }
}

// What a reader answers: the name, the three places, and the link.
#[derive(Clone, Copy)]
pub struct Found(pub Received);

impl fmt::Display for Found {
    fn fmt<W: fmt::Write>(&self, f: &mut fmt::Formatter<W>) -> fmt::Result {
        let o = self.0.outcome;
        write!(
            f,
            "{} {} {} {} LINK {}",
            Name(o.what),
            o.first,
            o.after,
            o.named,
            self.0.link
        )
    }
}

// What a writer answers.
#[derive(Clone, Copy)]
pub struct Answer(pub Result<usize, NotWritten>);

impl fmt::Display for Answer {
    fn fmt<W: fmt::Write>(&self, f: &mut fmt::Formatter<W>) -> fmt::Result {
        match self.0 {
            Ok(place) => write!(f, "NEXT {place}"),
            Err(NotWritten { why, place }) => write!(f, "REFUSED {} {place}", u8::from(why)),
        }
    }
}

// The words that no longer tell their place.
pub fn changed(out: Stdout, words: &[u16]) -> io::Result<()> {
    print!(out; "CHANGED")?;
    for (i, &word) in words.iter().enumerate() {
        if !crate::lent::is_numbered(i, word) {
            print!(out; " {i} {word}")?;
        }
    }
    println!(out; "")
}
