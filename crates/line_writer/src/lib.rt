// The writer of a line (document 01, "The line"), in each form in which a line is lent: a report's words and one idle word from a place on.
// A report is written once, in lent; each form is a module with a type of its own, which says how words are put, how many a line has, and when the
// line is not taken. What all forms ask of a place and of a report stands once, in deciding.
// Relies on lines for what is answered, report_writer for a report's words or the refusal that it gets, words for the idle word.
#![tactic(auto)]

pub mod bytes; // bytes.rt: a line lent as bytes, two a word
mod deciding; // deciding.rt: rows 1, 11 and 10
mod lent; // lent.rt: what each form says of itself, and how a report is written
pub mod wide; // wide.rt: a line lent as 16-bit numbers
