// The reader of a line (document 01, "The line"), in each form in which a line is lent. What is found at a place is found once, in line; each form
// is a module with a type of its own, which says how words are counted and fetched, and when the line is not taken. What is found gets the number
// of its link last: no public function answers an outcome without it.
// Relies on lines for what an outcome is, report_reader for the answer to a run's words, words for idle, too wide and odd, refusals for names.
#![tactic(auto)]

mod answers; // answers.rt: what is answered
pub mod bytes; // bytes.rt: a line lent as bytes, two a word
mod line; // line.rt: what each form says of itself, and what is found at a place
mod run; // run.rt: what is remembered of a run
pub mod wide; // wide.rt: a line lent as 16-bit numbers
