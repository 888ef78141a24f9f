// The calls of a C program (document 01, "The C host and the lister"): numbers and byte slices in, one number out. include/siamrung.h says
// what each means to the caller; a call keeps nothing, and reading writes nothing.
// Relies on line_reader and line_writer for the line, report_items for a report by numbers.
#![tactic(auto)]

pub mod line; // line.rt: the calls that read a line
pub mod write; // write.rt: the calls that write a report into a line
