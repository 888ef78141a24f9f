// A report as a C program has it (document 01, "The C host and the lister"): a kind's number, and items, each a number and a value. Here are
// the items of any report, and the report that any kind and items stand for; a line is not touched. specs/Items.antt numbers the items.
// Relies on reports for the records, measures for their counts, pairs for items in bytes.
#![tactic(auto)]

pub mod given; // given.rt: the report that a kind and items stand for
pub mod items; // items.rt: the fields of a report, by number
mod numbers; // numbers.rt: the number of each item
