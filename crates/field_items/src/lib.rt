// The items of link data fields: by what numbers a C program asks for the parts of a record, and what record it gives by them.
// Relies on `fields` for the records and the table, on `pairs` for the pairs of numbers that are given, and on `bits` for the numbers of a list.
#![tactic(auto)]

pub mod items; // the items of a field, by number
pub mod given; // a record and a list from what is given
