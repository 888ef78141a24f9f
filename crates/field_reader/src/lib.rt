// The reader of link data fields: a field's bytes to its record, list and text, or a refusal.
// Relies on `fields` for the table, the records and what is answered, on `bits` for the bits of lent bytes, and on `refusals` for the names and
// numbers of what is refused.
#![tactic(auto)]

mod parts; // the values of a field's parts
mod lists; // the entries of a list: altimeter blocks, addresses, identifiers
mod typed; // a field whose type has a row: its count, its faults, its list
pub mod reading; // the calls that read
