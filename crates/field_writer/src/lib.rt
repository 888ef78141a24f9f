// The writer of link data fields: a record, its list and its text to a field's bytes, or a refusal.
// Relies on `fields` for the table, the records and what is answered, on `bits` for the bits of lent bytes, and on `refusals` for the names and
// numbers of what is refused.
#![tactic(auto)]

mod puts; // the parts and the bytes of a text, one by one
mod given; // what is to be written, with what the table says of its type: its refusals, its bits
mod lists; // the entries of a list: altimeter blocks, addresses, identifiers
pub mod writing; // the calls that write
