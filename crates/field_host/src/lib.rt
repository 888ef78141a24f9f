// The calls of a C program for link data fields (document 01, "Link data fields" and "The C host and the lister"): numbers and byte slices in,
// one number out. include/siamrung.h says what each means to the caller; a call keeps nothing, and reading writes nothing.
#![tactic(auto)]

pub mod reading; // reading.rt: the calls that read a field
pub mod writing; // writing.rt: the calls that write a field
