// The calls of a C program for frames of the communications channel (document 02, Ticket 1): numbers and byte slices in, one number out.
// include/siamrung.h says what each means to the caller; a call keeps nothing.
#![tactic(auto)]

pub mod reading; // reading.rt: the calls that read a frame
pub mod writing; // writing.rt: the calls that write a frame
