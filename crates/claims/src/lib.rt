// The demands on one page, the requests that have landed, the twelve worked cases in one table, link data fields by the printed bit numbers, the
// numbers of refusals and kinds (specs/): definitions and claims over the crates below, proved in proofs/.
// There is no code here: what the claims speak of is promised by the functions of line_reader, line_writer, field_reader and
// field_writer.
#![tactic(auto)]
