// The parts of a field by the table's rules: their faults, and what the counted ones say.
// Relies on the table; specs/Table.antt and specs/Steps.antt say what each function means.
ghost use Rattle.std.specs.Prelude.{◌≡◌, ◌%◌, ◌^◌, map};
ghost use Rattle.fields.specs.Table.{counted, count_in};
ghost use Rattle.fields.specs.Numbers.{part_rule_number, part_rule_numbered};
ghost use Rattle.fields.specs.Steps.{faults_within};

use crate::{Fault, Faults, Row, Rule};

// What is wrong with the parts up to the first of no bits, in one pass: both kinds of fault.
pub fn faults_by(widths: &[u8; 11], rules: &[Rule; 11], v: &[u64; 11]) -> Faults
    ensures { result ≡ faults_within widths.now (map part_rule_number rules.now) v.now }
{
    let mut found = Faults {
        spare: false,
        unused: false,
    };
    // The places stay: `faults_within` of specs/Steps.antt goes by them, and behind two zips there is none to name.
    for (i, width) in widths.iter().enumerate() {
        if *width == 0 {
            return found;
        }
        match rules[i].fault(v[i]) {
            None => {}
            Some(Fault::Spare) => found.spare = true,
            Some(Fault::Unused) => found.unused = true,
        }
    }
    found
}

// The rules that numbers name.
fn named(rules: &[u8; 11]) -> [Rule; 11]
    ensures { result ≡ map part_rule_numbered rules.now }
{
    rules.map(Rule::from)
}

// The same by the rules' numbers. It stands beside `faults_by` because of what may not change: any number is taken.
#[tactic(auto, using(crate::proofs::Values::faults_named))]
pub fn faults(widths: &[u8; 11], rules: &[u8; 11], v: &[u64; 11]) -> Faults
    ensures { result ≡ faults_within widths.now rules.now v.now }
{
    faults_by(widths, &named(rules), v)
}

// What a counted part says; 0 where there is none.
fn counted(v: &[u64; 11], part: Option<usize>) -> u64
    ensures { result ≡ counted v.now part }
{
    match part {
        Some(k) if k < 11 => v[k],
        _ => 0,
    }
}

// How many steps a field has: what its counted parts say. Every row and every value is taken, so the sum is said modulo 2^64; of a row of the
// table whose values fit it is below 64.
pub fn count_in(row: Row, v: [u64; 11]) -> usize
    ensures { result ≡ count_in row v % 2 ^ 64 }
{
    row.more
        .wrapping_add(counted(&v, row.first))
        .wrapping_add(counted(&v, row.second))
        .wrapping_add(counted(&v, row.third)) as usize
}
