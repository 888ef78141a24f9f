// The known types (document 01, "Link data fields"): one constant table, looked up by the reader and the writer alike. A type's parts go by the
// place of its row: eleven widths and eleven rules; a type with fewer has parts of no bits behind them. Those are a `match` on the place, so that
// each stands in one line with its type.
// Types that are known but not carried have no row: `type_not_carried` of `field_reader` names them.
// Rows, widths, rules and items stay apart: the definitions and the public functions take them apart, and no parts are copied that are not asked for.
// Relies on nothing but the names; specs/Table.antt says what the table holds.
ghost use Rattle.std.specs.Prelude.{◌≡◌, ◌-◌, ◌≤◌, ◌++◌, map, replicate};
ghost use Rattle.fields.specs.Table.{place_of, row_at, widths_at, rules_at, fault_of};
ghost use Rattle.fields.specs.Numbers.{part_rule_number, fault_number};
ghost use Rattle.fields.specs.declared.Rule.TheVariants.{Spare};

use crate::{Direction, Fault, Row, Rule};

// It is a static: of a constant array that is looked into at a place known only as the program runs, the compiler makes a copy each time.
static KNOWN: [Row; 22] = [
    // tactical: address 9-32, number 33-36, P 37, EXP 38-40, text 41-96
    Row {
        code: 0x21,
        way: Direction::ToSensor,
        base: 96,
        step: 0,
        more: 0,
        first: None,
        second: None,
        third: None,
    },
    // ELM: the same to 40, spare 41-44, Length 45-48, text
    Row {
        code: 0x22,
        way: Direction::ToSensor,
        base: 48,
        step: 80,
        more: 1,
        first: Some(6),
        second: None,
        third: None,
    },
    // request: to 40, MSRC 41-44, spare
    Row {
        code: 0x23,
        way: Direction::ToSensor,
        base: 48,
        step: 0,
        more: 0,
        first: None,
        second: None,
        third: None,
    },
    // address, number, spare
    Row {
        code: 0x24,
        way: Direction::ToSensor,
        base: 40,
        step: 0,
        more: 0,
        first: None,
        second: None,
        third: None,
    },
    // address, number, spare
    Row {
        code: 0x02,
        way: Direction::ToSensor,
        base: 40,
        step: 0,
        more: 0,
        first: None,
        second: None,
        third: None,
    },
    // cancellation: address, number, referenced number 37-40, referenced type 41-48
    Row {
        code: 0x25,
        way: Direction::ToSensor,
        base: 48,
        step: 0,
        more: 0,
        first: None,
        second: None,
        third: None,
    },
    // test
    Row {
        code: 0x61,
        way: Direction::ToSensor,
        base: 56,
        step: 0,
        more: 0,
        first: None,
        second: None,
        third: None,
    },
    // altimeter: spare 9-12, N 13-16, blocks
    Row {
        code: 0x9B,
        way: Direction::ToSensor,
        base: 16,
        step: 8,
        more: 1,
        first: Some(2),
        second: None,
        third: None,
    },
    // state 9-10, spare
    Row {
        code: 0x99,
        way: Direction::ToSensor,
        base: 16,
        step: 0,
        more: 0,
        first: None,
        second: None,
        third: None,
    },
    // SID 9-12, spare, SSTAT 15-16, spare
    Row {
        code: 0x65,
        way: Direction::ToSensor,
        base: 24,
        step: 0,
        more: 0,
        first: None,
        second: None,
        third: None,
    },
    // IP 9-11, IS 12-14, IU 15-16, addresses
    Row {
        code: 0x9A,
        way: Direction::ToSensor,
        base: 16,
        step: 24,
        more: 0,
        first: Some(1),
        second: Some(2),
        third: Some(3),
    },
    // ICA 9-12, IUA 13-16, identifiers
    Row {
        code: 0x96,
        way: Direction::ToSensor,
        base: 16,
        step: 24,
        more: 0,
        first: Some(1),
        second: Some(2),
        third: None,
    },
    // address, referenced number 33-36, QUAL 37-39, spare
    Row {
        code: 0x31,
        way: Direction::FromSensor,
        base: 40,
        step: 0,
        more: 0,
        first: None,
        second: None,
        third: None,
    },
    // DI at 37, spare
    Row {
        code: 0x32,
        way: Direction::FromSensor,
        base: 40,
        step: 0,
        more: 0,
        first: None,
        second: None,
        third: None,
    },
    // tactical
    Row {
        code: 0x41,
        way: Direction::FromSensor,
        base: 88,
        step: 0,
        more: 0,
        first: None,
        second: None,
        third: None,
    },
    // ELM: spare 33-36, Length 37-40, text
    Row {
        code: 0x42,
        way: Direction::FromSensor,
        base: 40,
        step: 80,
        more: 1,
        first: Some(3),
        second: None,
        third: None,
    },
    // spare 33-34, UM
    Row {
        code: 0x43,
        way: Direction::FromSensor,
        base: 40,
        step: 0,
        more: 0,
        first: None,
        second: None,
        third: None,
    },
    // CA 33-35, ACA 36-41, ECA 42-93, spare
    Row {
        code: 0x44,
        way: Direction::FromSensor,
        base: 96,
        step: 0,
        more: 0,
        first: None,
        second: None,
        third: None,
    },
    // spare 33-36, code 37-48
    Row {
        code: 0x45,
        way: Direction::FromSensor,
        base: 48,
        step: 0,
        more: 0,
        first: None,
        second: None,
        third: None,
    },
    // test response
    Row {
        code: 0x62,
        way: Direction::FromSensor,
        base: 56,
        step: 0,
        more: 0,
        first: None,
        second: None,
        third: None,
    },
    // alert: ACID 9-32 and 33-56, then twice CS 2, advisory 11, DEL 3, then V1, V2
    Row {
        code: 0x83,
        way: Direction::FromSensor,
        base: 90,
        step: 0,
        more: 0,
        first: None,
        second: None,
        third: None,
    },
    // relay: sensor 9-16, then a whole field
    Row {
        code: 0x03,
        way: Direction::FromSensor,
        base: 16,
        step: 0,
        more: 0,
        first: None,
        second: None,
        third: None,
    },
];

// What stands for a row past the end, and no Option: every place is taken, as `row_at` (`widths_at`, `rules_at`) of specs/Table.antt has it.
const NO_ROW: Row = Row {
    code: 0,
    way: Direction::ToSensor,
    base: 0,
    step: 0,
    more: 0,
    first: None,
    second: None,
    third: None,
};

// The row at place i, and what stands for one past the end.
#[tactic(auto, unfolding(crate::specs::Table::table, crate::specs::Table::rows, crate::specs::Table::row_at))]
pub fn row_at(i: usize) -> Row
    ensures { result ≡ row_at i }
{
    if i < 22 { KNOWN[i] } else { NO_ROW }
}

// Where a type stands in the table: an index, so that no row is looked at but the one that is asked for.
#[tactic(auto, unfolding(crate::specs::Table::place_from, crate::specs::Table::rows, crate::specs::Table::table))]
pub fn find(code: u64) -> Option<usize>
    ensures { result ≡ place_of code }
{
    match code {
        0x21 => Some(0),
        0x22 => Some(1),
        0x23 => Some(2),
        0x24 => Some(3),
        0x02 => Some(4),
        0x25 => Some(5),
        0x61 => Some(6),
        0x9B => Some(7),
        0x99 => Some(8),
        0x65 => Some(9),
        0x9A => Some(10),
        0x96 => Some(11),
        0x31 => Some(12),
        0x32 => Some(13),
        0x41 => Some(14),
        0x42 => Some(15),
        0x43 => Some(16),
        0x44 => Some(17),
        0x45 => Some(18),
        0x62 => Some(19),
        0x83 => Some(20),
        0x03 => Some(21),
        _ => None,
    }
}

// The widths of the parts of the type at place i; past the end eleven parts of no bits: every place is taken, as `widths_at` of specs/ has it.
#[tactic(auto, unfolding(crate::specs::Table::table, crate::specs::Table::widths, crate::specs::Table::widths_at))]
pub fn widths_at(i: usize) -> [u8; 11]
    ensures { result ≡ widths_at i }
{
    match i {
        0 => [8, 24, 4, 1, 3, 56, 0, 0, 0, 0, 0], // 21
        1 => [8, 24, 4, 1, 3, 4, 4, 0, 0, 0, 0], // 22
        2 => [8, 24, 4, 1, 3, 4, 4, 0, 0, 0, 0], // 23
        3 => [8, 24, 4, 4, 0, 0, 0, 0, 0, 0, 0], // 24
        4 => [8, 24, 4, 4, 0, 0, 0, 0, 0, 0, 0], // 02
        5 => [8, 24, 4, 4, 8, 0, 0, 0, 0, 0, 0], // 25
        6 => [8, 48, 0, 0, 0, 0, 0, 0, 0, 0, 0], // 61
        7 => [8, 4, 4, 0, 0, 0, 0, 0, 0, 0, 0], // 9B
        8 => [8, 2, 6, 0, 0, 0, 0, 0, 0, 0, 0], // 99
        9 => [8, 4, 2, 2, 8, 0, 0, 0, 0, 0, 0], // 65
        10 => [8, 3, 3, 2, 0, 0, 0, 0, 0, 0, 0], // 9A
        11 => [8, 4, 4, 0, 0, 0, 0, 0, 0, 0, 0], // 96
        12 => [8, 24, 4, 3, 1, 0, 0, 0, 0, 0, 0], // 31
        13 => [8, 24, 4, 1, 3, 0, 0, 0, 0, 0, 0], // 32
        14 => [8, 24, 56, 0, 0, 0, 0, 0, 0, 0, 0], // 41
        15 => [8, 24, 4, 4, 0, 0, 0, 0, 0, 0, 0], // 42
        16 => [8, 24, 2, 6, 0, 0, 0, 0, 0, 0, 0], // 43
        17 => [8, 24, 3, 6, 52, 3, 0, 0, 0, 0, 0], // 44
        18 => [8, 24, 4, 12, 0, 0, 0, 0, 0, 0, 0], // 45
        19 => [8, 48, 0, 0, 0, 0, 0, 0, 0, 0, 0], // 62
        20 => [8, 24, 24, 2, 11, 3, 2, 11, 3, 1, 1], // 83
        21 => [8, 8, 0, 0, 0, 0, 0, 0, 0, 0, 0], // 03
        _ => [0, 0, 0, 0, 0, 0, 0, 0, 0, 0, 0],
    }
}

// The rules of a type's parts; parts of no bits behind them are spare.
fn ruled<const N: usize>(parts: [Rule; N]) -> [Rule; 11]
    requires { N ≤ 11 }
    ensures { result ≡ parts.entry ++ replicate (11 - N) Spare }
{
    let mut rules = [Rule::Spare; 11];
    rules[..N].copy_from_slice(&parts);
    rules
}

// Their rules; past the end any value: every place is taken, as `rules_at` of specs/ has it.
#[tactic(auto, unfolding(crate::specs::Table::table, crate::specs::Table::rules, crate::specs::Table::rules_at))]
pub fn rules_at(i: usize) -> [Rule; 11]
    ensures { map part_rule_number result ≡ rules_at i }
{
    use Rule::{Advisory, Any, NotZero, One, Spare, UpTo4, UpTo5};
    match i {
        0 => ruled([Any, Any, NotZero, Any, NotZero, Any]), // 21
        1 => ruled([Any, Any, NotZero, Any, NotZero, Spare, NotZero]), // 22
        2 => ruled([Any, Any, NotZero, Any, NotZero, One, Spare]), // 23
        3 => ruled([Any, Any, NotZero, Spare]), // 24
        4 => ruled([Any, Any, NotZero, Spare]), // 02
        5 => ruled([Any, Any, NotZero, NotZero, Any]), // 25
        6 => ruled([Any, Any]), // 61
        7 => ruled([Any, Spare, Any]), // 9B
        8 => ruled([Any, NotZero, Spare]), // 99
        9 => ruled([Any, Any, Spare, NotZero, Spare]), // 65
        10 => ruled([Any, Any, Any, Any]), // 9A
        11 => ruled([Any, Any, Any]), // 96
        12 => ruled([Any, Any, NotZero, UpTo4, Spare]), // 31
        13 => ruled([Any, Any, NotZero, Any, Spare]), // 32
        14 => ruled([Any, Any, Any]), // 41
        15 => ruled([Any, Any, Spare, Any]), // 42
        16 => ruled([Any, Any, Spare, Any]), // 43
        17 => ruled([Any, Any, Any, Any, Any, Spare]), // 44
        18 => ruled([Any, Any, Spare, Any]), // 45
        19 => ruled([Any, Any]), // 62
        20 => ruled([
            Any, Any, Any, Any, Advisory, UpTo5, Any, Advisory, UpTo5, Any, Any,
        ]), // 83
        21 => ruled([Any, Any]), // 03
        _ => [Any; 11],
    }
}

// What is wrong with a part's value, by its rule's number. It stands beside `Rule::fault` because of what may not change: any number is taken.
#[tactic(auto, using(crate::proofs::Values::numbered_fault))]
pub fn fault(rule: u8, x: u64) -> Option<Fault>
    ensures { fault_number result ≡ fault_of rule x }
{
    Rule::from(rule).fault(x)
}
