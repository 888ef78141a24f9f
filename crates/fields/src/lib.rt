// Link data fields (document 01, "Link data fields"; document 004, 5.3): the records, the answers, and what the reader and the writer share.
// `field_reader` reads a field, `field_writer` writes one; what each answers is defined here, and the claims of both are proved here.
// Relies on `bits` for the bits of lent bytes and on `refusals` for the names and numbers of what is refused.
#![tactic(auto)]

ghost use Rattle.std.specs.Prelude.{◌≡◌};
ghost use Rattle.fields.specs.Reading.{way_numbered, way_number, number_of};
ghost use Rattle.fields.specs.Numbers.{part_rule_number, part_rule_numbered, fault_number};
ghost use Rattle.fields.specs.Table.{behind_of, fault_of};

pub mod table; // the known types, their lengths, their parts, and the rules of the parts
pub mod parts; // the parts of a field: their faults, and what the counted ones say
pub mod records; // a record from the values of its parts, and back

use refusals::FieldRefusal;

// Which way a field travels.
#[derive(Clone, Copy, Debug, PartialEq, Eq)]
pub enum Direction {
    ToSensor,
    FromSensor,
}

// By the number that C names a way with: 0 is to the sensor, any other from it.
impl From<u32> for Direction {
    ghost from_gives = { λ number way. way ≡ way_numbered number };

    fn from(number: u32) -> Direction {
        match number {
            0 => Direction::ToSensor,
            _ => Direction::FromSensor,
        }
    }
}

// And back: 1 from the sensor.
impl From<Direction> for u32 {
    ghost from_gives = { λ way number. number ≡ way_number way };

    fn from(way: Direction) -> u32 {
        match way {
            Direction::ToSensor => 0,
            Direction::FromSensor => 1,
        }
    }
}

// The type of a relay, and that of a test response, which no relay holds.
pub const RELAY: u64 = 0x03;

pub const TEST_RESPONSE: u64 = 0x62;

// A row of the table. A field of the type has base + step * (more + the values of its counted parts) bits; a part is named by its place in
// the layout, the type itself being part 0.
#[derive(Clone, Copy)]
pub struct Row {
    pub code: u64,
    pub way: Direction,
    pub base: usize,
    pub step: usize,
    pub more: u64,
    pub first: Option<usize>,
    pub second: Option<usize>,
    pub third: Option<usize>,
}

// What stands behind the parts of a field: nothing, the text of an ELM, altimeter blocks, or numbers of 24 bits (addresses, identifiers).
#[derive(Clone, Copy, Debug, PartialEq, Eq)]
pub enum Behind {
    Nothing,
    Text,
    Blocks,
    Numbers,
}

impl Row {
    // By the bits of each step; a type with none has nothing there.
    pub fn behind(self) -> Behind
        ensures { result ≡ behind_of self }
    {
        match self.step {
            0 => Behind::Nothing,
            80 => Behind::Text,
            8 => Behind::Blocks,
            _ => Behind::Numbers,
        }
    }
}

// The document's number of a refusal; 0 where there is none: 0, as C reads it, and as `answer_number` of specs/ has it.
pub fn number<T: Drop>(answer: Result<T, FieldRefusal>) -> u8
    ensures { result ≡ number_of answer }
{
    match answer {
        Ok(_) => 0,
        Err(refusal) => u8::from(refusal),
    }
}

// What a part's value may be.
#[derive(Clone, Copy, Debug, PartialEq, Eq)]
pub enum Rule {
    Any = 0,
    Spare = 1,
    NotZero = 2,
    One = 3,
    UpTo4 = 4,
    UpTo5 = 5,
    Advisory = 6,
}

// By the number that the definitions name a rule with; any other number is `Rule::Any`.
impl From<u8> for Rule {
    ghost from_gives = { λ number rule. rule ≡ part_rule_numbered number };

    fn from(number: u8) -> Rule {
        match number {
            1 => Rule::Spare,
            2 => Rule::NotZero,
            3 => Rule::One,
            4 => Rule::UpTo4,
            5 => Rule::UpTo5,
            6 => Rule::Advisory,
            _ => Rule::Any,
        }
    }
}

impl Rule {
    // What is wrong with a part's value, if anything is.
    pub fn fault(self, x: u64) -> Option<Fault>
        ensures { fault_number result ≡ fault_of (part_rule_number self) x }
    {
        match self {
            Rule::Spare if x != 0 => Some(Fault::Spare),
            Rule::NotZero if x == 0 => Some(Fault::Unused),
            Rule::One if x != 1 => Some(Fault::Unused),
            Rule::UpTo4 if 4 < x => Some(Fault::Unused),
            Rule::UpTo5 if 5 < x => Some(Fault::Unused),
            Rule::Advisory if x % 8 == 7 => Some(Fault::Unused),
            _ => None,
        }
    }
}

// What is wrong with a part's value: a spare bit is one; the value is not in use.
#[derive(Clone, Copy, Debug, PartialEq, Eq)]
pub enum Fault {
    Spare = 1,
    Unused = 2,
}

// What is wrong with the parts of a field: a spare bit is one; a value is not in use.
#[derive(Clone, Copy)]
pub struct Faults {
    pub spare: bool,
    pub unused: bool,
}

// A field that is no relay: for each type what its bits say, in the document's words. What the type tells is not said again, and spares are
// left out. The entries of a list and the text of an ELM stand beside the record.
#[derive(Clone, Copy)]
pub enum Field {
    TacticalUplink {
        address: u64,
        number: u64,
        priority: u64,
        exp: u64,
        text: u64,
    },
    ElmUplink {
        address: u64,
        number: u64,
        priority: u64,
        exp: u64,
        length: u64,
    },
    DownlinkRequest {
        address: u64,
        number: u64,
        priority: u64,
        exp: u64,
        msrc: u64,
    },
    IdRequest {
        address: u64,
        number: u64,
    },
    CapabilityRequest {
        address: u64,
        number: u64,
    },
    Cancellation {
        address: u64,
        number: u64,
        referenced: u64,
        kind: u64,
    },
    Test {
        pattern: u64,
    },
    AltimeterCorrection {
        n: u64,
    },
    AtcFailure {
        state: u64,
    },
    SensorFailure {
        sid: u64,
        sstat: u64,
    },
    DabsControlState {
        ip: u64,
        is: u64,
        iu: u64,
    },
    AtcrbsControlState {
        ica: u64,
        iua: u64,
    },
    RejectionNotice {
        address: u64,
        referenced: u64,
        qual: u64,
    },
    DeliveryNotice {
        address: u64,
        referenced: u64,
        di: u64,
    },
    TacticalDownlink {
        address: u64,
        text: u64,
    },
    ElmDownlink {
        address: u64,
        length: u64,
    },
    Utility {
        address: u64,
        um: u64,
    },
    Capability {
        address: u64,
        ca: u64,
        aca: u64,
        eca: u64,
    },
    IdCode {
        address: u64,
        code: u64,
    },
    TestResponse {
        pattern: u64,
    },
    ControllerAlert {
        acid1: u64,
        acid2: u64,
        cs1: u64,
        advisory1: u64,
        del1: u64,
        cs2: u64,
        advisory2: u64,
        del2: u64,
        v1: u64,
        v2: u64,
    },
}

// A relay's record is the sensor and the record of the field inside.
#[derive(Clone, Copy)]
pub enum Record {
    Single(Field),
    Relay { sensor: u64, inner: Field },
}

// What reading answers: the record, or why there is none; and the list of the record: zeros behind its entries, all zeros where there is none. An
// array, not a Vec: the memory is fixed.
#[derive(Clone, Copy)]
pub struct Found {
    pub answer: Result<Record, FieldRefusal>,
    pub list: [i32; 30],
}
