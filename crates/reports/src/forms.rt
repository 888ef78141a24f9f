// The patterns that tell a report's form, each once in code: specs/Forms.antt has the same under the same names.
// Relies on nothing. The reader and the writer use them, and have no pattern of their own.

// Bits 2-3: how many words a report has.
pub const FOUR_WORDS: u16 = 0b00;

pub const SEVEN_WORDS: u16 = 0b11;

// Bits 4-10 of four words.
pub const SEARCH_PATTERN: u16 = 0b1101100;

pub const STROBE_PATTERN: u16 = 0b1100000;

pub const STATUS_PATTERN: u16 = 0b0110000;

pub const RTQC_PATTERN: u16 = 0b1001000;

// Bits 4-8 of a Map, whose bits 9-10 are its variation.
pub const MAP_PATTERN: u16 = 0b00000;

// Bits 88-90 of seven words with bit 12 one: the radar that stands in for the height of DABS and ATCRBS.
pub const CD_CODE: u16 = 0b100;

pub const MTD_CODE: u16 = 0b110;

pub const RDAS_CODE: u16 = 0b101;

// The same bits of an MTD search and of an RDAS search.
pub const MTD_SEARCH_CODE: u16 = 0b010;

pub const RDAS_SEARCH_CODE: u16 = 0b001;

// What stands for those bits where bit 12 is zero: no three bits are this number. For callers: the reader answers an Option instead.
pub const NO_RADAR: u16 = 8;
