// The number of each item, from 1 on without a gap. specs/Items.antt has the same by its own names, and every function that uses them is held
// to it.
// They stay numbers: a C program asks by any number, and each is a place in what is given. To come from a number an enum would take a match of
// 36 arms.
// Relies on nothing.

pub const TEST: usize = 1;

pub const FAA: usize = 2;

pub const AF: usize = 3;

pub const RANGE: usize = 4;

pub const AZIMUTH: usize = 5;

pub const TIME: usize = 6;

pub const RUN: usize = 7;

pub const AIMS: usize = 8;

pub const AIMS_CODE: usize = 9;

pub const VARIATION: usize = 10;

pub const START: usize = 11;

pub const STOP: usize = 12;

pub const SECOND: usize = 13;

pub const THIRD: usize = 14;

pub const FOURTH: usize = 15;

pub const PRIMARY: usize = 16;

pub const MODE3A: usize = 17;

pub const MODE_C: usize = 18;

pub const SPI: usize = 19;

pub const REINFORCED: usize = 20;

pub const CODE7700: usize = 21;

pub const CODE7600: usize = 22;

pub const ALERT: usize = 23;

pub const RELAY: usize = 24;

pub const ADDRESS: usize = 25;

pub const CONFIDENCE: usize = 26;

pub const TRANSITION: usize = 27;

pub const FALSE_TARGET: usize = 28;

pub const CODE: usize = 29;

pub const FILE: usize = 30;

pub const ALTITUDE: usize = 31;

pub const CARRIED: usize = 32;

pub const QUALITY: usize = 33;

pub const DOPPLER1: usize = 34;

pub const DOPPLER2: usize = 35;

pub const GROUND: usize = 36;
