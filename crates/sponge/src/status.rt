// The numbers of document 01's table that calls on runs and in one go answer; specs/Status.antt says when.
pub const DONE: u8 = keccak::DONE;

pub const BAD_DOMAIN: u8 = 1;

pub const INPUT_TOO_LONG: u8 = 2;

pub const WRONG_PHASE: u8 = 3;

pub const CUSTOMIZATION_TOO_LONG: u8 = 4;

pub const UNREACHABLE: u8 = 5;

pub const OUTPUT_TOO_LONG: u8 = 6;

pub const BAD_LENGTH: u8 = 7;

pub const EVENT_TOO_LONG: u8 = 8;

pub const WRONG_LENGTH: u8 = 11;

pub const BAD_STATES: u8 = abreast::BAD_STATES;

pub const BAD_CHUNK: u8 = 14;

pub const TOO_MANY_ROUNDS: u8 = keccak::TOO_MANY_ROUNDS;
