//! The sixteen predefined names.
pub const INTEGER: u16 = 1;

pub const BOOLEAN: u16 = 2;

pub const FLOAT: u16 = 3;

pub const CHARACTER: u16 = 4;

pub const ASCII: u16 = 5;

pub const NATURAL: u16 = 6;

pub const POSITIVE: u16 = 7;

pub const STRING: u16 = 8;

pub const DURATION: u16 = 9;

pub const CONSTRAINT_ERROR: u16 = 10;

pub const NUMERIC_ERROR: u16 = 11;

pub const PROGRAM_ERROR: u16 = 12;

pub const STORAGE_ERROR: u16 = 13;

pub const TASKING_ERROR: u16 = 14;

pub const TRUE: u16 = 15;

pub const FALSE: u16 = 16;
