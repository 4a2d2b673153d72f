// Energy saving mode (EN 300 392-2, clause 16.10.9), 3 bits.
// Numbers, as document 01 has them: a field and a record hold any number of its width.
pub const STAY_ALIVE: u8 = 0;

pub const EG1: u8 = 1;

pub const EG2: u8 = 2;

pub const EG3: u8 = 3;

pub const EG4: u8 = 4;

pub const EG5: u8 = 5;

pub const EG6: u8 = 6;

pub const EG7: u8 = 7;
