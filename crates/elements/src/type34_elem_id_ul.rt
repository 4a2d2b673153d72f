// Type 3/4 element identifiers, uplink (EN 300 392-2, clause 16.10.51), 4 bits.
// Numbers, as document 01 has them: a field and a record hold any number of its width.
pub const GROUP_IDENTITY_LOCATION_DEMAND: u8 = 3;

pub const GROUP_REPORT_RESPONSE: u8 = 4;

pub const DM_MS_ADDRESS: u8 = 6;

pub const GROUP_IDENTITY_UPLINK: u8 = 8;

pub const AUTHENTICATION_UPLINK: u8 = 9;

pub const EXTENDED_CAPABILITIES: u8 = 11;

pub const PROPRIETARY: u8 = 15;
