// Type 3/4 element identifiers, downlink (EN 300 392-2, clause 16.10.51), 4 bits.
// Numbers, as document 01 has them: a field and a record hold any number of its width.
pub const DEFAULT_GROUP_ATTACH_LIFETIME: u8 = 1;

pub const NEW_REGISTERED_AREA: u8 = 2;

pub const SECURITY_DOWNLINK: u8 = 3;

pub const GROUP_REPORT_RESPONSE: u8 = 4;

pub const GROUP_IDENTITY_LOCATION_ACCEPT: u8 = 5;

pub const DM_MS_ADDRESS: u8 = 6;

pub const GROUP_IDENTITY_DOWNLINK: u8 = 7;

pub const AUTHENTICATION_DOWNLINK: u8 = 10;

pub const GROUP_IDENTITY_SECURITY_RELATED_INFORMATION: u8 = 12;

pub const CELL_TYPE_CONTROL: u8 = 13;

pub const PROPRIETARY: u8 = 15;
