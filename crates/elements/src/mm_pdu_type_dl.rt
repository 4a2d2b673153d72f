// MM PDU types, downlink (EN 300 392-2, clause 16.10.39), 4 bits: those that are read and written here.
// Numbers, as document 01 has them: a field and a record hold any number of its width.
pub const D_LOCATION_UPDATE_ACCEPT: u8 = 5;

pub const D_ATTACH_DETACH_GROUP_IDENTITY: u8 = 10;
