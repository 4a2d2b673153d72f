// MM PDU types, uplink (EN 300 392-2, clause 16.10.39), 4 bits: the one that is read and written here.
// Numbers, as document 01 has them: a field and a record hold any number of its width.
pub const U_LOCATION_UPDATE_DEMAND: u8 = 2;
