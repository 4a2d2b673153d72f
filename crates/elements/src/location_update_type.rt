// Location update type and location update accept type (EN 300 392-2, clause 16.10.35), 3 bits.
// Numbers, as document 01 has them: a field and a record hold any number of its width.
pub const ROAMING_LOCATION_UPDATING: u8 = 0;

pub const MIGRATING_LOCATION_UPDATING: u8 = 1;

pub const PERIODIC_LOCATION_UPDATING: u8 = 2;

pub const ITSI_ATTACH: u8 = 3;

pub const SERVICE_RESTORATION_ROAMING_LOCATION_UPDATING: u8 = 4;

pub const SERVICE_RESTORATION_MIGRATING_LOCATION_UPDATING: u8 = 5;

pub const DEMAND_LOCATION_UPDATING: u8 = 6;

pub const DISABLED_MS_UPDATING: u8 = 7;
