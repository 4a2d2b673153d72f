// Group identity location demand (EN 300 392-2, clause 16.10.24).
ghost use Rattle.std.specs.Prelude.{◌≡◌, ◌≤◌};
ghost use Rattle.element_writers.specs.LocationAsked.{demand_location_asked};

use crate::group_address::{LocationAsked, NO_LOCATION, location_of};
use crate::group_list::ask_list;
use elements::group_identity_location_demand::OptionalLocationDemand;

// The questions; an absent one passes them, and has no bits.
pub fn ask_location_demand(o: &OptionalLocationDemand) -> LocationAsked
    ensures { (result ≡ demand_location_asked o.now) × (result.content ≤ 5192) }
{
    if o.present {
        let list = &o.value.group_identity_uplink;
        return location_of(
            o.value.group_identity_attach_detach_mode < 2,
            list.present,
            ask_list(list),
        );
    }
    NO_LOCATION
}
