// Group identity location accept (EN 300 392-2, clause 16.10.23).
ghost use Rattle.std.specs.Prelude.{◌≡◌, ◌≤◌};
ghost use Rattle.element_writers.specs.LocationAsked.{accept_location_asked};

use crate::group_address::{LocationAsked, NO_LOCATION, location_of};
use crate::group_list::ask_list;
use elements::group_identity_location_accept::OptionalLocationAccept;

// The questions; an absent one passes them, and has no bits.
pub fn ask_location_accept(o: &OptionalLocationAccept) -> LocationAsked
    ensures { (result ≡ accept_location_asked o.now) × (result.content ≤ 5192) }
{
    if o.present {
        let list = &o.value.group_identity_downlink;
        return location_of(
            o.value.group_identity_accept_reject < 2,
            list.present,
            ask_list(list),
        );
    }
    NO_LOCATION
}
