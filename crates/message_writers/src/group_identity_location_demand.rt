// Group identity location demand (EN 300 392-2, clause 16.10.24), as it is written.
ghost use Rattle.bits.specs.Written.{spot};
ghost use Rattle.bits.specs.PutsLaws.{Puts};
ghost use Rattle.element_writers.specs.LocationAsked.{demand_location_parts};

use crate::group_list::write_nested;
use bits::bitbuffer::Cursor;
use element_writers::typed_pdu_fields::element_header;
use elements::group_identity_location_demand::OptionalLocationDemand;

// The element, which may be absent; its list's content has `list` bits, its own `content`.
pub(crate) fn write_location_demand(
    c: Cursor,
    octets: &mut [u8],
    identifier: u8,
    o: &OptionalLocationDemand,
    list: usize,
    content: usize,
) -> Cursor
    ensures { Puts (demand_location_parts identifier list content o.now) (spot octets.old c) (spot octets.new result) }
{
    if o.present {
        let h = element_header(identifier, content);
        let b = h.then(0, 1);
        let front = b.then(o.value.group_identity_attach_detach_mode as u64, 1);
        return write_nested(c, octets, front, &o.value.group_identity_uplink, list);
    }
    c
}
