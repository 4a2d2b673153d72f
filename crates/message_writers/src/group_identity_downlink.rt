// The list of group identity downlinks (EN 300 392-2, clause 16.10.22) as an outer element, as it is written.
ghost use Rattle.bits.specs.Written.{spot};
ghost use Rattle.bits.specs.PutsLaws.{Puts};
ghost use Rattle.element_writers.specs.WrittenElements.{outer_list_parts};

use crate::group_list::write_list;
use bits::bitbuffer::Cursor;
use elements::group_identity_downlink::OptionalDownlinks;

// The list, which may be absent; its content has `size` bits.
pub(crate) fn write_downlinks(
    c: Cursor,
    octets: &mut [u8],
    identifier: u8,
    list: &OptionalDownlinks,
    size: usize,
) -> Cursor
    ensures { Puts (outer_list_parts identifier size list.now) (spot octets.old c) (spot octets.new result) }
{
    if list.present {
        return write_list(c, octets, identifier, list, size);
    }
    c
}
