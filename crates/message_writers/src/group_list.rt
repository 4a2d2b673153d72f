// Lists of groups of either kind, as they are written.
ghost use Rattle.std.specs.Prelude.{◌≡◌, ◌≤◌};
ghost use Rattle.bits.specs.Written.{spot, bits_in};
ghost use Rattle.bits.specs.PutsLaws.{Puts};
ghost use Rattle.elements.specs.Lists.{each};
ghost use Rattle.element_writers.specs.GroupParts.{group_parts};
ghost use Rattle.element_writers.specs.WrittenElements.{list_parts, nested_parts};
ghost use Rattle.message_writers.specs.Parts.{location_answers, list_answers};

use crate::questions::ElementsAsked;
use crate::typed_pdu_fields::write_closing_mbit;
use bits::bitbuffer::{Cursor, Digits};
use element_writers::group_address::{GroupsAsked, LocationAsked};
use element_writers::group_list::{ListWriter, group_back, group_front};
use element_writers::typed_pdu_fields::{element_header, width_if};

// A group, in two fields.
fn write_group<L: ListWriter>(c: Cursor, octets: &mut [u8], g: L::Group) -> Cursor
    ensures { Puts (group_parts L.bits L.forms L.attachment L.detachment L.address g) (spot octets.old c) (spot octets.new result) }
{
    let c1 = c.put(octets, group_front::<L>(g));
    c1.put(octets, group_back(L::address(g)))
}

// Groups, one after the other.
fn write_groups<L: ListWriter>(c: Cursor, octets: &mut [u8], groups: &[L::Group]) -> Cursor
    ensures { Puts (each (group_parts L.bits L.forms L.attachment L.detachment L.address) groups.now) (spot octets.old c) (spot octets.new result) }
{
    let mut place = c;
    for g in groups {
        place = write_group::<L>(place, octets, *g);
    }
    place
}

// The list as an element, `size` being the length of its content.
pub(crate) fn write_list<L: ListWriter>(
    c: Cursor,
    octets: &mut [u8],
    identifier: u8,
    list: &L,
    size: usize,
) -> Cursor
    ensures { Puts (list_parts L.kind (group_parts L.bits L.forms L.attachment L.detachment L.address) identifier size list.now) (spot octets.old c) (spot octets.new result) }
{
    let h = element_header(identifier, size);
    let c1 = c.put(octets, h.then(list.count() as u64, 6));
    write_groups::<L>(c1, octets, list.groups())
}

// A structure that holds the list: what stands before, the O-bit, and if it is present the list and the closing M-bit.
pub(crate) fn write_nested<L: ListWriter>(
    c: Cursor,
    octets: &mut [u8],
    front: Digits,
    list: &L,
    size: usize,
) -> Cursor
    requires { front.width ≤ 63 }
    ensures { Puts (nested_parts L.kind (group_parts L.bits L.forms L.attachment L.detachment L.address) L.IDENTIFIER (bits_in front) size list.now) (spot octets.old c) (spot octets.new result) }
{
    let listed = list.presence();
    let c1 = c.put(octets, front.then(listed as u64, 1));
    if listed {
        let c2 = write_list(c1, octets, L::IDENTIFIER, list, size);
        return write_closing_mbit(c2, octets);
    }
    c1
}

// The questions of a location demand or accept that may be absent, as an element.
pub(crate) fn location_asked(present: bool, a: LocationAsked) -> ElementsAsked
    requires { a.content ≤ 5192 }
    ensures { (result ≡ location_answers present a) × (result.size ≤ 5208) }
{
    ElementsAsked {
        fits: a.fits,
        one: a.one,
        listed: a.listed,
        type3_only: true,
        short: a.short,
        size: width_if(present, 16 + a.content),
    }
}

// The same of a list.
pub(crate) fn list_asked(present: bool, a: GroupsAsked) -> ElementsAsked
    requires { a.size ≤ 5172 }
    ensures { (result ≡ list_answers present a) × (result.size ≤ 5188) }
{
    ElementsAsked {
        fits: a.fits,
        one: a.one,
        listed: a.listed,
        type3_only: true,
        short: a.size < 0x800,
        size: width_if(present, 16 + a.size),
    }
}
