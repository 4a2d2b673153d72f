// The address of a group (EN 300 392-2, clauses 16.10.22 and 16.10.27): the parts that its address type has.
ghost use Rattle.std.specs.Prelude.{◌≡◌, ◌+◌, ◌≤◌};
ghost use Rattle.bits.specs.Bits.{digits};
ghost use Rattle.bits.specs.Written.{Joined};
ghost use Rattle.elements.specs.Numbers.{option_bits, option_all, in_width};
ghost use Rattle.elements.specs.Groups.{address_width, address_fits};
ghost use Rattle.element_writers.specs.LocationAsked.{location_of};
ghost use Rattle.element_writers.specs.GroupsAsked.{address_size, asked_count, asked_both};

use crate::typed_pdu_fields::{ask_type2, nested_size, width_if};
use bits::bitbuffer::Digits;
use elements::group_address::GroupAddress;

// What questions 8, 10 and 11 find of a group or of a list, and the bits that it has. How many these are at most stands in contracts,
// and not in a ghost field: the definitions make such records too, and would have to prove it in each.
#[derive(Clone, Copy)]
pub struct GroupsAsked {
    pub fits: bool,
    pub one: bool,
    pub listed: bool,
    pub size: usize,
}

impl GroupsAsked {
    // The same of these groups, and behind them others.
    pub(crate) fn and(self, others: GroupsAsked) -> GroupsAsked
        requires { self.size + others.size ≤ 5172 }
        ensures { result ≡ asked_both self others }
    {
        GroupsAsked {
            fits: self.fits & others.fits,
            one: self.one & others.one,
            listed: self.listed & others.listed,
            size: self.size + others.size,
        }
    }
}

// The same of a list's count alone.
pub(crate) fn count_asked(count: usize) -> GroupsAsked
    ensures { result ≡ asked_count count }
{
    GroupsAsked {
        fits: count <= 63,
        one: true,
        listed: true,
        size: 6,
    }
}

// The same of no groups, and of a list that is absent.
pub(crate) const NO_GROUPS: GroupsAsked = GroupsAsked {
    fits: true,
    one: true,
    listed: true,
    size: 0,
};

// What questions 8, 10, 11 and 15 find of a location demand or accept, and the lengths of its list's content and of its own.
#[derive(Clone, Copy)]
pub struct LocationAsked {
    pub fits: bool,
    pub one: bool,
    pub listed: bool,
    pub short: bool,
    pub list: usize,
    pub content: usize,
}

pub(crate) const NO_LOCATION: LocationAsked = LocationAsked {
    fits: true,
    one: true,
    listed: true,
    short: true,
    list: 0,
    content: 0,
};

// The same of a structure whose own number was asked, and its list.
pub(crate) fn location_of(own: bool, listed: bool, a: GroupsAsked) -> LocationAsked
    requires { a.size ≤ 5172 }
    ensures { (result ≡ location_of own listed a) × (result.content ≤ 5192) }
{
    let list = a.size;
    let content = 2 + nested_size(listed, list);
    LocationAsked {
        fits: own & a.fits,
        one: a.one,
        listed: a.listed,
        short: (content < 0x800) & (list < 0x800),
        list,
        content,
    }
}

#[tactic(auto, unfolding(elements::specs::Groups::address_fits))]
pub(crate) fn address_fits(a: GroupAddress) -> bool
    ensures { result ≡ address_fits a }
{
    ask_type2(a.gssi, 24) & (ask_type2(a.address_extension, 24) & ask_type2(a.vgssi, 24))
}

pub(crate) fn address_size(a: GroupAddress) -> usize
    ensures { (result ≡ address_size a) × (result ≤ 72) }
{
    width_if(a.gssi.is_some(), 24)
        + (width_if(a.address_extension.is_some(), 24) + width_if(a.vgssi.is_some(), 24))
}
