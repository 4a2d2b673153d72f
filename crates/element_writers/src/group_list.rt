// Lists of groups of either kind: what is asked of them, and how they are written.
ghost use Rattle.std.specs.Prelude.{◌≡◌, ℕ, Bool, List, Option, ◌+◌, ◌*◌, ◌≤◌, take, length};
ghost use Rattle.bits.specs.Bits.{Bits};
ghost use Rattle.bits.specs.Written.{Joined, Holds};
ghost use Rattle.elements.specs.declared.group_address.GroupAddress.{GroupAddress};
ghost use Rattle.elements.specs.Numbers.{option_bits, option_all};
ghost use Rattle.elements.specs.Groups.{Form, form_of, type_of, kind_of};
ghost use Rattle.element_writers.specs.GroupsAsked.{asked_parts, asked_of, asked_each, asked_list};
ghost use Rattle.element_writers.specs.GroupParts.{group_front, group_back};

use crate::group_address::{GroupsAsked, NO_GROUPS, address_fits, address_size, count_asked};
use crate::typed_pdu_fields::{ask_type2, then_if, width_if};
use bits::bitbuffer::{Digits, NO_DIGITS};
use elements::group_address::GroupAddress;
use elements::group_list::GroupList;

// A list of groups as it is written. The kinds differ in what an attachment says and in the address types.
pub trait ListWriter: GroupList {
    // What an attachment says.
    type Attachment: Copy;

    ghost attachment: { Self.Group → Option Self.Attachment };

    ghost detachment: { Self.Group → Option ℕ };

    ghost address: { Self.Group → GroupAddress };

    ghost bits: { Self.Attachment → Bits };

    ghost fits: { Self.Attachment → Bool };

    ghost forms: { List Form };

    ghost IDENTIFIER: { ℕ };

    ghost ATTACHMENT_WIDTH: { ℕ };

    ghost ADDRESS_TYPES: { ℕ };
    // The list's identifier as an element.
    const IDENTIFIER: u8;

    const ATTACHMENT_WIDTH: usize;
    // How many address types there are.
    const ADDRESS_TYPES: u64;

    fn presence(&self) -> bool
        ensures { result ≡ Self.kind.present self.now };

    // How many groups the list says that it has.
    fn count(&self) -> usize
        ensures { result ≡ Self.kind.count self.now };

    // Those that it has room for.
    fn groups(&self) -> &[Self::Group]
        ensures groups { result.now ≡ take (Self.kind.count self.now) (Self.kind.groups self.now) }
        ensures few { length result.now ≤ 63 };

    fn attachment(g: Self::Group) -> Option<Self::Attachment>
        ensures { result ≡ attachment g };

    fn detachment(g: Self::Group) -> Option<u64>
        ensures { result ≡ detachment g };

    fn address(g: Self::Group) -> GroupAddress
        ensures { result ≡ address g };

    // An attachment that may be absent, behind other bits.
    fn then_attachment(d: Digits, o: Option<Self::Attachment>) -> Digits
        ensures { Joined d (option_bits bits o) result };

    // Whether its numbers, if it is present, are in their widths.
    fn attachment_fits(o: Option<Self::Attachment>) -> bool
        ensures { result ≡ option_all fits o };

    // The address type; past the last one where none has these parts.
    fn address_type(a: GroupAddress) -> u64
        ensures { result ≡ type_of forms (form_of a) };

    ghost asked: { (g : Self.Group) → asked_parts bits fits forms (attachment g) (detachment g) (address g) ≡ asked_of Self.kind g };

    ghost wide: { (t : Self.Attachment) → length (bits t) ≡ ATTACHMENT_WIDTH };

    ghost few: { ATTACHMENT_WIDTH ≤ 5 };

    ghost types: { length forms ≡ ADDRESS_TYPES };
}

// The attach/detach type identifier.
fn kind_of(attached: bool) -> u64
    ensures { result ≡ kind_of attached }
{
    !attached as u64
}

// The bits of a group up to its GSSI.
pub fn group_front<L: ListWriter>(g: L::Group) -> Digits
    ensures { Holds result (group_front L.bits L.forms (L.attachment g) (L.detachment g) (L.address g)) }
{
    let attachment = L::attachment(g);
    let a = L::address(g);
    let k = NO_DIGITS.then(kind_of(attachment.is_some()), 1);
    let u = L::then_attachment(k, attachment);
    let d = then_if(u, L::detachment(g), 2);
    let t = d.then(L::address_type(a), 2);
    then_if(t, a.gssi, 24)
}

// The bits behind the GSSI.
pub fn group_back(a: GroupAddress) -> Digits
    ensures { Holds result (group_back a) }
{
    then_if(then_if(NO_DIGITS, a.address_extension, 24), a.vgssi, 24)
}

// The questions of a group.
fn ask_group<L: ListWriter>(g: L::Group) -> GroupsAsked
    ensures { (result ≡ asked_of L.kind g) × (result.size ≤ 82) }
{
    let attachment = L::attachment(g);
    let detachment = L::detachment(g);
    let a = L::address(g);
    let u = attachment.is_some();
    let d = detachment.is_some();
    GroupsAsked {
        fits: L::attachment_fits(attachment) & (ask_type2(detachment, 2) & address_fits(a)),
        one: u != d,
        listed: L::address_type(a) < L::ADDRESS_TYPES,
        size: 3 + (width_if(u, L::ATTACHMENT_WIDTH) + (width_if(d, 2) + address_size(a))),
    }
}

// The questions of groups together.
fn ask_groups<L: ListWriter>(groups: &[L::Group]) -> GroupsAsked
    requires { length groups.now ≤ 63 }
    ensures { (result ≡ asked_each L.kind groups.now) × (result.size ≤ 82 * length groups.now) }
{
    let mut asked = NO_GROUPS;
    for g in groups {
        asked = asked.and(ask_group::<L>(*g));
    }
    asked
}

// The questions of a list; an absent one passes them, and has no bits.
pub fn ask_list<L: ListWriter>(list: &L) -> GroupsAsked
    ensures { (result ≡ asked_list L.kind list.now) × (result.size ≤ 5172) }
{
    if list.presence() {
        return count_asked(list.count()).and(ask_groups::<L>(list.groups()));
    }
    NO_GROUPS
}
