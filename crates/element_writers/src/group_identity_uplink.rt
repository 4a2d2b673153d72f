// Group identity uplink (EN 300 392-2, clause 16.10.27).
ghost use Rattle.std.proofs.Common.{rules};
ghost use Rattle.std.specs.Prelude.{◌≡◌, refl, ◌≤◌};
ghost use Rattle.element_writers.specs.GroupsAsked.{asked_list, uplink-asked};
ghost use Rattle.bits.specs.Bits.{digits};
ghost use Rattle.bits.specs.BitsLaws.{length_digits};
ghost use Rattle.elements.specs.Numbers.{option_bits, option_all, in_width};
ghost use Rattle.bits.specs.Written.{Joined};
ghost use Rattle.elements.specs.Groups.{class_of_usage_width, uplink_forms, uplink_class, uplink_detachment, uplink_address_in};
ghost use Rattle.elements.specs.Locations.{group_identity_uplink_identifier};
ghost use Rattle.elements.specs.Lists.{uplinks};

use crate::group_address::GroupsAsked;
use crate::group_list::ListWriter;
use crate::typed_pdu_fields::{ask_type2, then_if};
use bits::bitbuffer::Digits;
use elements::group_address::GroupAddress;
use elements::group_identity_uplink::{GroupIdentityUplink, OptionalUplinks};
use elements::type34_elem_id_ul::GROUP_IDENTITY_UPLINK;

impl ListWriter for OptionalUplinks {
    type Attachment = u64;

    ghost attachment = { uplink_class };

    ghost detachment = { uplink_detachment };

    ghost address = { uplink_address_in };

    ghost bits = { digits class_of_usage_width };

    ghost fits = { in_width class_of_usage_width };

    ghost forms = { uplink_forms };

    ghost IDENTIFIER = { group_identity_uplink_identifier };

    ghost ATTACHMENT_WIDTH = { 3 };

    ghost ADDRESS_TYPES = { 3 };

    ghost asked = { uplink-asked };

    ghost wide = { length_digits class_of_usage_width };

    ghost few = { Prim.search rules };

    ghost types = { refl };

    const IDENTIFIER: u8 = GROUP_IDENTITY_UPLINK;

    const ATTACHMENT_WIDTH: usize = 3;

    const ADDRESS_TYPES: u64 = 3;

    fn presence(&self) -> bool {
        self.present
    }

    fn count(&self) -> usize {
        self.count
    }

    fn groups(&self) -> &[GroupIdentityUplink] {
        let groups: &[GroupIdentityUplink] = &self.groups;
        &groups[..self.count.min(groups.len())]
    }

    fn attachment(g: GroupIdentityUplink) -> Option<u64> {
        g.class_of_usage_present.then_some(g.class_of_usage as u64)
    }

    fn detachment(g: GroupIdentityUplink) -> Option<u64> {
        g.group_identity_detachment_uplink_present
            .then_some(g.group_identity_detachment_uplink as u64)
    }

    fn address(g: GroupIdentityUplink) -> GroupAddress {
        g.address()
    }

    fn then_attachment(d: Digits, o: Option<u64>) -> Digits
        ensures { Joined d (option_bits (digits class_of_usage_width) o) result }
    {
        then_if(d, o, 3)
    }

    fn attachment_fits(o: Option<u64>) -> bool
        ensures { result ≡ option_all (in_width class_of_usage_width) o }
    {
        ask_type2(o, 3)
    }

    #[tactic(auto, unfolding(elements::specs::Groups::type_of))]
    fn address_type(a: GroupAddress) -> u64 {
        match (a.gssi, a.address_extension, a.vgssi) {
            (Some(_), None, None) => 0,
            (Some(_), Some(_), None) => 1,
            (None, None, Some(_)) => 2,
            _ => 3,
        }
    }
}
