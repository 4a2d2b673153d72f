// Group identity downlink (EN 300 392-2, clause 16.10.22).
ghost use Rattle.std.proofs.Common.{rules};
ghost use Rattle.std.specs.Prelude.{◌≡◌, refl, ◌≤◌};
ghost use Rattle.bits.specs.Written.{Joined};
ghost use Rattle.element_writers.specs.GroupsAsked.{asked_list};
ghost use Rattle.element_writers.specs.GroupParts.{attachment-length};
ghost use Rattle.element_writers.specs.GroupsAsked.{downlink-asked};
ghost use Rattle.elements.specs.Numbers.{option_bits, option_all};
ghost use Rattle.elements.specs.Groups.{attachment_bits, attachment_fits, downlink_forms, downlink_attachment, downlink_detachment, downlink_address_in};
ghost use Rattle.elements.specs.Locations.{group_identity_downlink_identifier};
ghost use Rattle.elements.specs.Lists.{downlinks};

use crate::group_address::GroupsAsked;
use crate::group_identity_attachment::{attachment_fits, then_attachment};
use crate::group_list::ListWriter;
use bits::bitbuffer::Digits;
use elements::group_address::GroupAddress;
use elements::group_identity_attachment::GroupIdentityAttachment;
use elements::group_identity_downlink::{GroupIdentityDownlink, OptionalDownlinks};
use elements::type34_elem_id_dl::GROUP_IDENTITY_DOWNLINK;

impl ListWriter for OptionalDownlinks {
    type Attachment = GroupIdentityAttachment;

    ghost attachment = { downlink_attachment };

    ghost detachment = { downlink_detachment };

    ghost address = { downlink_address_in };

    ghost bits = { attachment_bits };

    ghost fits = { attachment_fits };

    ghost forms = { downlink_forms };

    ghost IDENTIFIER = { group_identity_downlink_identifier };

    ghost ATTACHMENT_WIDTH = { 5 };

    ghost ADDRESS_TYPES = { 4 };

    ghost asked = { downlink-asked };

    ghost wide = { attachment-length };

    ghost few = { Prim.search rules };

    ghost types = { refl };

    const IDENTIFIER: u8 = GROUP_IDENTITY_DOWNLINK;

    const ATTACHMENT_WIDTH: usize = 5;

    const ADDRESS_TYPES: u64 = 4;

    fn presence(&self) -> bool {
        self.present
    }

    fn count(&self) -> usize {
        self.count
    }

    fn groups(&self) -> &[GroupIdentityDownlink] {
        let groups: &[GroupIdentityDownlink] = &self.groups;
        &groups[..self.count.min(groups.len())]
    }

    fn attachment(g: GroupIdentityDownlink) -> Option<GroupIdentityAttachment> {
        g.group_identity_attachment_present
            .then_some(g.group_identity_attachment)
    }

    fn detachment(g: GroupIdentityDownlink) -> Option<u64> {
        g.group_identity_detachment_uplink_present
            .then_some(g.group_identity_detachment_uplink as u64)
    }

    fn address(g: GroupIdentityDownlink) -> GroupAddress {
        g.address()
    }

    fn then_attachment(d: Digits, o: Option<GroupIdentityAttachment>) -> Digits
        ensures { Joined d (option_bits attachment_bits o) result }
    {
        then_attachment(d, o)
    }

    fn attachment_fits(o: Option<GroupIdentityAttachment>) -> bool
        ensures { result ≡ option_all attachment_fits o }
    {
        attachment_fits(o)
    }

    #[tactic(auto, unfolding(elements::specs::Groups::type_of))]
    fn address_type(a: GroupAddress) -> u64 {
        match (a.gssi, a.address_extension, a.vgssi) {
            (Some(_), None, None) => 0,
            (Some(_), Some(_), None) => 1,
            (None, None, Some(_)) => 2,
            (Some(_), Some(_), Some(_)) => 3,
            _ => 4,
        }
    }
}
