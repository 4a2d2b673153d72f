// Group identity downlink (EN 300 392-2, clause 16.10.22).
ghost use Rattle.std.specs.Prelude.{◌≡◌};
ghost use Rattle.bits.specs.Placed.{at, as_read};
ghost use Rattle.elements.specs.Groups.{downlink, downlink_of, downlink_address_in};
ghost use Rattle.elements.specs.TraitLaws.{downlink-local, downlinks-made};
ghost use Rattle.elements.specs.Lists.{downlinks};

use crate::group_address::{GroupAddress, read_address};
use crate::group_identity_attachment::{
    GroupIdentityAttachment, NO_ATTACHMENT, read_optional_attachment,
};
use crate::group_list::GroupList;
use crate::typed_pdu_fields::read_optional;
use bits::bitbuffer::{Cursor, Read};

// Flat and without padding, as the uplink group.
#[repr(C)]
#[derive(Clone, Copy)]
pub struct GroupIdentityDownlink {
    pub gssi: u32,
    pub address_extension: u32,
    pub vgssi: u32,
    pub group_identity_attachment_present: bool,
    pub group_identity_attachment: GroupIdentityAttachment,
    pub group_identity_detachment_uplink_present: bool,
    pub group_identity_detachment_uplink: u8,
    pub gssi_present: bool,
    pub address_extension_present: bool,
    pub vgssi_present: bool,
}

// A list of groups that may be absent: those up to the count are there, the others hold zero.
#[repr(C)]
#[derive(Clone, Copy)]
pub struct OptionalDownlinks {
    pub present: bool,
    pub count: usize,
    pub groups: [GroupIdentityDownlink; 63],
}

const ZERO: GroupIdentityDownlink = GroupIdentityDownlink {
    gssi: 0,
    address_extension: 0,
    vgssi: 0,
    group_identity_attachment_present: false,
    group_identity_attachment: NO_ATTACHMENT,
    group_identity_detachment_uplink_present: false,
    group_identity_detachment_uplink: 0,
    gssi_present: false,
    address_extension_present: false,
    vgssi_present: false,
};

// The group of its parts.
fn group_of(
    attachment: Option<GroupIdentityAttachment>,
    detachment: Option<u8>,
    address: GroupAddress,
) -> GroupIdentityDownlink
    ensures { result ≡ downlink_of attachment detachment address }
{
    GroupIdentityDownlink {
        gssi: address.gssi.unwrap_or(0),
        address_extension: address.address_extension.unwrap_or(0),
        vgssi: address.vgssi.unwrap_or(0),
        group_identity_attachment_present: attachment.is_some(),
        group_identity_attachment: attachment.unwrap_or(NO_ATTACHMENT),
        group_identity_detachment_uplink_present: detachment.is_some(),
        group_identity_detachment_uplink: detachment.unwrap_or(0),
        gssi_present: address.gssi.is_some(),
        address_extension_present: address.address_extension.is_some(),
        vgssi_present: address.vgssi.is_some(),
    }
}

impl GroupIdentityDownlink {
    // Its address.
    pub fn address(self) -> GroupAddress
        ensures { result ≡ downlink_address_in self }
    {
        GroupAddress {
            gssi: self.gssi_present.then_some(self.gssi),
            address_extension: self
                .address_extension_present
                .then_some(self.address_extension),
            vgssi: self.vgssi_present.then_some(self.vgssi),
        }
    }

    pub fn from_bitbuf(c: Cursor, octets: &[u8]) -> Read<GroupIdentityDownlink>
        ensures { as_read result ≡ at downlink octets.now c }
    {
        let (kind, c1) = c.read::<u8>(octets, 1)?;
        let (attachment, c2) = read_optional_attachment(c1, octets, kind == 0)?;
        let (detachment, c3) = read_optional(c2, octets, kind == 1, 2)?;
        let (address, c4) = read_address::<true>(c3, octets)?;
        Ok((group_of(attachment, detachment, address), c4))
    }
}

impl GroupList for OptionalDownlinks {
    type Group = GroupIdentityDownlink;

    ghost kind = { downlinks };

    ghost local = { downlink-local };

    ghost made = { downlinks-made };

    fn zeros(present: bool, count: usize) -> OptionalDownlinks {
        OptionalDownlinks {
            present,
            count,
            groups: [ZERO; 63],
        }
    }

    fn put(&mut self, i: usize, g: GroupIdentityDownlink) {
        if i < self.groups.len() {
            self.groups[i] = g;
        }
    }

    fn read_group(c: Cursor, octets: &[u8]) -> Read<GroupIdentityDownlink> {
        GroupIdentityDownlink::from_bitbuf(c, octets)
    }
}
