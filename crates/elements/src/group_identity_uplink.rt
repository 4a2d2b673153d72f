// Group identity uplink (EN 300 392-2, clause 16.10.27).
ghost use Rattle.std.specs.Prelude.{◌≡◌};
ghost use Rattle.bits.specs.Placed.{at, as_read};
ghost use Rattle.elements.specs.Groups.{uplink, uplink_of, uplink_address_in};
ghost use Rattle.elements.specs.TraitLaws.{uplink-local, uplinks-made};
ghost use Rattle.elements.specs.Lists.{uplinks};

use crate::group_address::{GroupAddress, read_address};
use crate::group_list::GroupList;
use crate::typed_pdu_fields::read_optional;
use bits::bitbuffer::{Cursor, Read};

// Flat and without padding, the widest fields first: a list has 63 of them, and is cleared as one block.
#[repr(C)]
#[derive(Clone, Copy)]
pub struct GroupIdentityUplink {
    pub gssi: u32,
    pub address_extension: u32,
    pub vgssi: u32,
    pub class_of_usage: u16,
    pub class_of_usage_present: bool,
    pub group_identity_detachment_uplink_present: bool,
    pub group_identity_detachment_uplink: u8,
    pub gssi_present: bool,
    pub address_extension_present: bool,
    pub vgssi_present: bool,
}

// A list of groups that may be absent: those up to the count are there, the others hold zero.
#[repr(C)]
#[derive(Clone, Copy)]
pub struct OptionalUplinks {
    pub present: bool,
    pub count: usize,
    pub groups: [GroupIdentityUplink; 63],
}

const ZERO: GroupIdentityUplink = GroupIdentityUplink {
    gssi: 0,
    address_extension: 0,
    vgssi: 0,
    class_of_usage: 0,
    class_of_usage_present: false,
    group_identity_detachment_uplink_present: false,
    group_identity_detachment_uplink: 0,
    gssi_present: false,
    address_extension_present: false,
    vgssi_present: false,
};

// The group of its parts.
fn group_of(
    class_of_usage: Option<u8>,
    detachment: Option<u8>,
    address: GroupAddress,
) -> GroupIdentityUplink
    ensures { result ≡ uplink_of class_of_usage detachment address }
{
    GroupIdentityUplink {
        gssi: address.gssi.unwrap_or(0),
        address_extension: address.address_extension.unwrap_or(0),
        vgssi: address.vgssi.unwrap_or(0),
        class_of_usage: class_of_usage.unwrap_or(0) as u16,
        class_of_usage_present: class_of_usage.is_some(),
        group_identity_detachment_uplink_present: detachment.is_some(),
        group_identity_detachment_uplink: detachment.unwrap_or(0),
        gssi_present: address.gssi.is_some(),
        address_extension_present: address.address_extension.is_some(),
        vgssi_present: address.vgssi.is_some(),
    }
}

impl GroupIdentityUplink {
    // Its address.
    pub fn address(self) -> GroupAddress
        ensures { result ≡ uplink_address_in self }
    {
        GroupAddress {
            gssi: self.gssi_present.then_some(self.gssi),
            address_extension: self
                .address_extension_present
                .then_some(self.address_extension),
            vgssi: self.vgssi_present.then_some(self.vgssi),
        }
    }

    pub fn from_bitbuf(c: Cursor, octets: &[u8]) -> Read<GroupIdentityUplink>
        ensures { as_read result ≡ at uplink octets.now c }
    {
        let (kind, c1) = c.read::<u8>(octets, 1)?;
        let (class_of_usage, c2) = read_optional(c1, octets, kind == 0, 3)?;
        let (detachment, c3) = read_optional(c2, octets, kind == 1, 2)?;
        let (address, c4) = read_address::<false>(c3, octets)?;
        Ok((group_of(class_of_usage, detachment, address), c4))
    }
}

impl GroupList for OptionalUplinks {
    type Group = GroupIdentityUplink;

    ghost kind = { uplinks };

    ghost local = { uplink-local };

    ghost made = { uplinks-made };

    fn zeros(present: bool, count: usize) -> OptionalUplinks {
        OptionalUplinks {
            present,
            count,
            groups: [ZERO; 63],
        }
    }

    fn put(&mut self, i: usize, g: GroupIdentityUplink) {
        if i < self.groups.len() {
            self.groups[i] = g;
        }
    }

    fn read_group(c: Cursor, octets: &[u8]) -> Read<GroupIdentityUplink> {
        GroupIdentityUplink::from_bitbuf(c, octets)
    }
}
