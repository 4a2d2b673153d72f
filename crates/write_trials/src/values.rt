// What the records hold: generic elements, groups and lists of groups. Each optional value has a type of its own, as the records that
// the benchmark hands to C, so there is a function for each.
use elements::class_of_ms::{ClassOfMs, no_class_of_ms};
use elements::energy_saving_information::{
    EnergySavingInformation, OptionalEnergySavingInformation,
};
use elements::group_address::GroupAddress;
use elements::group_identity_attachment::{GroupIdentityAttachment, NO_ATTACHMENT};
use elements::group_identity_downlink::{GroupIdentityDownlink, OptionalDownlinks};
use elements::group_identity_uplink::{GroupIdentityUplink, OptionalUplinks};
use elements::typed_pdu_fields::{
    OptionalType3, OptionalType4, OptionalU8, Type3FieldGeneric, Type4FieldGeneric,
};

// 2 to the 24: one over the width of an SSI, and of a group's address.
pub(crate) const OVER_24: u64 = 0x100_0000;

pub(crate) const OVER_ADDRESS: u32 = 0x100_0000;

pub(crate) fn type3(len: usize, data: u64) -> OptionalType3 {
    OptionalType3 {
        present: true,
        value: Type3FieldGeneric { len, data },
    }
}

pub(crate) fn type4(len: usize, elems: usize, data: u64) -> OptionalType4 {
    OptionalType4 {
        present: true,
        value: Type4FieldGeneric { len, elems, data },
    }
}

// All 0 but the version.
pub(crate) fn class_of_version(version: u8) -> ClassOfMs {
    ClassOfMs {
        air_interface_version: version,
        ..no_class_of_ms()
    }
}

pub(crate) fn saving(
    mode: u8,
    frame: OptionalU8,
    multiframe: OptionalU8,
) -> OptionalEnergySavingInformation {
    Some(EnergySavingInformation {
        energy_saving_mode: mode,
        frame_number: frame,
        multiframe_number: multiframe,
    })
    .into()
}

// An address with those parts present that are asked for.
pub(crate) fn address(gssi: bool, extension: bool, vgssi: bool) -> GroupAddress {
    GroupAddress {
        gssi: gssi.then_some(1),
        address_extension: extension.then_some(2),
        vgssi: vgssi.then_some(3),
    }
}

pub(crate) fn gssi(value: u32) -> GroupAddress {
    GroupAddress {
        gssi: Some(value),
        ..address(false, false, false)
    }
}

// An uplink group. Those parts of its address that are absent hold numbers too.
pub(crate) fn uplink(
    usage: Option<u8>,
    detachment: Option<u8>,
    a: GroupAddress,
) -> GroupIdentityUplink {
    GroupIdentityUplink {
        gssi: a.gssi.unwrap_or(1),
        address_extension: a.address_extension.unwrap_or(2),
        vgssi: a.vgssi.unwrap_or(3),
        class_of_usage: u16::from(usage.unwrap_or(0)),
        class_of_usage_present: usage.is_some(),
        group_identity_detachment_uplink_present: detachment.is_some(),
        group_identity_detachment_uplink: detachment.unwrap_or(0),
        gssi_present: a.gssi.is_some(),
        address_extension_present: a.address_extension.is_some(),
        vgssi_present: a.vgssi.is_some(),
    }
}

// A group of usage 4.
pub(crate) fn uplink_at(a: GroupAddress) -> GroupIdentityUplink {
    uplink(Some(4), None, a)
}

pub(crate) fn attachment(lifetime: u8, usage: u8) -> GroupIdentityAttachment {
    GroupIdentityAttachment {
        group_identity_attachment_lifetime: lifetime,
        class_of_usage: usage,
    }
}

// A downlink group. Those parts of its address that are absent hold numbers too.
pub(crate) fn downlink(
    attached: Option<GroupIdentityAttachment>,
    detachment: Option<u8>,
    a: GroupAddress,
) -> GroupIdentityDownlink {
    GroupIdentityDownlink {
        gssi: a.gssi.unwrap_or(1),
        address_extension: a.address_extension.unwrap_or(2),
        vgssi: a.vgssi.unwrap_or(3),
        group_identity_attachment_present: attached.is_some(),
        group_identity_attachment: attached.unwrap_or(NO_ATTACHMENT),
        group_identity_detachment_uplink_present: detachment.is_some(),
        group_identity_detachment_uplink: detachment.unwrap_or(0),
        gssi_present: a.gssi.is_some(),
        address_extension_present: a.address_extension.is_some(),
        vgssi_present: a.vgssi.is_some(),
    }
}

// Attached with lifetime 3 and usage 4.
pub(crate) fn downlink_at(a: GroupAddress) -> GroupIdentityDownlink {
    downlink(Some(attachment(3, 4)), None, a)
}

// One group, and behind it others that are all alike.
pub(crate) fn then<G: Copy>(first: G, other: G) -> [G; 63] {
    let mut groups = [other; 63];
    groups[0] = first;
    groups
}

pub(crate) fn uplinks(count: usize, groups: [GroupIdentityUplink; 63]) -> OptionalUplinks {
    OptionalUplinks {
        present: true,
        count,
        groups,
    }
}

pub(crate) fn downlinks(count: usize, groups: [GroupIdentityDownlink; 63]) -> OptionalDownlinks {
    OptionalDownlinks {
        present: true,
        count,
        groups,
    }
}
