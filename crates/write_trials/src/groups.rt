// One group: an uplink in a location demand, a downlink in an attach/detach and in a location accept.
use crate::records::{accept_list, attach_detach_list, demand_list};
use crate::show::whole;
use crate::values::{
    OVER_ADDRESS, address, attachment, downlink, downlink_at, downlinks, gssi, uplink, uplink_at,
    uplinks,
};
use elements::group_address::GroupAddress;
use elements::group_identity_downlink::{GroupIdentityDownlink, OptionalDownlinks};
use elements::group_identity_uplink::{GroupIdentityUplink, OptionalUplinks};
use std::io;

pub(crate) fn uplinks_trial(rt: &impl Print, name: &str, list: OptionalUplinks) -> io::Result<()> {
    whole(rt, format_args!("uplink, {name}"), demand_list(list))
}

pub(crate) fn uplink_trial(rt: &impl Print, name: &str, g: GroupIdentityUplink) -> io::Result<()> {
    uplinks_trial(rt, name, uplinks(1, [g; 63]))
}

pub(crate) fn downlinks_trial(
    rt: &impl Print,
    name: &str,
    list: OptionalDownlinks,
) -> io::Result<()> {
    whole(
        rt,
        format_args!("downlink, {name}"),
        attach_detach_list(list),
    )?;
    whole(
        rt,
        format_args!("downlink, {name}, nested"),
        accept_list(list),
    )
}

pub(crate) fn downlink_trial(
    rt: &impl Print,
    name: &str,
    g: GroupIdentityDownlink,
) -> io::Result<()> {
    downlinks_trial(rt, name, downlinks(1, [g; 63]))
}

// Each number one over its width.
pub(crate) fn uplink_widths(rt: &impl Print) -> io::Result<()> {
    uplink_trial(rt, "class of usage 8", uplink(Some(8), None, gssi(1)))?;
    uplink_trial(rt, "detachment 4", uplink(None, Some(4), gssi(1)))?;
    uplink_trial(rt, "GSSI 2^24", uplink_at(gssi(OVER_ADDRESS)))?;
    let extension = GroupAddress {
        address_extension: Some(OVER_ADDRESS),
        ..address(true, true, false)
    };
    uplink_trial(rt, "extension 2^24", uplink_at(extension))?;
    let vgssi = GroupAddress {
        vgssi: Some(OVER_ADDRESS),
        ..address(false, false, true)
    };
    uplink_trial(rt, "VGSSI 2^24", uplink_at(vgssi))
}

pub(crate) fn downlink_widths(rt: &impl Print) -> io::Result<()> {
    downlink_trial(
        rt,
        "lifetime 4",
        downlink(Some(attachment(4, 0)), None, gssi(1)),
    )?;
    downlink_trial(
        rt,
        "class of usage 8",
        downlink(Some(attachment(0, 8)), None, gssi(1)),
    )?;
    downlink_trial(rt, "detachment 4", downlink(None, Some(4), gssi(1)))?;
    downlink_trial(rt, "GSSI 2^24", downlink_at(gssi(OVER_ADDRESS)))
}

// Attached, detached, neither and both.
fn attachments(rt: &impl Print) -> io::Result<()> {
    uplink_trial(rt, "detached", uplink(None, Some(3), gssi(1)))?;
    uplink_trial(
        rt,
        "neither attached nor detached",
        uplink(None, None, gssi(1)),
    )?;
    uplink_trial(
        rt,
        "attached and detached",
        uplink(Some(4), Some(0), gssi(1)),
    )?;
    downlink_trial(rt, "detached", downlink(None, Some(3), gssi(1)))?;
    downlink_trial(
        rt,
        "neither attached nor detached",
        downlink(None, None, gssi(1)),
    )?;
    downlink_trial(
        rt,
        "attached and detached",
        downlink(Some(attachment(3, 4)), Some(0), gssi(1)),
    )
}

fn form(rt: &impl Print, name: &str, a: GroupAddress) -> io::Result<()> {
    uplink_trial(rt, name, uplink_at(a))?;
    downlink_trial(rt, name, downlink_at(a))
}

pub(crate) fn trials(rt: &impl Print) -> io::Result<()> {
    attachments(rt)?;
    form(rt, "no address", address(false, false, false))?;
    form(rt, "GSSI", address(true, false, false))?;
    form(rt, "extension", address(false, true, false))?;
    form(rt, "GSSI and extension", address(true, true, false))?;
    form(rt, "VGSSI", address(false, false, true))?;
    form(rt, "GSSI and VGSSI", address(true, false, true))?;
    form(rt, "extension and VGSSI", address(false, true, true))?;
    form(
        rt,
        "GSSI and extension and VGSSI",
        address(true, true, true),
    )
}
