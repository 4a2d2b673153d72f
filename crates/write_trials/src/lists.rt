// Lists of groups as long as their lengths let them be, and one group longer.
use crate::records::{accept_list, attach_detach_list, demand_list, trial};
use crate::show::whole;
use crate::values::{address, downlink_at, downlinks, gssi, uplink_at, uplinks};
use elements::group_identity_downlink::OptionalDownlinks;
use elements::group_identity_uplink::{GroupIdentityUplink, OptionalUplinks};
use std::{array, io};

// A group of 30 bits, or of 54 with an extension.
fn uplink_of(gssi: u32, extension: bool) -> GroupIdentityUplink {
    GroupIdentityUplink {
        gssi,
        address_extension: 0x0C_C001,
        ..uplink_at(address(true, extension, false))
    }
}

// The GSSIs count up from 8388609.
pub(crate) fn uplinks_of(count: usize, extension: bool) -> OptionalUplinks {
    uplinks(
        count,
        array::from_fn(|i| uplink_of(0x80_0001 + i as u32, extension)),
    )
}

// 37 of 54 bits, and one of 30.
fn mixed_uplinks() -> OptionalUplinks {
    let mut list = uplinks_of(38, true);
    list.groups[37] = uplink_of(0x80_0001, false);
    list
}

// 63 of 32 bits. The GSSIs count up from 1193046.
pub(crate) fn most_downlinks() -> OptionalDownlinks {
    downlinks(
        63,
        array::from_fn(|i| downlink_at(gssi(0x12_3456 + i as u32))),
    )
}

// Groups of 80 bits, with all three addresses.
pub(crate) fn downlinks_of_80(count: usize) -> OptionalDownlinks {
    downlinks(count, [downlink_at(address(true, true, true)); 63])
}

pub(crate) fn trials(rt: &impl Print) -> io::Result<()> {
    whole(
        rt,
        "63 uplinks of 30 bits",
        demand_list(uplinks_of(63, false)),
    )?;
    whole(
        rt,
        "37 uplinks of 54 bits",
        demand_list(uplinks_of(37, true)),
    )?;
    whole(
        rt,
        "37 uplinks of 54 bits and one of 30",
        demand_list(mixed_uplinks()),
    )?;
    whole(
        rt,
        "38 uplinks of 54 bits",
        demand_list(uplinks_of(38, true)),
    )?;
    downlink_trials(rt)
}

fn downlink_trials(rt: &impl Print) -> io::Result<()> {
    let fits = downlinks_of_80(25);
    let too_long = downlinks_of_80(26);
    trial(rt, "25 downlinks of 80 bits", accept_list(fits))?;
    trial(rt, "26 downlinks of 80 bits", accept_list(too_long))?;
    trial(rt, "25 downlinks of 80 bits", attach_detach_list(fits))?;
    trial(rt, "26 downlinks of 80 bits", attach_detach_list(too_long))?;
    trial(
        rt,
        "63 downlinks of 32 bits",
        attach_detach_list(most_downlinks()),
    )
}
