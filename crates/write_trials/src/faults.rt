// Two faults at once: the lower number is the answer, wherever they stand.
use crate::groups::uplink_trial;
use crate::lists::downlinks_of_80;
use crate::records::{
    Accept, AttachDetach, Demand, Message, accept_saving, answered, attach_detach_list, ciphered,
    demand_list, located, trial, with_area,
};
use crate::show::{whole, window};
use crate::values::{
    OVER_24, OVER_ADDRESS, address, downlink, downlink_at, downlinks, gssi, then, type3, type4,
    uplink, uplink_at, uplinks,
};
use elements::group_address::GroupAddress;
use elements::group_identity_downlink::OptionalDownlinks;
use elements::group_identity_uplink::{GroupIdentityUplink, OptionalUplinks};
use std::io;

fn no_address() -> GroupAddress {
    address(false, false, false)
}

// Neither attached nor detached.
fn neither() -> GroupIdentityUplink {
    uplink(None, None, gssi(1))
}

// A list of one group without an address.
fn unaddressed() -> OptionalUplinks {
    uplinks(1, [uplink_at(no_address()); 63])
}

fn one_uplink(rt: &impl Print) -> io::Result<()> {
    trial(
        rt,
        "8 and 9: cipher control without ciphering, SSI 2^24",
        Demand {
            ssi: Some(OVER_24).into(),
            ..ciphered(1, None)
        },
    )?;
    uplink_trial(
        rt,
        "8 and 11: no address, class of usage 8",
        uplink(Some(8), None, no_address()),
    )?;
    uplink_trial(
        rt,
        "10 and 11: neither attached nor detached, no address",
        uplink(None, None, no_address()),
    )
}

fn two_uplinks(rt: &impl Print) -> io::Result<()> {
    let missing = then(uplink_at(no_address()), neither());
    whole(
        rt,
        "two uplinks, 10 and 11: no address, then neither",
        demand_list(uplinks(2, missing)),
    )?;
    let wide = then(neither(), uplink_at(gssi(OVER_ADDRESS)));
    whole(
        rt,
        "two uplinks, 8 and 10: neither, then GSSI 2^24",
        demand_list(uplinks(2, wide)),
    )
}

fn demands(rt: &impl Print) -> io::Result<()> {
    trial(
        rt,
        "9 and 11: cipher control without ciphering, a group without an address",
        located(ciphered(1, None), 1, unaddressed()),
    )?;
    trial(
        rt,
        "9 and 10: ciphering without cipher control, a group of neither",
        located(ciphered(0, Some(0)), 1, uplinks(1, [neither(); 63])),
    )?;
    trial(
        rt,
        "8 and 11: a group without an address, 15 of length 65",
        Demand {
            proprietary: type3(65, 0),
            ..demand_list(unaddressed())
        },
    )
}

// A list of one group that is neither attached nor detached.
fn unattached_downlinks() -> OptionalDownlinks {
    downlinks(1, [downlink(None, None, gssi(1)); 63])
}

fn unaddressed_downlinks() -> OptionalDownlinks {
    downlinks(1, [downlink_at(no_address()); 63])
}

fn accepts(rt: &impl Print) -> io::Result<()> {
    let missing = accept_saving(1, None, None);
    let alive = accept_saving(0, Some(0), None);
    let area = with_area(Accept::start());
    trial(
        rt,
        "10 and 13: Eg1 without both, a group of neither",
        answered(missing, 1, unattached_downlinks()),
    )?;
    trial(
        rt,
        "11 and 12: StayAlive with frame, a group without an address",
        answered(alive, 1, unaddressed_downlinks()),
    )?;
    trial(
        rt,
        "11 and 14: element 2, a group without an address",
        answered(area, 1, unaddressed_downlinks()),
    )?;
    trial(
        rt,
        "8 and 14: element 2, element 15 of length 65",
        Accept {
            proprietary: type3(65, 0),
            ..area
        },
    )?;
    trial(
        rt,
        "12 and 14: StayAlive with frame, element 2",
        with_area(alive),
    )?;
    trial(
        rt,
        "13 and 14: Eg1 without both, element 12",
        Accept {
            group_identity_security_related_information: type4(0, 0, 0),
            ..missing
        },
    )?;
    trial(
        rt,
        "13 and 15: Eg1 without both, 26 downlinks of 80 bits",
        answered(missing, 1, downlinks_of_80(26)),
    )
}

fn long_lists(rt: &impl Print) -> io::Result<()> {
    let long = attach_detach_list(downlinks_of_80(26));
    trial(
        rt,
        "14 and 15: 26 downlinks of 80 bits, element 12",
        AttachDetach {
            group_identity_security_related_information: type4(0, 0, 0),
            ..long
        },
    )?;
    window(
        rt,
        "15 and 16: 26 downlinks of 80 bits, in 100 bits",
        0..100,
        long,
    )?;
    window(
        rt,
        "14 and 16: element 2, in 7 bits",
        0..7,
        with_area(Accept::start()),
    )
}

pub(crate) fn trials(rt: &impl Print) -> io::Result<()> {
    one_uplink(rt)?;
    two_uplinks(rt)?;
    demands(rt)?;
    accepts(rt)?;
    long_lists(rt)
}
