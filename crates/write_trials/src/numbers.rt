// Numbers, each one over its width; ciphering, energy saving and type 4 elements.
use crate::groups::{downlink_widths, uplink_widths};
use crate::plain::demand_9;
use crate::records::{
    Accept, AttachDetach, Demand, Message, accept_saving, answered, attach_detach_list, changed,
    ciphered, demand_list, located, trial, with,
};
use crate::values::{
    OVER_24, class_of_version, downlink_at, downlinks, gssi, type4, uplink_at, uplinks,
};
use elements::group_list::no_list;
use std::io;

fn demand_widths(rt: &impl Print) -> io::Result<()> {
    trial(rt, "ciphering 1024", ciphered(1, Some(1024)))?;
    let k = class_of_version(8);
    changed(rt, "version 8", |d: &mut Demand| {
        d.class_of_ms = Some(k).into();
    })?;
    changed(rt, "LA 16384", |d: &mut Demand| {
        d.la_information = Some(16384).into();
    })?;
    changed(rt, "LA 2^63", |d: &mut Demand| {
        d.la_information = Some(1 << 63).into();
    })?;
    changed(rt, "SSI 2^24", |d: &mut Demand| {
        d.ssi = Some(OVER_24).into();
    })?;
    changed(rt, "extension 2^24", |d: &mut Demand| {
        d.address_extension = Some(OVER_24).into();
    })?;
    trial(rt, "mode 2", located(Demand::start(), 2, no_list()))
}

fn generic_widths(rt: &impl Print) -> io::Result<()> {
    trial(rt, "9 of length 0, data 1", demand_9(0, 1))?;
    trial(rt, "9 of length 1, data 2", demand_9(1, 2))?;
    trial(
        rt,
        "9 of length 63, data 8000000000000000",
        demand_9(63, 1 << 63),
    )?;
    trial(rt, "9 of length 65, data 0", demand_9(65, 0))?;
    trial(rt, "9 of length 2047, data 0", demand_9(2047, 0))?;
    trial(rt, "9 of length 2048, data 0", demand_9(2048, 0))?;
    trial(
        rt,
        "64 uplinks",
        demand_list(uplinks(64, [uplink_at(gssi(1)); 63])),
    )
}

fn accept_widths(rt: &impl Print) -> io::Result<()> {
    changed(rt, "SSI 2^24", |a: &mut Accept| {
        a.ssi = Some(OVER_24).into();
    })?;
    changed(rt, "extension 2^24", |a: &mut Accept| {
        a.address_extension = Some(OVER_24).into();
    })?;
    changed(rt, "subscriber class 65536", |a: &mut Accept| {
        a.subscriber_class = Some(65536).into();
    })?;
    trial(rt, "frame 32", accept_saving(1, Some(32), Some(63)))?;
    trial(rt, "multiframe 64", accept_saving(1, Some(31), Some(64)))?;
    changed(rt, "SCCH 64", |a: &mut Accept| {
        a.scch_information_and_distribution_on_18th_frame = Some(64).into();
    })?;
    trial(
        rt,
        "accept/reject 2",
        answered(Accept::start(), 2, no_list()),
    )
}

pub(crate) fn widths(rt: &impl Print) -> io::Result<()> {
    demand_widths(rt)?;
    generic_widths(rt)?;
    uplink_widths(rt)?;
    accept_widths(rt)?;
    downlink_widths(rt)?;
    let list = downlinks(64, [downlink_at(gssi(1)); 63]);
    trial(rt, "64 downlinks", attach_detach_list(list))
}

pub(crate) fn ciphering(rt: &impl Print) -> io::Result<()> {
    trial(rt, "ciphering 1023", ciphered(1, Some(1023)))?;
    trial(rt, "cipher control without ciphering", ciphered(1, None))?;
    trial(rt, "ciphering without cipher control", ciphered(0, Some(0)))
}

pub(crate) fn saving(rt: &impl Print) -> io::Result<()> {
    let zero = Some(0);
    trial(rt, "StayAlive", accept_saving(0, None, None))?;
    trial(rt, "StayAlive with frame", accept_saving(0, zero, None))?;
    trial(
        rt,
        "StayAlive with multiframe",
        accept_saving(0, None, zero),
    )?;
    trial(rt, "StayAlive with both", accept_saving(0, zero, zero))?;
    trial(
        rt,
        "Eg1 with frame 31, multiframe 63",
        accept_saving(1, Some(31), Some(63)),
    )?;
    trial(rt, "Eg1 without frame", accept_saving(1, None, zero))?;
    trial(rt, "Eg1 without multiframe", accept_saving(1, zero, None))?;
    trial(rt, "Eg1 without both", accept_saving(1, None, None))
}

// Element 2.
fn accept_2(len: usize, elems: usize, data: u64) -> Accept {
    with(|a: &mut Accept| a.new_registered_area = type4(len, elems, data))
}

pub(crate) fn type4_elements(rt: &impl Print) -> io::Result<()> {
    trial(rt, "2 of length 0, count 0, data 0", accept_2(0, 0, 0))?;
    trial(rt, "2 of length 65, count 0, data 0", accept_2(65, 0, 0))?;
    trial(rt, "2 of length 64, count 64, data 0", accept_2(64, 64, 0))?;
    trial(rt, "2 of length 1, count 0, data 2", accept_2(1, 0, 2))?;
    let e = type4(0, 0, 0);
    changed(rt, "12", |a: &mut Accept| {
        a.group_identity_security_related_information = e;
    })?;
    changed(rt, "12", |d: &mut AttachDetach| {
        d.group_identity_security_related_information = e;
    })
}
