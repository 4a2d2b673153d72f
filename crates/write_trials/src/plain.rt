// Messages that are written, and records as a reading gives them.
use crate::records::{
    Accept, AttachDetach, Demand, Message, accept_list, attach_detach_list, changed, demand_list,
    trial, with,
};
use crate::show::line_512;
use crate::values::{class_of_version, downlink_at, downlinks, gssi, type3, uplink_at, uplinks};
use elements::group_list::no_list;
use messages::{ACCEPT, DEMAND, STRICT, read};
use std::io;

// Octets that are read strictly; the record is written.
fn as_read(rt: &impl Print, name: &str, octets: &[u8], end: usize, message: u64) -> io::Result<()> {
    let r = read(octets, 0, end, message, STRICT);
    match r.verdict {
        Ok(()) => line_512(rt, name, 0..4096, message, r.record),
        Err(_) => println!(rt; "{name} | not read"),
    }
}

// Element 9.
pub(crate) fn demand_9(len: usize, data: u64) -> Demand {
    with(|d: &mut Demand| d.authentication_uplink = type3(len, data))
}

fn demands(rt: &impl Print) -> io::Result<()> {
    trial(rt, "nothing optional", Demand::start())?;
    as_read(rt, "demand, as 26 40 is read", &[0x26, 0x40], 16, DEMAND)?;
    changed(rt, "SSI 1", |d: &mut Demand| d.ssi = Some(1).into())?;
    let k = class_of_version(7);
    changed(rt, "class word 0000E0", |d: &mut Demand| {
        d.class_of_ms = Some(k).into();
    })?;
    changed(rt, "LA 1", |d: &mut Demand| {
        d.la_information = Some(1).into();
    })?;
    changed(rt, "LA 16383", |d: &mut Demand| {
        d.la_information = Some(16383).into();
    })?;
    changed(rt, "saving mode 7", |d: &mut Demand| {
        d.energy_saving_mode = Some(7).into();
    })?;
    trial(rt, "9 of length 0, data 0", demand_9(0, 0))?;
    trial(rt, "9 of length 1, data 1", demand_9(1, 1))?;
    trial(
        rt,
        "9 of length 64, data 8123456789ABCDEF",
        demand_9(64, 0x8123_4567_89AB_CDEF),
    )
}

fn lists(rt: &impl Print) -> io::Result<()> {
    trial(rt, "nothing optional", Accept::start())?;
    trial(rt, "nothing optional", AttachDetach::start())?;
    trial(rt, "no list", demand_list(no_list()))?;
    trial(
        rt,
        "empty list",
        demand_list(uplinks(0, [uplink_at(gssi(1)); 63])),
    )?;
    trial(rt, "no list", accept_list(no_list()))?;
    let empty = downlinks(0, [downlink_at(gssi(1)); 63]);
    trial(rt, "empty list", accept_list(empty))?;
    trial(rt, "empty list", attach_detach_list(empty))
}

// Element 9 of 65 ones.
const LENGTH_65: [u8; 13] = [
    0x26, 0x41, 0x90, 0x83, 0xFF, 0xFF, 0xFF, 0xFF, 0xFF, 0xFF, 0xFF, 0xFF, 0x00,
];

// The reserved bit of a location accept, and frame and multiframe of StayAlive, are ones here and are written as zeros.
fn readings(rt: &impl Print) -> io::Result<()> {
    as_read(
        rt,
        "demand, 9 of length 65, as it is read",
        &LENGTH_65,
        97,
        DEMAND,
    )?;
    as_read(
        rt,
        "accept, as 57 05 40 1E 00 is read",
        &[0x57, 0x05, 0x40, 0x1E, 0x00],
        33,
        ACCEPT,
    )?;
    as_read(
        rt,
        "accept, as 57 11 FF C0 is read",
        &[0x57, 0x11, 0xFF, 0xC0],
        28,
        ACCEPT,
    )
}

pub(crate) fn trials(rt: &impl Print) -> io::Result<()> {
    demands(rt)?;
    lists(rt)?;
    readings(rt)
}
