// Numbers that the original's types can't hold: 8, before any other question.
use crate::groups::uplink_trial;
use crate::records::{
    Accept, AttachDetach, Demand, accept_list, accept_saving, attach_detach_list, changed,
    ciphered, demand_list, trial,
};
use crate::values::{class_of_version, downlink_at, downlinks, gssi, uplink_at, uplinks};
use elements::class_of_ms::ClassOfMs;
use elements::group_identity_uplink::GroupIdentityUplink;
use std::io;

fn demand_numbers(rt: &impl Print) -> io::Result<()> {
    changed(rt, "update type 8", |d: &mut Demand| {
        d.location_update_type = 8;
    })?;
    changed(rt, "update type 255", |d: &mut Demand| {
        d.location_update_type = 255;
    })?;
    changed(rt, "append 2", |d: &mut Demand| d.request_to_append_la = 2)?;
    trial(rt, "cipher control 2", ciphered(2, Some(0)))
}

// A flag of the class of MS.
fn flag<F: FnOnce(&mut ClassOfMs)>(rt: &impl Print, name: &str, change: F) -> io::Result<()>
    requires { F.IsAlwaysCallable change }
{
    let mut k = class_of_version(7);
    change(&mut k);
    changed(rt, name, |d: &mut Demand| d.class_of_ms = Some(k).into())
}

fn flags(rt: &impl Print) -> io::Result<()> {
    flag(rt, "first flag 2", |k| k.freq_simplex_duplex = 2)?;
    flag(rt, "flag before the version 2", |k| k.sck_encryption = 2)?;
    flag(rt, "flag behind the version 2", |k| k.common_scch = 2)?;
    flag(rt, "last flag 255", |k| k.d8psk = 255)
}

// 256 is 0 in its low 8 bits.
fn usage(rt: &impl Print) -> io::Result<()> {
    let g = GroupIdentityUplink {
        class_of_usage: 256,
        ..uplink_at(gssi(1))
    };
    uplink_trial(rt, "class of usage 256", g)
}

fn accept_numbers(rt: &impl Print) -> io::Result<()> {
    changed(rt, "accept type 8", |a: &mut Accept| {
        a.location_update_accept_type = 8;
    })?;
    trial(rt, "saving mode 8", accept_saving(8, Some(0), Some(0)))?;
    let list = downlinks(usize::MAX, [downlink_at(gssi(1)); 63]);
    trial(rt, "list count 2^64 - 1", accept_list(list))
}

fn attach_detach_numbers(rt: &impl Print) -> io::Result<()> {
    changed(rt, "report 2", |d: &mut AttachDetach| {
        d.group_identity_report = 2;
    })?;
    changed(rt, "acknowledgement request 2", |d: &mut AttachDetach| {
        d.group_identity_acknowledgement_request = 2;
    })?;
    changed(rt, "mode 2", |d: &mut AttachDetach| {
        d.group_identity_attach_detach_mode = 2;
    })?;
    let list = downlinks(usize::MAX, [downlink_at(gssi(1)); 63]);
    trial(rt, "list count 2^64 - 1", attach_detach_list(list))
}

pub(crate) fn trials(rt: &impl Print) -> io::Result<()> {
    demand_numbers(rt)?;
    flags(rt)?;
    changed(rt, "saving mode 8", |d: &mut Demand| {
        d.energy_saving_mode = Some(8).into();
    })?;
    usage(rt)?;
    let list = uplinks(usize::MAX, [uplink_at(gssi(1)); 63]);
    trial(rt, "list count 2^64 - 1", demand_list(list))?;
    accept_numbers(rt)?;
    attach_detach_numbers(rt)?;
    trial(
        rt,
        "8 and 9: cipher control 2 without ciphering",
        ciphered(2, None),
    )?;
    trial(
        rt,
        "8 and 13: saving mode 8 without both",
        accept_saving(8, None, None),
    )
}
