// Records to start from, those of 26 00, 56 and A6, what is put into them, and the trials that write them.
use crate::show::whole;
use crate::values::{saving, type4};
use elements::group_identity_downlink::OptionalDownlinks;
use elements::group_identity_location_accept::{
    GroupIdentityLocationAccept, OptionalLocationAccept,
};
use elements::group_identity_location_demand::{
    GroupIdentityLocationDemand, OptionalLocationDemand,
};
use elements::group_identity_uplink::OptionalUplinks;
use messages::d_attach_detach_group_identity::DAttachDetachGroupIdentity;
use messages::d_location_update_accept::DLocationUpdateAccept;
use messages::u_location_update_demand::ULocationUpdateDemand;
use messages::{ACCEPT, ATTACH_DETACH, DEMAND, OwnRecord, Pdu};
use std::io;

pub(crate) type Demand = ULocationUpdateDemand;

pub(crate) type Accept = DLocationUpdateAccept;

pub(crate) type AttachDetach = DAttachDetachGroupIdentity;

// One of the three messages, as it is tried.
pub(crate) trait Message: Pdu {
    // Its name on the lines, and its type number.
    const NAME: &'static str;

    const TYPE: u64;

    // The record to start from.
    fn start() -> Self;
}

impl Message for ULocationUpdateDemand {
    const NAME: &'static str = "demand";

    const TYPE: u64 = DEMAND;

    fn start() -> Demand {
        Demand {
            location_update_type: 3,
            ..Demand::none()
        }
    }
}

impl Message for DLocationUpdateAccept {
    const NAME: &'static str = "accept";

    const TYPE: u64 = ACCEPT;

    fn start() -> Accept {
        Accept {
            location_update_accept_type: 3,
            ..Accept::none()
        }
    }
}

impl Message for DAttachDetachGroupIdentity {
    const NAME: &'static str = "attach/detach";

    const TYPE: u64 = ATTACH_DETACH;

    fn start() -> AttachDetach {
        AttachDetach {
            group_identity_acknowledgement_request: 1,
            group_identity_attach_detach_mode: 1,
            ..AttachDetach::none()
        }
    }
}

// The record to start from, changed.
pub(crate) fn with<M: Message, F: FnOnce(&mut M)>(change: F) -> M
    requires { F.IsAlwaysCallable change }
{
    let mut m = M::start();
    change(&mut m);
    m
}

// A record under its message's name and its own.
pub(crate) fn trial<M: Message>(rt: &impl Print, name: &str, m: M) -> io::Result<()> {
    whole(rt, format_args!("{}, {name}", M::NAME), m)
}

// The same of the record to start from, changed.
pub(crate) fn changed<M: Message, F: FnOnce(&mut M)>(
    rt: &impl Print,
    name: &str,
    change: F,
) -> io::Result<()>
    requires { F.IsAlwaysCallable change }
{
    trial(rt, name, with(change))
}

pub(crate) fn ciphered(control: u8, parameters: Option<u64>) -> Demand {
    Demand {
        cipher_control: control,
        ciphering_parameters: parameters.into(),
        ..Demand::start()
    }
}

// With a location demand.
pub(crate) fn located(d: Demand, mode: u8, list: OptionalUplinks) -> Demand {
    Demand {
        group_identity_location_demand: OptionalLocationDemand {
            present: true,
            value: GroupIdentityLocationDemand {
                group_identity_attach_detach_mode: mode,
                group_identity_uplink: list,
            },
        },
        ..d
    }
}

pub(crate) fn demand_list(list: OptionalUplinks) -> Demand {
    located(Demand::start(), 1, list)
}

pub(crate) fn accept_saving(mode: u8, frame: Option<u8>, multiframe: Option<u8>) -> Accept {
    Accept {
        energy_saving_information: saving(mode, frame.into(), multiframe.into()),
        ..Accept::start()
    }
}

// With element 2 of no bits.
pub(crate) fn with_area(a: Accept) -> Accept {
    Accept {
        new_registered_area: type4(0, 0, 0),
        ..a
    }
}

// With a location accept.
pub(crate) fn answered(a: Accept, accept_reject: u8, list: OptionalDownlinks) -> Accept {
    Accept {
        group_identity_location_accept: OptionalLocationAccept {
            present: true,
            value: GroupIdentityLocationAccept {
                group_identity_accept_reject: accept_reject,
                group_identity_downlink: list,
            },
        },
        ..a
    }
}

pub(crate) fn accept_list(list: OptionalDownlinks) -> Accept {
    answered(Accept::start(), 1, list)
}

pub(crate) fn attach_detach_list(list: OptionalDownlinks) -> AttachDetach {
    AttachDetach {
        group_identity_downlink: list,
        ..AttachDetach::start()
    }
}
