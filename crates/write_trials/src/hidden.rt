// Values over their widths in what is absent and behind a list's count: nothing looks at them.
use crate::groups::{downlink_trial, downlinks_trial, uplink_trial, uplinks_trial};
use crate::records::{
    Accept, AttachDetach, Demand, accept_list, attach_detach_list, changed, demand_list, trial,
    with,
};
use crate::show::line_512;
use crate::values::{
    attachment, class_of_version, downlink, downlink_at, downlinks, gssi, saving, then, type3,
    type4, uplink, uplink_at, uplinks,
};
use elements::class_of_ms::{ClassOfMs, OptionalClassOfMs};
use elements::energy_saving_information::OptionalEnergySavingInformation;
use elements::group_address::GroupAddress;
use elements::group_identity_downlink::{GroupIdentityDownlink, OptionalDownlinks};
use elements::group_identity_uplink::{GroupIdentityUplink, OptionalUplinks};
use elements::typed_pdu_fields::{OptionalType3, OptionalType4, OptionalU8, OptionalU64};
use messages::{ACCEPT, ATTACH_DETACH, DEMAND, Record};
use std::io;

const OCTET: OptionalU8 = OptionalU8 {
    present: false,
    value: 255,
};

const NUMBER: OptionalU64 = OptionalU64 {
    present: false,
    value: 0x8000_0000_0000_0000,
};

fn hidden_type3() -> OptionalType3 {
    OptionalType3 {
        present: false,
        ..type3(usize::MAX, u64::MAX)
    }
}

fn hidden_type4() -> OptionalType4 {
    OptionalType4 {
        present: false,
        ..type4(usize::MAX, usize::MAX, u64::MAX)
    }
}

fn hidden_class() -> OptionalClassOfMs {
    OptionalClassOfMs {
        present: false,
        value: ClassOfMs {
            freq_simplex_duplex: 255,
            d8psk: 255,
            ..class_of_version(255)
        },
    }
}

fn hidden_saving() -> OptionalEnergySavingInformation {
    OptionalEnergySavingInformation {
        present: false,
        ..saving(255, Some(255).into(), None.into())
    }
}

// The three addresses, over their width.
const WRONG_ADDRESS: GroupAddress = GroupAddress {
    gssi: Some(u32::MAX),
    address_extension: Some(u32::MAX),
    vgssi: Some(u32::MAX),
};

// Attached and detached, with all three addresses: 8, 10 and 11.
fn wrong_uplink() -> GroupIdentityUplink {
    uplink(Some(255), Some(255), WRONG_ADDRESS)
}

fn wrong_downlink() -> GroupIdentityDownlink {
    downlink(Some(attachment(255, 255)), Some(255), WRONG_ADDRESS)
}

fn hidden_uplinks() -> OptionalUplinks {
    OptionalUplinks {
        present: false,
        ..uplinks(usize::MAX, [wrong_uplink(); 63])
    }
}

fn hidden_downlinks() -> OptionalDownlinks {
    OptionalDownlinks {
        present: false,
        ..downlinks(usize::MAX, [wrong_downlink(); 63])
    }
}

fn hidden_demand() -> Demand {
    let mut d = demand_list(uplinks(usize::MAX, [wrong_uplink(); 63]));
    d.group_identity_location_demand.present = false;
    d.ciphering_parameters = NUMBER;
    d.class_of_ms = hidden_class();
    d.energy_saving_mode = OCTET;
    d.la_information = NUMBER;
    d.ssi = NUMBER;
    d.address_extension = NUMBER;
    d.group_report_response = hidden_type3();
    d.authentication_uplink = hidden_type3();
    d.extended_capabilities = hidden_type3();
    d.proprietary = hidden_type3();
    d
}

fn hidden_accept() -> Accept {
    let mut a = accept_list(downlinks(usize::MAX, [wrong_downlink(); 63]));
    a.group_identity_location_accept.present = false;
    a.ssi = NUMBER;
    a.address_extension = NUMBER;
    a.subscriber_class = NUMBER;
    a.energy_saving_information = hidden_saving();
    a.scch_information_and_distribution_on_18th_frame = NUMBER;
    a.new_registered_area = hidden_type4();
    a.security_downlink = hidden_type3();
    a.default_group_attachment_lifetime = hidden_type3();
    a.authentication_downlink = hidden_type3();
    a.group_identity_security_related_information = hidden_type4();
    a.cell_type_control = hidden_type3();
    a.proprietary = hidden_type3();
    a
}

fn hidden_attach_detach() -> AttachDetach {
    AttachDetach {
        proprietary: hidden_type3(),
        group_report_response: hidden_type3(),
        group_identity_security_related_information: hidden_type4(),
        ..attach_detach_list(hidden_downlinks())
    }
}

// Each message's is refused with 8. A call looks at its own message's alone.
fn wrong_records() -> Record {
    Record {
        demand: with(|d: &mut Demand| d.location_update_type = 255),
        accept: with(|a: &mut Accept| a.location_update_accept_type = 255),
        attach_detach: with(|d: &mut AttachDetach| d.group_identity_report = 255),
    }
}

fn absent(rt: &impl Print, name: &str, message: u64, held: Record) -> io::Result<()> {
    line_512(
        rt,
        format_args!("{name}, values in all that is absent"),
        0..4096,
        message,
        held,
    )
}

fn records(rt: &impl Print) -> io::Result<()> {
    let demand = Record {
        demand: hidden_demand(),
        ..wrong_records()
    };
    absent(rt, "demand", DEMAND, demand)?;
    let accept = Record {
        accept: hidden_accept(),
        ..wrong_records()
    };
    absent(rt, "accept", ACCEPT, accept)?;
    let attach_detach = Record {
        attach_detach: hidden_attach_detach(),
        ..wrong_records()
    };
    absent(rt, "attach/detach", ATTACH_DETACH, attach_detach)
}

fn lists(rt: &impl Print) -> io::Result<()> {
    trial(
        rt,
        "values in an absent list",
        demand_list(hidden_uplinks()),
    )?;
    trial(
        rt,
        "values in an absent list",
        accept_list(hidden_downlinks()),
    )?;
    let behind = uplinks(0, [wrong_uplink(); 63]);
    trial(rt, "values behind an empty list", demand_list(behind))?;
    let behind = downlinks(0, [wrong_downlink(); 63]);
    trial(rt, "values behind an empty list", accept_list(behind))?;
    trial(
        rt,
        "values behind an empty list",
        attach_detach_list(behind),
    )?;
    uplinks_trial(
        rt,
        "values behind one group",
        uplinks(1, then(uplink_at(gssi(1)), wrong_uplink())),
    )?;
    downlinks_trial(
        rt,
        "values behind one group",
        downlinks(1, then(downlink_at(gssi(1)), wrong_downlink())),
    )
}

fn groups(rt: &impl Print) -> io::Result<()> {
    let attached = GroupIdentityUplink {
        address_extension: u32::MAX,
        vgssi: u32::MAX,
        group_identity_detachment_uplink: 255,
        ..uplink_at(gssi(1))
    };
    uplink_trial(rt, "values in what is absent", attached)?;
    let detached = GroupIdentityUplink {
        address_extension: u32::MAX,
        vgssi: u32::MAX,
        class_of_usage: 255,
        ..uplink(None, Some(3), gssi(1))
    };
    uplink_trial(rt, "values in what is absent, detached", detached)?;
    let down = GroupIdentityDownlink {
        address_extension: u32::MAX,
        vgssi: u32::MAX,
        group_identity_detachment_uplink: 255,
        ..downlink_at(gssi(1))
    };
    downlink_trial(rt, "values in what is absent", down)?;
    changed(
        rt,
        "StayAlive, values in what is absent",
        |a: &mut Accept| {
            a.energy_saving_information = saving(0, OCTET, OCTET);
        },
    )
}

pub(crate) fn trials(rt: &impl Print) -> io::Result<()> {
    records(rt)?;
    lists(rt)?;
    groups(rt)
}
