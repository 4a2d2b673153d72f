// The line of a trial: the refusal's number, or the bits consumed, the count skipped and all that the record holds.
use crate::build::Message;
use elements::class_of_ms::OptionalClassOfMs;
use elements::energy_saving_information::OptionalEnergySavingInformation;
use elements::group_address::GroupAddress;
use elements::group_identity_downlink::GroupIdentityDownlink;
use elements::group_identity_location_accept::OptionalLocationAccept;
use elements::group_identity_location_demand::OptionalLocationDemand;
use elements::group_identity_uplink::GroupIdentityUplink;
use elements::typed_pdu_fields::{OptionalType3, OptionalType4, OptionalU8};
use messages::d_attach_detach_group_identity::DAttachDetachGroupIdentity;
use messages::d_location_update_accept::DLocationUpdateAccept;
use messages::u_location_update_demand::ULocationUpdateDemand;
use messages::{ACCEPT, DEMAND, Record, SKIPPING, STRICT, read};
use std::fmt::Display;
use std::io;
use std::ops::Range;

// An octet that may be absent, as the number that `numbers` takes.
fn octet(n: OptionalU8) -> Option<u64> {
    Option::<u8>::from(n).map(u64::from)
}

// The numbers that are present, each behind its label.
fn numbers(rt: &impl Print, rows: &[(&str, Option<u64>)]) -> io::Result<()> {
    for (label, number) in rows {
        if let Some(n) = number {
            print!(rt; " {label} {n}")?;
        }
    }
    Ok(())
}

fn type3(rt: &impl Print, identifier: u8, g: OptionalType3) -> io::Result<()> {
    if g.present {
        print!(rt;
            " | {identifier} length {} data {:x}",
            g.value.len, g.value.data
        )?;
    }
    Ok(())
}

fn type4(rt: &impl Print, identifier: u8, g: OptionalType4) -> io::Result<()> {
    if g.present {
        print!(rt;
            " | {identifier} length {} entries {} data {:x}",
            g.value.len, g.value.elems, g.value.data
        )?;
    }
    Ok(())
}

// The 22 fields in order, a digit each.
fn class_of_ms(rt: &impl Print, o: OptionalClassOfMs) -> io::Result<()> {
    if o.present {
        print!(rt; " class ")?;
        for digit in o.value.fields() {
            print!(rt; "{digit}")?;
        }
    }
    Ok(())
}

fn energy_saving(rt: &impl Print, o: OptionalEnergySavingInformation) -> io::Result<()> {
    if o.present {
        let saving = o.value;
        print!(rt; " saving {}", saving.energy_saving_mode)?;
        numbers(
            rt,
            &[
                ("frame", octet(saving.frame_number)),
                ("multiframe", octet(saving.multiframe_number)),
            ],
        )?;
    }
    Ok(())
}

// What a group of either direction holds.
#[derive(Clone, Copy)]
struct Group {
    lifetime: Option<u8>,
    usage: Option<u16>,
    detachment: Option<u8>,
    address: GroupAddress,
}

impl From<GroupIdentityUplink> for Group {
    fn from(g: GroupIdentityUplink) -> Group {
        Group {
            lifetime: None,
            usage: g.class_of_usage_present.then_some(g.class_of_usage),
            detachment: g
                .group_identity_detachment_uplink_present
                .then_some(g.group_identity_detachment_uplink),
            address: g.address(),
        }
    }
}

impl From<GroupIdentityDownlink> for Group {
    fn from(g: GroupIdentityDownlink) -> Group {
        let attachment = g
            .group_identity_attachment_present
            .then_some(g.group_identity_attachment);
        Group {
            lifetime: attachment.map(|a| a.group_identity_attachment_lifetime),
            usage: attachment.map(|a| u16::from(a.class_of_usage)),
            detachment: g
                .group_identity_detachment_uplink_present
                .then_some(g.group_identity_detachment_uplink),
            address: g.address(),
        }
    }
}

fn one_group(rt: &impl Print, g: Group) -> io::Result<()> {
    print!(rt; " |")?;
    numbers(
        rt,
        &[
            ("lifetime", g.lifetime.map(u64::from)),
            ("usage", g.usage.map(u64::from)),
            ("detachment", g.detachment.map(u64::from)),
            ("gssi", g.address.gssi.map(u64::from)),
            ("extension", g.address.address_extension.map(u64::from)),
            ("vgssi", g.address.vgssi.map(u64::from)),
        ],
    )
}

// The count, the first group and the last of a list, which the C interface keeps whole: the first `count` are there.
fn list<G: Copy + Into<Group>>(
    rt: &impl Print,
    present: bool,
    count: usize,
    groups: &[G],
) -> io::Result<()> {
    if !present {
        return Ok(());
    }
    print!(rt; " | list {count}")?;
    let mut listed = groups.iter().take(count);
    if let Some(g) = listed.next() {
        one_group(rt, (*g).into())?;
    }
    if let Some(g) = listed.last() {
        one_group(rt, (*g).into())?;
    }
    Ok(())
}

// Each structure has a number and a list of its own, so there is a function for each.
fn location_demand(rt: &impl Print, o: OptionalLocationDemand) -> io::Result<()> {
    if o.present {
        let location = o.value;
        print!(rt;
            " | location mode {}",
            location.group_identity_attach_detach_mode
        )?;
        let l = location.group_identity_uplink;
        list(rt, l.present, l.count, &l.groups)?;
    }
    Ok(())
}

fn location_accept(rt: &impl Print, o: OptionalLocationAccept) -> io::Result<()> {
    if o.present {
        let location = o.value;
        print!(rt;
            " | location accept/reject {}",
            location.group_identity_accept_reject
        )?;
        let l = location.group_identity_downlink;
        list(rt, l.present, l.count, &l.groups)?;
    }
    Ok(())
}

fn demand(rt: &impl Print, d: ULocationUpdateDemand) -> io::Result<()> {
    print!(rt;
        " update type {} append {} cipher {}",
        d.location_update_type, d.request_to_append_la, d.cipher_control
    )?;
    numbers(rt, &[("ciphering", d.ciphering_parameters.into())])?;
    class_of_ms(rt, d.class_of_ms)?;
    numbers(
        rt,
        &[
            ("mode", octet(d.energy_saving_mode)),
            ("la", d.la_information.into()),
            ("ssi", d.ssi.into()),
            ("extension", d.address_extension.into()),
        ],
    )?;
    location_demand(rt, d.group_identity_location_demand)?;
    type3(rt, 4, d.group_report_response)?;
    type3(rt, 9, d.authentication_uplink)?;
    type3(rt, 11, d.extended_capabilities)?;
    type3(rt, 15, d.proprietary)
}

fn accept(rt: &impl Print, a: DLocationUpdateAccept) -> io::Result<()> {
    print!(rt; " accept type {}", a.location_update_accept_type)?;
    numbers(
        rt,
        &[
            ("ssi", a.ssi.into()),
            ("extension", a.address_extension.into()),
            ("subscriber", a.subscriber_class.into()),
        ],
    )?;
    energy_saving(rt, a.energy_saving_information)?;
    let scch = a.scch_information_and_distribution_on_18th_frame;
    numbers(rt, &[("scch", scch.into())])?;
    type4(rt, 2, a.new_registered_area)?;
    type3(rt, 3, a.security_downlink)?;
    location_accept(rt, a.group_identity_location_accept)?;
    type3(rt, 1, a.default_group_attachment_lifetime)?;
    type3(rt, 10, a.authentication_downlink)?;
    type4(rt, 12, a.group_identity_security_related_information)?;
    type3(rt, 13, a.cell_type_control)?;
    type3(rt, 15, a.proprietary)
}

fn attach_detach(rt: &impl Print, d: DAttachDetachGroupIdentity) -> io::Result<()> {
    let acknowledgement = d.group_identity_acknowledgement_request;
    print!(rt;
        " report {} acknowledgement {acknowledgement} mode {}",
        d.group_identity_report, d.group_identity_attach_detach_mode
    )?;
    type3(rt, 15, d.proprietary)?;
    type3(rt, 4, d.group_report_response)?;
    let l = d.group_identity_downlink;
    list(rt, l.present, l.count, &l.groups)?;
    type4(rt, 12, d.group_identity_security_related_information)
}

fn record(rt: &impl Print, message: u64, held: Record) -> io::Result<()> {
    match message {
        DEMAND => demand(rt, held.demand),
        ACCEPT => accept(rt, held.accept),
        _ => attach_detach(rt, held.attach_detach),
    }
}

// One reading. Message and reading are the library's numbers, since unknown ones are tried too.
pub(crate) fn line(
    rt: &impl Print,
    name: impl Display + Drop,
    octets: &[u8],
    window: Range<usize>,
    message: u64,
    wanted: u64,
) -> io::Result<()> {
    let r = read(octets, window.start, window.end, message, wanted);
    match r.verdict {
        Ok(()) => {
            print!(rt; "{name}: consumed {} skipped {} |", r.consumed, r.skipped)?;
            record(rt, message, r.record)?;
            println!(rt)
        }
        Err(e) => println!(rt; "{name}: refused {}", e.number()),
    }
}

// All of a message from bit 0 on, read strictly.
pub(crate) fn strict(rt: &impl Print, name: impl Display + Drop, m: &Message) -> io::Result<()> {
    line(rt, name, &m.octets, 0..m.end(), m.message, STRICT)
}

// The same in both readings.
pub(crate) fn both(rt: &impl Print, name: &str, m: &Message) -> io::Result<()> {
    strict(rt, format_args!("{name}, strict"), m)?;
    line(
        rt,
        format_args!("{name}, skipping"),
        &m.octets,
        0..m.end(),
        m.message,
        SKIPPING,
    )
}
