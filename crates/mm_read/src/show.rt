// What is printed: a heading, and below it a line `name: value` for each field, deeper ones further in.
// What a record may lack is there a flag beside a value, as the records are that the benchmark hands to C.
ghost use Rattle.std.specs.Prelude.{◌≤◌};

use crate::call::{Call, Fault};
use bits::pdu_parse_error::PduParseErr;
use elements::class_of_ms::OptionalClassOfMs;
use elements::energy_saving_information::OptionalEnergySavingInformation;
use elements::group_address::GroupAddress;
use elements::group_identity_downlink::GroupIdentityDownlink;
use elements::group_identity_location_accept::OptionalLocationAccept;
use elements::group_identity_location_demand::OptionalLocationDemand;
use elements::group_identity_uplink::GroupIdentityUplink;
use elements::typed_pdu_fields::{OptionalType3, OptionalType4, OptionalU8};
use messages::d_attach_detach_group_identity::DAttachDetachGroupIdentity;
use messages::d_location_update_accept::DLocationUpdateAccept;
use messages::u_location_update_demand::ULocationUpdateDemand;
use messages::{ACCEPT, DEMAND, Reading, Record};
use std::{fmt, io};

// A line of a field.
fn field(
    out: &mut impl io::Write,
    level: u8,
    name: impl fmt::Display + Drop,
    value: impl fmt::Display + Drop,
) -> io::Result<()> {
    let indent = 2 * usize::from(level);
    writeln!(out, "{:indent$}{name}: {value}", "")
}

// A line of a number that may be absent.
fn field_if(
    out: &mut impl io::Write,
    level: u8,
    name: &str,
    value: impl Into<Option<u64>>,
) -> io::Result<()> {
    if let Some(n) = value.into() {
        field(out, level, name, n)?;
    }
    Ok(())
}

// An octet that may be absent, as the number that `field_if` takes.
fn octet(n: OptionalU8) -> Option<u64> {
    Option::<u8>::from(n).map(u64::from)
}

// The data of an element of so many bits, of which a record holds 64.
fn data_of(out: &mut impl io::Write, bits: usize, n: u64) -> io::Result<()> {
    if bits <= 64 {
        let digits = bits.div_ceil(4);
        field(out, 2, "data", format_args!("0x{n:0digits$x}"))
    } else {
        field(
            out,
            2,
            "first 64 bits of the data",
            format_args!("0x{n:016x}"),
        )
    }
}

fn type3(out: &mut impl io::Write, name: &str, o: OptionalType3) -> io::Result<()> {
    if o.present {
        let e = o.value;
        field(out, 1, name, "present")?;
        field(out, 2, "length in bits", e.len)?;
        data_of(out, e.len, e.data)?;
    }
    Ok(())
}

fn type4(out: &mut impl io::Write, name: &str, o: OptionalType4) -> io::Result<()> {
    if o.present {
        let e = o.value;
        field(out, 1, name, "present")?;
        field(out, 2, "entries", e.elems)?;
        field(out, 2, "length in bits behind the number of entries", e.len)?;
        data_of(out, e.len, e.data)?;
    }
    Ok(())
}

// The fields of a class of MS, in order.
const CLASS_FIELDS: [&str; 22] = [
    "frequency simplex/duplex",
    "multislot phase modulation",
    "concurrent multicarrier",
    "voice",
    "end-to-end encryption not supported",
    "circuit mode data",
    "TETRA packet data",
    "fast switching",
    "DCK encryption",
    "CLCH needed",
    "concurrent circuit mode",
    "original advanced link",
    "minimum mode",
    "carrier specific signalling",
    "authentication",
    "SCK encryption",
    "air interface version",
    "common SCCH",
    "reserved 21",
    "MAC-D-BLCK",
    "extended advanced link",
    "D8PSK",
];

fn class_of_ms(out: &mut impl io::Write, o: OptionalClassOfMs) -> io::Result<()> {
    if o.present {
        field(out, 1, "class of MS", "present")?;
        for (name, value) in CLASS_FIELDS.iter().zip(o.value.fields()) {
            field(out, 2, name, value)?;
        }
    }
    Ok(())
}

fn energy_saving(out: &mut impl io::Write, o: OptionalEnergySavingInformation) -> io::Result<()> {
    if o.present {
        let e = o.value;
        field(out, 1, "energy saving information", "present")?;
        field(out, 2, "energy saving mode", e.energy_saving_mode)?;
        field_if(out, 2, "frame number", octet(e.frame_number))?;
        field_if(out, 2, "multiframe number", octet(e.multiframe_number))?;
    }
    Ok(())
}

// What a group of either direction holds.
#[derive(Clone, Copy)]
struct Group {
    lifetime: Option<u8>,
    usage: Option<u16>,
    detachment: Option<u8>,
    address: GroupAddress,
}

impl From<GroupIdentityUplink> for Group {
    fn from(g: GroupIdentityUplink) -> Group {
        Group {
            lifetime: None,
            usage: g.class_of_usage_present.then_some(g.class_of_usage),
            detachment: g
                .group_identity_detachment_uplink_present
                .then_some(g.group_identity_detachment_uplink),
            address: g.address(),
        }
    }
}

impl From<GroupIdentityDownlink> for Group {
    fn from(g: GroupIdentityDownlink) -> Group {
        let attachment = g
            .group_identity_attachment_present
            .then_some(g.group_identity_attachment);
        Group {
            lifetime: attachment.map(|a| a.group_identity_attachment_lifetime),
            usage: attachment.map(|a| u16::from(a.class_of_usage)),
            detachment: g
                .group_identity_detachment_uplink_present
                .then_some(g.group_identity_detachment_uplink),
            address: g.address(),
        }
    }
}

fn one_group(out: &mut impl io::Write, level: u8, number: usize, g: Group) -> io::Result<()>
    requires { level ≤ 4 }
{
    let change = if g.usage.is_some() {
        "attachment"
    } else {
        "detachment"
    };
    field(out, level, format_args!("group {number}"), change)?;
    let inner = level + 1;
    field_if(
        out,
        inner,
        "group identity attachment lifetime",
        g.lifetime.map(u64::from),
    )?;
    field_if(out, inner, "class of usage", g.usage.map(u64::from))?;
    field_if(
        out,
        inner,
        "group identity detachment uplink",
        g.detachment.map(u64::from),
    )?;
    let a = g.address;
    field_if(out, inner, "GSSI", a.gssi.map(u64::from))?;
    field_if(
        out,
        inner,
        "address extension",
        a.address_extension.map(u64::from),
    )?;
    field_if(out, inner, "VGSSI", a.vgssi.map(u64::from))
}

// A list of groups, which the C interface keeps whole: the first `count` are there.
fn groups<G: Copy + Into<Group>>(
    out: &mut impl io::Write,
    level: u8,
    name: &str,
    present: bool,
    count: usize,
    list: &[G],
) -> io::Result<()>
    requires { level ≤ 2 }
{
    if present {
        field(out, level, name, "present")?;
        field(out, level + 1, "groups", count)?;
        for (i, g) in list.iter().take(count).enumerate() {
            one_group(out, level + 1, i + 1, (*g).into())?;
        }
    }
    Ok(())
}

// Each structure has fields and a list of its own, so there is a function for each.
fn location_demand(out: &mut impl io::Write, o: OptionalLocationDemand) -> io::Result<()> {
    if o.present {
        let v = o.value;
        field(out, 1, "group identity location demand", "present")?;
        field(
            out,
            2,
            "group identity attach/detach mode",
            v.group_identity_attach_detach_mode,
        )?;
        let l = v.group_identity_uplink;
        groups(
            out,
            2,
            "group identity uplink",
            l.present,
            l.count,
            &l.groups,
        )?;
    }
    Ok(())
}

fn location_accept(out: &mut impl io::Write, o: OptionalLocationAccept) -> io::Result<()> {
    if o.present {
        let v = o.value;
        field(out, 1, "group identity location accept", "present")?;
        field(
            out,
            2,
            "group identity accept/reject",
            v.group_identity_accept_reject,
        )?;
        let l = v.group_identity_downlink;
        groups(
            out,
            2,
            "group identity downlink",
            l.present,
            l.count,
            &l.groups,
        )?;
    }
    Ok(())
}

fn demand(out: &mut impl io::Write, d: ULocationUpdateDemand) -> io::Result<()> {
    field(out, 1, "location update type", d.location_update_type)?;
    field(out, 1, "request to append LA", d.request_to_append_la)?;
    field(out, 1, "cipher control", d.cipher_control)?;
    field_if(out, 1, "ciphering parameters", d.ciphering_parameters)?;
    class_of_ms(out, d.class_of_ms)?;
    field_if(out, 1, "energy saving mode", octet(d.energy_saving_mode))?;
    field_if(out, 1, "LA information", d.la_information)?;
    field_if(out, 1, "SSI", d.ssi)?;
    field_if(out, 1, "address extension", d.address_extension)?;
    location_demand(out, d.group_identity_location_demand)?;
    type3(out, "group report response", d.group_report_response)?;
    type3(out, "authentication uplink", d.authentication_uplink)?;
    type3(out, "extended capabilities", d.extended_capabilities)?;
    type3(out, "proprietary", d.proprietary)
}

fn accept(out: &mut impl io::Write, a: DLocationUpdateAccept) -> io::Result<()> {
    field(
        out,
        1,
        "location update accept type",
        a.location_update_accept_type,
    )?;
    field_if(out, 1, "SSI", a.ssi)?;
    field_if(out, 1, "address extension", a.address_extension)?;
    field_if(out, 1, "subscriber class", a.subscriber_class)?;
    energy_saving(out, a.energy_saving_information)?;
    field_if(
        out,
        1,
        "SCCH information and distribution on 18th frame",
        a.scch_information_and_distribution_on_18th_frame,
    )?;
    type4(out, "new registered area", a.new_registered_area)?;
    type3(out, "security downlink", a.security_downlink)?;
    location_accept(out, a.group_identity_location_accept)?;
    type3(
        out,
        "default group attachment lifetime",
        a.default_group_attachment_lifetime,
    )?;
    type3(out, "authentication downlink", a.authentication_downlink)?;
    type4(
        out,
        "group identity security related information",
        a.group_identity_security_related_information,
    )?;
    type3(out, "cell type control", a.cell_type_control)?;
    type3(out, "proprietary", a.proprietary)
}

fn attach_detach(out: &mut impl io::Write, d: DAttachDetachGroupIdentity) -> io::Result<()> {
    field(out, 1, "group identity report", d.group_identity_report)?;
    field(
        out,
        1,
        "group identity acknowledgement request",
        d.group_identity_acknowledgement_request,
    )?;
    field(
        out,
        1,
        "group identity attach/detach mode",
        d.group_identity_attach_detach_mode,
    )?;
    type3(out, "proprietary", d.proprietary)?;
    type3(out, "group report response", d.group_report_response)?;
    let l = d.group_identity_downlink;
    groups(
        out,
        1,
        "group identity downlink",
        l.present,
        l.count,
        &l.groups,
    )?;
    type4(
        out,
        "group identity security related information",
        d.group_identity_security_related_information,
    )
}

fn record(out: &mut impl io::Write, message: u64, held: Record) -> io::Result<()> {
    match message {
        DEMAND => demand(out, held.demand),
        ACCEPT => accept(out, held.accept),
        _ => attach_detach(out, held.attach_detach),
    }
}

// A reading's refusals, as document 01's questions have them.
fn meaning(refusal: PduParseErr) -> &'static str {
    match refusal {
        PduParseErr::BadCall =>
            "the message is not known, there are more than 4,096 octets, or not first <= end <= 8 x octets",
        PduParseErr::BufferEnded =>
            "a field, an identifier or skipped content does not end inside the window",
        PduParseErr::InvalidPduType => "the 4-bit type is not the message's own",
        PduParseErr::InvalidValue => "the reserved bit of the location demand is not 0",
        PduParseErr::Type4Underflow =>
            "a type 4 length, which counts the 6 bits of its number of entries, is below 6",
        PduParseErr::InconsistentLength =>
            "a structure or a group list does not end where its length said",
        PduParseErr::InvalidTrailingMbitValue => "the closing M-bit is not 0",
        _ => "no refusal of a reading",
    }
}

// The answer of a call.
pub(crate) fn reading(out: &mut impl io::Write, message: u64, r: Reading) -> io::Result<()> {
    match r.verdict {
        Ok(()) => {
            record(out, message, r.record)?;
            field(out, 1, "bits consumed", r.consumed)?;
            field(out, 1, "elements skipped", r.skipped)
        }
        Err(e) => {
            field(out, 1, "refusal", e.number())?;
            field(out, 1, "meaning", meaning(e))?;
            field(out, 1, "place", format_args!("bit {}", r.place))
        }
    }
}

// `line 1: demand, strict, window 0 to 10`.
pub(crate) fn heading(out: &mut impl io::Write, n: u64, c: Call) -> io::Result<()> {
    writeln!(out, "line {n}: {c}")
}

// A line that is no call.
pub(crate) fn unread(out: &mut impl io::Write, n: u64, f: Fault) -> io::Result<()> {
    writeln!(out, "line {n}: not read: {f}")
}
