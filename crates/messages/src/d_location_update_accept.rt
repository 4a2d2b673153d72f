// D-LOCATION UPDATE ACCEPT (EN 300 392-2, clause 16.9.2.7).
ghost use Rattle.std.specs.Prelude.{◌≡◌, true};
ghost use Rattle.bits.specs.Reader.{got};
ghost use Rattle.bits.specs.Placed.{at, as_read};
ghost use Rattle.elements.specs.Numbers.{u64_of};
ghost use Rattle.elements.specs.EnergySaving.{saving_option};
ghost use Rattle.elements.specs.Kinds.{identifier_of, content};
ghost use Rattle.elements.specs.declared.typed_pdu_fields.Kind.TheVariants as K;
ghost use Rattle.messages.specs.Format.{body};
ghost use Rattle.messages.specs.Description.{no_options, read_options, options_behind, read_head};
ghost use Rattle.messages.specs.Accept.{accept, accept_options_of, accept_head_of, accept_of};
ghost use Rattle.messages.specs.Calls.{format_of, alone};
ghost use Rattle.messages.specs.MessageAnswers.{message_answer, only, slots_from, generics_in, own_kept};
ghost use Rattle.messages.specs.declared.Message.TheVariants as M;

use crate::d_attach_detach_group_identity::DAttachDetachGroupIdentity;
use crate::u_location_update_demand::ULocationUpdateDemand;
use crate::{Headed, MessageRead, OwnRecord, Pdu, Record, unread};
use bits::bitbuffer::{Cursor, Read};
use bits::pdu_parse_error::PduParseErr;
use elements::energy_saving_information::{
    EnergySavingInformation, OptionalEnergySavingInformation, parse_type2_energy_saving,
};
use elements::group_identity_location_accept::{
    GroupIdentityLocationAccept, OptionalLocationAccept,
};
use elements::mm_pdu_type_dl::D_LOCATION_UPDATE_ACCEPT;
use elements::structure::{Structure, read_structure_slot};
use elements::type34_elem_id_dl::{
    AUTHENTICATION_DOWNLINK, CELL_TYPE_CONTROL, DEFAULT_GROUP_ATTACH_LIFETIME,
    GROUP_IDENTITY_LOCATION_ACCEPT, GROUP_IDENTITY_SECURITY_RELATED_INFORMATION,
    NEW_REGISTERED_AREA, PROPRIETARY, SECURITY_DOWNLINK,
};
use elements::typed_pdu_fields::{
    Generic, Kind, NO_GENERICS, OptionalType3, OptionalType4, OptionalU64, Row, element_follows,
    parse_type2_generic, scan_part,
};

// The type 2 elements.
#[derive(Clone, Copy)]
pub struct AcceptOptions {
    pub ssi: OptionalU64,
    pub address_extension: OptionalU64,
    pub subscriber_class: OptionalU64,
    pub energy_saving_information: OptionalEnergySavingInformation,
    pub scch_information_and_distribution_on_18th_frame: OptionalU64,
}

// What stands before the listed elements, but for the O-bit: the fields, and the type 2 elements.
#[derive(Clone, Copy)]
pub struct AcceptHead {
    pub location_update_accept_type: u8,
    pub options: AcceptOptions,
}

#[repr(C)]
#[derive(Clone, Copy)]
pub struct DLocationUpdateAccept {
    pub location_update_accept_type: u8,
    pub ssi: OptionalU64,
    pub address_extension: OptionalU64,
    pub subscriber_class: OptionalU64,
    pub energy_saving_information: OptionalEnergySavingInformation,
    pub scch_information_and_distribution_on_18th_frame: OptionalU64,
    pub new_registered_area: OptionalType4,
    pub security_downlink: OptionalType3,
    pub group_identity_location_accept: OptionalLocationAccept,
    pub default_group_attachment_lifetime: OptionalType3,
    pub authentication_downlink: OptionalType3,
    pub group_identity_security_related_information: OptionalType4,
    pub cell_type_control: OptionalType3,
    pub proprietary: OptionalType3,
}

fn options_of(
    ssi: Option<u64>,
    address_extension: Option<u64>,
    subscriber_class: Option<u64>,
    energy_saving: Option<EnergySavingInformation>,
    scch: Option<u64>,
) -> AcceptOptions
    ensures { result ≡ accept_options_of (u64_of ssi, (u64_of address_extension, (u64_of subscriber_class, (saving_option energy_saving, (u64_of scch, tt))))) }
{
    AcceptOptions {
        ssi: ssi.into(),
        address_extension: address_extension.into(),
        subscriber_class: subscriber_class.into(),
        energy_saving_information: energy_saving.into(),
        scch_information_and_distribution_on_18th_frame: scch.into(),
    }
}

// SSI, address extension, subscriber class, energy saving information and SCCH information.
fn read_options(c: Cursor, octets: &[u8]) -> Read<AcceptOptions>
    ensures { as_read result ≡ at (read_options accept.options (λ os. got (accept_options_of os))) octets.now c }
{
    let (ssi, c1) = parse_type2_generic(c, octets, 24)?;
    let (address_extension, c2) = parse_type2_generic(c1, octets, 24)?;
    let (subscriber_class, c3) = parse_type2_generic(c2, octets, 16)?;
    let (energy_saving, c4) = parse_type2_energy_saving(c3, octets)?;
    let (scch, c5) = parse_type2_generic(c4, octets, 6)?;
    Ok((
        options_of(
            ssi,
            address_extension,
            subscriber_class,
            energy_saving,
            scch,
        ),
        c5,
    ))
}

fn no_options() -> AcceptOptions
    ensures { result ≡ accept_options_of (no_options accept.options) }
{
    options_of(None, None, None, None, None)
}

// The type 2 elements behind an O-bit of 1.
fn read_options_if(c: Cursor, octets: &[u8], more: bool) -> Read<AcceptOptions>
    ensures { as_read result ≡ at (options_behind accept.options accept_options_of more) octets.now c }
{
    if more {
        return read_options(c, octets);
    }
    Ok((no_options(), c))
}

// The type and the fields up to the O-bit, the O-bit and the type 2 elements.
fn read_head(c: Cursor, octets: &[u8]) -> Read<Headed<AcceptHead>>
    ensures { as_read result ≡ at (read_head accept accept_options_of accept_head_of) octets.now c }
{
    let (pdu_type, c1) = c.read::<u8>(octets, 4)?;
    if pdu_type == D_LOCATION_UPDATE_ACCEPT {
        let (location_update_accept_type, c2) = c1.read::<u8>(octets, 3)?;
        let (obit, c3) = c2.read::<u8>(octets, 1)?;
        let (options, c4) = read_options_if(c3, octets, obit == 1)?;
        return Ok((
            Headed {
                head: AcceptHead {
                    location_update_accept_type,
                    options,
                },
                obit,
            },
            c4,
        ));
    }
    Err(PduParseErr::InvalidPduType)
}

// The record, of the head, the location accept, and the generic slots before it and behind it.
// Compiled into its callers: its list is else copied once more.
#[inline(always)]
fn record_of(
    head: AcceptHead,
    location: OptionalLocationAccept,
    before: [Generic; 8],
    behind: [Generic; 8],
) -> DLocationUpdateAccept
    ensures { result ≡ accept_of head (slots_from accept.table (only K.LocationAccept location) (generics_in 2 before behind)) }
{
    DLocationUpdateAccept {
        location_update_accept_type: head.location_update_accept_type,
        ssi: head.options.ssi,
        address_extension: head.options.address_extension,
        subscriber_class: head.options.subscriber_class,
        energy_saving_information: head.options.energy_saving_information,
        scch_information_and_distribution_on_18th_frame: head
            .options
            .scch_information_and_distribution_on_18th_frame,
        new_registered_area: before[0].into(),
        security_downlink: before[1].into(),
        group_identity_location_accept: location,
        default_group_attachment_lifetime: behind[3].into(),
        authentication_downlink: behind[4].into(),
        group_identity_security_related_information: behind[5].into(),
        cell_type_control: behind[6].into(),
        proprietary: behind[7].into(),
    }
}

// The listed elements, in order.
static TABLE: [Row; 8] = [
    Row {
        identifier: NEW_REGISTERED_AREA,
        kind: Kind::Type4,
    },
    Row {
        identifier: SECURITY_DOWNLINK,
        kind: Kind::Type3,
    },
    Row {
        identifier: GROUP_IDENTITY_LOCATION_ACCEPT,
        kind: Kind::LocationAccept,
    },
    Row {
        identifier: DEFAULT_GROUP_ATTACH_LIFETIME,
        kind: Kind::Type3,
    },
    Row {
        identifier: AUTHENTICATION_DOWNLINK,
        kind: Kind::Type3,
    },
    Row {
        identifier: GROUP_IDENTITY_SECURITY_RELATED_INFORMATION,
        kind: Kind::Type4,
    },
    Row {
        identifier: CELL_TYPE_CONTROL,
        kind: Kind::Type3,
    },
    Row {
        identifier: PROPRIETARY,
        kind: Kind::Type3,
    },
];

// The listed elements, up to the closing M-bit.
fn read_elements(
    c: Cursor,
    octets: &[u8],
    head: Headed<AcceptHead>,
    skipping: bool,
) -> MessageRead<DLocationUpdateAccept>
    ensures { result ≡ message_answer (λ r. r.accept) (at (body identifier_of content (format_of M.Accept) skipping head true) octets.now c) }
{
    let a = scan_part(c, octets, &TABLE, 0, 2, false, skipping);
    let v = a.verdict;
    let Ok(c1) = v else {
        return unread(v.unwrap_err());
    };
    let d = read_structure_slot::<GroupIdentityLocationAccept>(
        c1,
        octets,
        GROUP_IDENTITY_LOCATION_ACCEPT,
    );
    let w = d.verdict;
    let Ok(c2) = w else {
        return unread(w.unwrap_err());
    };
    let z = element_follows(c2, octets, true);
    let Ok((further, c3)) = z else {
        return unread(z.unwrap_err());
    };
    let front = a.value;
    let before = front.generics;
    let location = d.value;
    if !further {
        return MessageRead {
            verdict: Ok((front.skipped, c3)),
            record: record_of(head.head, location, before, NO_GENERICS),
        };
    }
    let b = scan_part(c2, octets, &TABLE, 3, 8, true, skipping);
    let x = b.verdict;
    let Ok(c4) = x else {
        return unread(x.unwrap_err());
    };
    let back = b.value;
    let behind = back.generics;
    MessageRead {
        verdict: Ok((front.skipped + back.skipped, c4)),
        record: record_of(head.head, location, before, behind),
    }
}

impl OwnRecord for DLocationUpdateAccept {
    ghost own = { λ r. r.accept };

    ghost of = { alone M.Accept };

    fn none() -> DLocationUpdateAccept {
        let head = AcceptHead {
            location_update_accept_type: 0,
            options: no_options(),
        };
        let none = GroupIdentityLocationAccept::none().optional(false);
        record_of(head, none, NO_GENERICS, NO_GENERICS)
    }

    fn alone(self) -> Record {
        Record {
            demand: ULocationUpdateDemand::none(),
            accept: self,
            attach_detach: DAttachDetachGroupIdentity::none(),
        }
    }
}

impl Pdu for DLocationUpdateAccept {
    ghost message = { M.Accept };

    ghost kept = { own_kept M.Accept };

    // The message: its head, and behind an O-bit of 1 its listed elements, if there are any.
    fn from_bitbuf(c: Cursor, octets: &[u8], skipping: bool) -> MessageRead<DLocationUpdateAccept> {
        let h = read_head(c, octets);
        let Ok((head, c1)) = h else {
            return unread(h.unwrap_err());
        };
        let e = element_follows(c1, octets, head.obit == 1);
        let Ok((more, c2)) = e else {
            return unread(e.unwrap_err());
        };
        if more {
            return read_elements(c2, octets, head, skipping);
        }
        let none = GroupIdentityLocationAccept::none().optional(false);
        MessageRead {
            verdict: Ok((0, c2)),
            record: record_of(head.head, none, NO_GENERICS, NO_GENERICS),
        }
    }
}
