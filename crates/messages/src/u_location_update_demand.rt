// U-LOCATION UPDATE DEMAND (EN 300 392-2, clause 16.9.3.4).
ghost use Rattle.std.specs.Prelude.{◌≡◌, true, option_map, get_or};
ghost use Rattle.bits.specs.Reader.{got};
ghost use Rattle.bits.specs.Placed.{at, as_read};
ghost use Rattle.elements.specs.Numbers.{u8_of, u64_of};
ghost use Rattle.elements.specs.ClassOfMs.{class_option};
ghost use Rattle.elements.specs.Kinds.{identifier_of, content};
ghost use Rattle.elements.specs.Rows.{no_generic};
ghost use Rattle.elements.specs.declared.typed_pdu_fields.Kind.TheVariants as K;
ghost use Rattle.messages.specs.Format.{body};
ghost use Rattle.messages.specs.Description.{no_options, read_options, options_behind, read_head};
ghost use Rattle.messages.specs.Type2Elements.{halved};
ghost use Rattle.messages.specs.Demand.{demand, demand_options_of, demand_head_of, demand_of};
ghost use Rattle.messages.specs.Calls.{format_of, alone};
ghost use Rattle.messages.specs.MessageAnswers.{message_answer, only, slots_from, own_kept};
ghost use Rattle.messages.specs.declared.Message.TheVariants as M;

use crate::d_attach_detach_group_identity::DAttachDetachGroupIdentity;
use crate::d_location_update_accept::DLocationUpdateAccept;
use crate::{Headed, MessageRead, OwnRecord, Pdu, Record, unread};
use bits::bitbuffer::{Cursor, Read};
use bits::pdu_parse_error::PduParseErr;
use elements::class_of_ms::{ClassOfMs, OptionalClassOfMs, parse_type2_class_of_ms};
use elements::group_identity_location_demand::{
    GroupIdentityLocationDemand, OptionalLocationDemand,
};
use elements::mm_pdu_type_ul::U_LOCATION_UPDATE_DEMAND;
use elements::structure::{Structure, read_structure_slot};
use elements::type34_elem_id_ul::{
    AUTHENTICATION_UPLINK, EXTENDED_CAPABILITIES, GROUP_IDENTITY_LOCATION_DEMAND,
    GROUP_REPORT_RESPONSE, PROPRIETARY,
};
use elements::typed_pdu_fields::{
    Generic, Kind, NO_GENERICS, NO_NUMBER, OptionalType3, OptionalU8, OptionalU64, Row,
    element_follows, parse_type2_generic, read_optional, scan_part, skip_if,
};

// The type 2 elements.
#[derive(Clone, Copy)]
pub struct DemandOptions {
    pub class_of_ms: OptionalClassOfMs,
    pub energy_saving_mode: OptionalU8,
    pub la_information: OptionalU64,
    pub ssi: OptionalU64,
    pub address_extension: OptionalU64,
}

// What stands before the listed elements, but for the O-bit: the fields, and the type 2 elements.
#[derive(Clone, Copy)]
pub struct DemandHead {
    pub location_update_type: u8,
    pub request_to_append_la: u8,
    pub cipher_control: u8,
    pub ciphering_parameters: OptionalU64,
    pub options: DemandOptions,
}

#[repr(C)]
#[derive(Clone, Copy)]
pub struct ULocationUpdateDemand {
    pub location_update_type: u8,
    pub request_to_append_la: u8,
    pub cipher_control: u8,
    pub ciphering_parameters: OptionalU64,
    pub class_of_ms: OptionalClassOfMs,
    pub energy_saving_mode: OptionalU8,
    pub la_information: OptionalU64,
    pub ssi: OptionalU64,
    pub address_extension: OptionalU64,
    pub group_identity_location_demand: OptionalLocationDemand,
    pub group_report_response: OptionalType3,
    pub authentication_uplink: OptionalType3,
    pub extended_capabilities: OptionalType3,
    pub proprietary: OptionalType3,
}

// The type 2 elements; the record holds half of the LA field.
fn options_of(
    class_of_ms: Option<ClassOfMs>,
    energy_saving_mode: Option<u8>,
    la: Option<u64>,
    ssi: Option<u64>,
    address_extension: Option<u64>,
) -> DemandOptions
    ensures { result ≡ demand_options_of (class_option class_of_ms, (u8_of energy_saving_mode, (u64_of (option_map halved la), (u64_of ssi, (u64_of address_extension, tt))))) }
{
    DemandOptions {
        class_of_ms: class_of_ms.into(),
        energy_saving_mode: energy_saving_mode.into(),
        la_information: la.map(|la| la / 2).into(),
        ssi: ssi.into(),
        address_extension: address_extension.into(),
    }
}

// Class of MS, energy saving mode, LA, SSI and address extension.
fn read_options(c: Cursor, octets: &[u8]) -> Read<DemandOptions>
    ensures { as_read result ≡ at (read_options demand.options (λ os. got (demand_options_of os))) octets.now c }
{
    let (class_of_ms, c1) = parse_type2_class_of_ms(c, octets)?;
    let (energy_saving_mode, c2) = parse_type2_generic(c1, octets, 3)?;
    let (la, c3) = parse_type2_generic(c2, octets, 15)?;
    let (ssi, c4) = parse_type2_generic(c3, octets, 24)?;
    let (address_extension, c5) = parse_type2_generic(c4, octets, 24)?;
    Ok((
        options_of(class_of_ms, energy_saving_mode, la, ssi, address_extension),
        c5,
    ))
}

fn no_options() -> DemandOptions
    ensures { result ≡ demand_options_of (no_options demand.options) }
{
    options_of(None, None, None, None, None)
}

// The type 2 elements behind an O-bit of 1.
fn read_options_if(c: Cursor, octets: &[u8], more: bool) -> Read<DemandOptions>
    ensures { as_read result ≡ at (options_behind demand.options demand_options_of more) octets.now c }
{
    if more {
        return read_options(c, octets);
    }
    Ok((no_options(), c))
}

// The type and the fields up to the O-bit, the O-bit and the type 2 elements.
fn read_head(c: Cursor, octets: &[u8]) -> Read<Headed<DemandHead>>
    ensures { as_read result ≡ at (read_head demand demand_options_of demand_head_of) octets.now c }
{
    let (pdu_type, c1) = c.read::<u8>(octets, 4)?;
    if pdu_type == U_LOCATION_UPDATE_DEMAND {
        let (location_update_type, c2) = c1.read::<u8>(octets, 3)?;
        let (request_to_append_la, c3) = c2.read::<u8>(octets, 1)?;
        let (cipher_control, c4) = c3.read::<u8>(octets, 1)?;
        let (ciphering, c5) = read_optional::<u64>(c4, octets, cipher_control == 1, 10)?;
        let (obit, c6) = c5.read::<u8>(octets, 1)?;
        let (options, c7) = read_options_if(c6, octets, obit == 1)?;
        return Ok((
            Headed {
                head: DemandHead {
                    location_update_type,
                    request_to_append_la,
                    cipher_control,
                    ciphering_parameters: ciphering.into(),
                    options,
                },
                obit,
            },
            c7,
        ));
    }
    Err(PduParseErr::InvalidPduType)
}

// The record, of the head, the location demand and the generic slots.
// Compiled into its callers: its list is else copied once more.
#[inline(always)]
fn record_of(
    head: DemandHead,
    location: OptionalLocationDemand,
    generics: [Generic; 8],
) -> ULocationUpdateDemand
    ensures { result ≡ demand_of head (slots_from demand.table (only K.LocationDemand location) (λ i. get_or generics i no_generic)) }
{
    ULocationUpdateDemand {
        location_update_type: head.location_update_type,
        request_to_append_la: head.request_to_append_la,
        cipher_control: head.cipher_control,
        ciphering_parameters: head.ciphering_parameters,
        class_of_ms: head.options.class_of_ms,
        energy_saving_mode: head.options.energy_saving_mode,
        la_information: head.options.la_information,
        ssi: head.options.ssi,
        address_extension: head.options.address_extension,
        group_identity_location_demand: location,
        group_report_response: generics[1].into(),
        authentication_uplink: generics[2].into(),
        extended_capabilities: generics[3].into(),
        proprietary: generics[4].into(),
    }
}

// The listed elements, in order.
static TABLE: [Row; 5] = [
    Row {
        identifier: GROUP_IDENTITY_LOCATION_DEMAND,
        kind: Kind::LocationDemand,
    },
    Row {
        identifier: GROUP_REPORT_RESPONSE,
        kind: Kind::Type3,
    },
    Row {
        identifier: AUTHENTICATION_UPLINK,
        kind: Kind::Type3,
    },
    Row {
        identifier: EXTENDED_CAPABILITIES,
        kind: Kind::Type3,
    },
    Row {
        identifier: PROPRIETARY,
        kind: Kind::Type3,
    },
];

// The listed elements, up to the closing M-bit: no slot stands before the location demand.
fn read_elements(
    c: Cursor,
    octets: &[u8],
    head: Headed<DemandHead>,
    skipping: bool,
) -> MessageRead<ULocationUpdateDemand>
    ensures { result ≡ message_answer (λ r. r.demand) (at (body identifier_of content (format_of M.Demand) skipping head true) octets.now c) }
{
    let s = skip_if(c, octets, &TABLE, skipping);
    let Ok((n, c1)) = s else {
        return unread(s.unwrap_err());
    };
    let d = read_structure_slot::<GroupIdentityLocationDemand>(
        c1,
        octets,
        GROUP_IDENTITY_LOCATION_DEMAND,
    );
    let w = d.verdict;
    let Ok(c2) = w else {
        return unread(w.unwrap_err());
    };
    let z = element_follows(c2, octets, true);
    let Ok((further, c3)) = z else {
        return unread(z.unwrap_err());
    };
    let location = d.value;
    if !further {
        return MessageRead {
            verdict: Ok((n, c3)),
            record: record_of(head.head, location, NO_GENERICS),
        };
    }
    let b = scan_part(c2, octets, &TABLE, 1, 5, true, skipping);
    let x = b.verdict;
    let Ok(c4) = x else {
        return unread(x.unwrap_err());
    };
    let back = b.value;
    let generics = back.generics;
    MessageRead {
        verdict: Ok((n + back.skipped, c4)),
        record: record_of(head.head, location, generics),
    }
}

impl OwnRecord for ULocationUpdateDemand {
    ghost own = { λ r. r.demand };

    ghost of = { alone M.Demand };

    fn none() -> ULocationUpdateDemand {
        let head = DemandHead {
            location_update_type: 0,
            request_to_append_la: 0,
            cipher_control: 0,
            ciphering_parameters: NO_NUMBER,
            options: no_options(),
        };
        let none = GroupIdentityLocationDemand::none().optional(false);
        record_of(head, none, NO_GENERICS)
    }

    fn alone(self) -> Record {
        Record {
            demand: self,
            accept: DLocationUpdateAccept::none(),
            attach_detach: DAttachDetachGroupIdentity::none(),
        }
    }
}

impl Pdu for ULocationUpdateDemand {
    ghost message = { M.Demand };

    ghost kept = { own_kept M.Demand };

    // The message: its head, and behind an O-bit of 1 its listed elements, if there are any.
    fn from_bitbuf(c: Cursor, octets: &[u8], skipping: bool) -> MessageRead<ULocationUpdateDemand> {
        let h = read_head(c, octets);
        let Ok((head, c1)) = h else {
            return unread(h.unwrap_err());
        };
        let e = element_follows(c1, octets, head.obit == 1);
        let Ok((more, c2)) = e else {
            return unread(e.unwrap_err());
        };
        if more {
            return read_elements(c2, octets, head, skipping);
        }
        let none = GroupIdentityLocationDemand::none().optional(false);
        MessageRead {
            verdict: Ok((0, c2)),
            record: record_of(head.head, none, NO_GENERICS),
        }
    }
}
