// D-ATTACH/DETACH GROUP IDENTITY (EN 300 392-2, clause 16.9.2.1).
ghost use Rattle.std.specs.Prelude.{◌≡◌};
ghost use Rattle.bits.specs.Placed.{at, as_read};
ghost use Rattle.elements.specs.declared.typed_pdu_fields.Kind.TheVariants as K;
ghost use Rattle.messages.specs.Description.{read_head};
ghost use Rattle.messages.specs.AttachDetach.{attach_detach, attach_detach_head_of, attach_detach_of};
ghost use Rattle.messages.specs.Calls.{alone};
ghost use Rattle.messages.specs.MessageAnswers.{only, slots_from, generics_in, own_kept};
ghost use Rattle.messages.specs.declared.Message.TheVariants as M;

use crate::d_location_update_accept::DLocationUpdateAccept;
use crate::u_location_update_demand::ULocationUpdateDemand;
use crate::{Headed, MessageRead, OwnRecord, Pdu, Record, unread};
use bits::bitbuffer::{Cursor, Read};
use bits::pdu_parse_error::PduParseErr;
use elements::group_identity_downlink::OptionalDownlinks;
use elements::group_list::{no_list, read_list_slot};
use elements::mm_pdu_type_dl::D_ATTACH_DETACH_GROUP_IDENTITY;
use elements::type34_elem_id_dl::{
    GROUP_IDENTITY_DOWNLINK, GROUP_IDENTITY_SECURITY_RELATED_INFORMATION, GROUP_REPORT_RESPONSE,
    PROPRIETARY,
};
use elements::typed_pdu_fields::{
    Generic, Kind, NO_GENERICS, OptionalType3, OptionalType4, Row, element_follows, scan_part,
};

// What stands before the listed elements, but for the O-bit: the fields.
#[derive(Clone, Copy)]
pub struct AttachDetachHead {
    pub group_identity_report: u8,
    pub group_identity_acknowledgement_request: u8,
    pub group_identity_attach_detach_mode: u8,
}

#[repr(C)]
#[derive(Clone, Copy)]
pub struct DAttachDetachGroupIdentity {
    pub group_identity_report: u8,
    pub group_identity_acknowledgement_request: u8,
    pub group_identity_attach_detach_mode: u8,
    pub proprietary: OptionalType3,
    pub group_report_response: OptionalType3,
    pub group_identity_downlink: OptionalDownlinks,
    pub group_identity_security_related_information: OptionalType4,
}

// The type, and the four bits behind it as one field, which is faster (DECISIONS 30): those up to the O-bit, and the O-bit.
fn read_head(c: Cursor, octets: &[u8]) -> Read<Headed<AttachDetachHead>>
    ensures { as_read result ≡ at (read_head attach_detach (λ t. t) attach_detach_head_of) octets.now c }
{
    let (pdu_type, c1) = c.read::<u8>(octets, 4)?;
    if pdu_type == D_ATTACH_DETACH_GROUP_IDENTITY {
        let (v, c2) = c1.read::<u8>(octets, 4)?;
        return Ok((
            Headed {
                head: AttachDetachHead {
                    group_identity_report: v / 8 % 2,
                    group_identity_acknowledgement_request: v / 4 % 2,
                    group_identity_attach_detach_mode: v / 2 % 2,
                },
                obit: v % 2,
            },
            c2,
        ));
    }
    Err(PduParseErr::InvalidPduType)
}

// The record, of the head, the list, and the generic slots before it and behind it.
// Compiled into its callers: its list is else copied once more.
#[inline(always)]
fn record_of(
    head: AttachDetachHead,
    list: OptionalDownlinks,
    before: [Generic; 8],
    behind: [Generic; 8],
) -> DAttachDetachGroupIdentity
    ensures { result ≡ attach_detach_of head (slots_from attach_detach.table (only K.Downlinks list) (generics_in 2 before behind)) }
{
    DAttachDetachGroupIdentity {
        group_identity_report: head.group_identity_report,
        group_identity_acknowledgement_request: head.group_identity_acknowledgement_request,
        group_identity_attach_detach_mode: head.group_identity_attach_detach_mode,
        proprietary: before[0].into(),
        group_report_response: before[1].into(),
        group_identity_downlink: list,
        group_identity_security_related_information: behind[3].into(),
    }
}

// The listed elements, in order.
static TABLE: [Row; 4] = [
    Row {
        identifier: PROPRIETARY,
        kind: Kind::Type3,
    },
    Row {
        identifier: GROUP_REPORT_RESPONSE,
        kind: Kind::Type3,
    },
    Row {
        identifier: GROUP_IDENTITY_DOWNLINK,
        kind: Kind::Downlinks,
    },
    Row {
        identifier: GROUP_IDENTITY_SECURITY_RELATED_INFORMATION,
        kind: Kind::Type4,
    },
];

impl OwnRecord for DAttachDetachGroupIdentity {
    ghost own = { λ r. r.attach_detach };

    ghost of = { alone M.AttachDetach };

    fn none() -> DAttachDetachGroupIdentity {
        let head = AttachDetachHead {
            group_identity_report: 0,
            group_identity_acknowledgement_request: 0,
            group_identity_attach_detach_mode: 0,
        };
        record_of(head, no_list(), NO_GENERICS, NO_GENERICS)
    }

    fn alone(self) -> Record {
        Record {
            demand: ULocationUpdateDemand::none(),
            accept: DLocationUpdateAccept::none(),
            attach_detach: self,
        }
    }
}

impl Pdu for DAttachDetachGroupIdentity {
    ghost message = { M.AttachDetach };

    ghost kept = { own_kept M.AttachDetach };

    // The message: its head, and behind an O-bit of 1 its listed elements, if there are any.
    fn from_bitbuf(
        c: Cursor,
        octets: &[u8],
        skipping: bool,
    ) -> MessageRead<DAttachDetachGroupIdentity> {
        let h = read_head(c, octets);
        let Ok((head, c1)) = h else {
            return unread(h.unwrap_err());
        };
        let e = element_follows(c1, octets, head.obit == 1);
        let Ok((more, c2)) = e else {
            return unread(e.unwrap_err());
        };
        if !more {
            return MessageRead {
                verdict: Ok((0, c2)),
                record: record_of(head.head, no_list(), NO_GENERICS, NO_GENERICS),
            };
        }
        let a = scan_part(c2, octets, &TABLE, 0, 2, false, skipping);
        let v = a.verdict;
        let Ok(c3) = v else {
            return unread(v.unwrap_err());
        };
        let d = read_list_slot(c3, octets, true, GROUP_IDENTITY_DOWNLINK);
        let w = d.verdict;
        let Ok(c4) = w else {
            return unread(w.unwrap_err());
        };
        let z = element_follows(c4, octets, true);
        let Ok((further, c5)) = z else {
            return unread(z.unwrap_err());
        };
        let front = a.value;
        let before = front.generics;
        let list = d.value;
        if !further {
            return MessageRead {
                verdict: Ok((front.skipped, c5)),
                record: record_of(head.head, list, before, NO_GENERICS),
            };
        }
        let b = scan_part(c4, octets, &TABLE, 3, 4, true, skipping);
        let x = b.verdict;
        let Ok(c6) = x else {
            return unread(x.unwrap_err());
        };
        let back = b.value;
        let behind = back.generics;
        MessageRead {
            verdict: Ok((front.skipped + back.skipped, c6)),
            record: record_of(head.head, list, before, behind),
        }
    }
}
