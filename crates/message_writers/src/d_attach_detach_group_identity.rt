// D-ATTACH/DETACH GROUP IDENTITY (EN 300 392-2, clause 16.9.2.1), as it is written.
ghost use Rattle.messages.specs.AttachDetach.{attach_detach_tie};
ghost use Rattle.messages.specs.declared.Message.TheVariants as M;

use crate::PduWriter;
use crate::group_identity_downlink::write_downlinks;
use crate::group_list::list_asked;
use crate::parts::{Parts, write_parts};
use crate::questions::{FieldsAsked, MessageElements, NO_ELEMENTS, OptionsAsked};
use crate::typed_pdu_fields::{ask_type3, ask_type4, write_closing_mbit, write_type3};
use bits::bitbuffer::{Cursor, Digits, Moved, NO_DIGITS, within};
use element_writers::group_list::ask_list;
use elements::mm_pdu_type_dl::D_ATTACH_DETACH_GROUP_IDENTITY;
use elements::type34_elem_id_dl::{GROUP_IDENTITY_DOWNLINK, GROUP_REPORT_RESPONSE, PROPRIETARY};
use messages::d_attach_detach_group_identity::DAttachDetachGroupIdentity;

impl Parts for DAttachDetachGroupIdentity {
    ghost message = { M.AttachDetach };

    ghost values = { attach_detach_tie.values };

    fn announces(&self) -> bool {
        self.proprietary.present
            | (self.group_report_response.present
                | (self.group_identity_downlink.present
                    | self.group_identity_security_related_information.present))
    }

    fn front(&self, obit: bool) -> Digits {
        let t = NO_DIGITS.then(D_ATTACH_DETACH_GROUP_IDENTITY as u64, 4);
        let r = t.then(self.group_identity_report as u64, 1);
        let a = r.then(self.group_identity_acknowledgement_request as u64, 1);
        let m = a.then(self.group_identity_attach_detach_mode as u64, 1);
        m.then(obit as u64, 1)
    }

    fn ask_fields(&self) -> FieldsAsked {
        FieldsAsked {
            fits: within(self.group_identity_report as u64, 1)
                & (within(self.group_identity_acknowledgement_request as u64, 1)
                    & within(self.group_identity_attach_detach_mode as u64, 1)),
            ciphered: true,
            size: 8,
        }
    }

    // It has no type 2 elements.
    fn ask_options(&self) -> OptionsAsked {
        OptionsAsked {
            fits: true,
            alive: true,
            saving: true,
            size: 0,
        }
    }

    fn ask_elements(&self) -> MessageElements {
        let list = &self.group_identity_downlink;
        let l = ask_list(list);
        let e0 = NO_ELEMENTS.and(ask_type3(self.proprietary));
        let e1 = e0.and(ask_type3(self.group_report_response));
        let e2 = e1.and(list_asked(list.present, l));
        let security = self.group_identity_security_related_information;
        MessageElements {
            asked: e2.and(ask_type4(security)),
            list: l.size,
            content: l.size,
        }
    }

    fn write_options(&self, c: Cursor, _octets: &mut [u8]) -> Cursor {
        c
    }

    // The type 4 element is absent: one that is present was refused.
    fn write_elements(&self, c: Cursor, octets: &mut [u8], list: usize, _content: usize) -> Cursor {
        let groups = &self.group_identity_downlink;
        let c1 = write_type3(c, octets, PROPRIETARY, self.proprietary);
        let c2 = write_type3(
            c1,
            octets,
            GROUP_REPORT_RESPONSE,
            self.group_report_response,
        );
        let c3 = write_downlinks(c2, octets, GROUP_IDENTITY_DOWNLINK, groups, list);
        write_closing_mbit(c3, octets)
    }
}

impl PduWriter for DAttachDetachGroupIdentity {
    fn to_bitbuf(self, c: Cursor, octets: &mut [u8]) -> Moved {
        write_parts(&self, c, octets)
    }
}
