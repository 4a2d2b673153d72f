// D-LOCATION UPDATE ACCEPT (EN 300 392-2, clause 16.9.2.7), as it is written.
ghost use Rattle.bits.specs.Written.{Holds};
ghost use Rattle.messages.specs.Accept.{accept, accept_tie};
ghost use Rattle.message_writers.specs.Parts.{first_options, last_options};
ghost use Rattle.messages.specs.declared.Message.TheVariants as M;

use crate::PduWriter;
use crate::group_identity_location_accept::write_location_accept;
use crate::group_list::location_asked;
use crate::parts::{Parts, write_parts};
use crate::questions::{FieldsAsked, MessageElements, NO_ELEMENTS, OptionsAsked};
use crate::typed_pdu_fields::{ask_type3, ask_type4, write_closing_mbit, write_type3};
use bits::bitbuffer::{Cursor, Digits, Moved, NO_DIGITS, within};
use element_writers::energy_saving_information::{ask_saving, then_saving};
use element_writers::group_identity_location_accept::ask_location_accept;
use element_writers::typed_pdu_fields::{ask_type2, then_type2, width_if};
use elements::mm_pdu_type_dl::D_LOCATION_UPDATE_ACCEPT;
use elements::type34_elem_id_dl::{
    AUTHENTICATION_DOWNLINK, CELL_TYPE_CONTROL, DEFAULT_GROUP_ATTACH_LIFETIME,
    GROUP_IDENTITY_LOCATION_ACCEPT, PROPRIETARY, SECURITY_DOWNLINK,
};
use messages::d_location_update_accept::DLocationUpdateAccept;

// SSI and address extension.
fn addresses(d: &DLocationUpdateAccept) -> Digits
    ensures { Holds result (first_options 2 accept.options (accept_tie.values d.now).options) }
{
    then_type2(then_type2(NO_DIGITS, d.ssi, 24), d.address_extension, 24)
}

// Subscriber class, energy saving information and SCCH information.
fn class_saving_and_scch(d: &DLocationUpdateAccept) -> Digits
    ensures { Holds result (last_options 2 accept.options (accept_tie.values d.now).options) }
{
    let k = then_type2(NO_DIGITS, d.subscriber_class, 16);
    let s = then_saving(k, d.energy_saving_information);
    then_type2(s, d.scch_information_and_distribution_on_18th_frame, 6)
}

impl Parts for DLocationUpdateAccept {
    ghost message = { M.Accept };

    ghost values = { accept_tie.values };

    fn announces(&self) -> bool {
        let options = self.ssi.present
            | (self.address_extension.present
                | (self.subscriber_class.present
                    | (self.energy_saving_information.present
                        | self.scch_information_and_distribution_on_18th_frame.present)));
        let elements = self.new_registered_area.present
            | (self.security_downlink.present
                | (self.group_identity_location_accept.present
                    | (self.default_group_attachment_lifetime.present
                        | (self.authentication_downlink.present
                            | (self.group_identity_security_related_information.present
                                | (self.cell_type_control.present | self.proprietary.present))))));
        options | elements
    }

    fn front(&self, obit: bool) -> Digits {
        let t = NO_DIGITS.then(D_LOCATION_UPDATE_ACCEPT as u64, 4);
        let u = t.then(self.location_update_accept_type as u64, 3);
        u.then(obit as u64, 1)
    }

    fn ask_fields(&self) -> FieldsAsked {
        FieldsAsked {
            fits: within(self.location_update_accept_type as u64, 3),
            ciphered: true,
            size: 8,
        }
    }

    fn ask_options(&self) -> OptionsAsked {
        let saving = ask_saving(self.energy_saving_information);
        let scch = self.scch_information_and_distribution_on_18th_frame;
        let first = width_if(self.ssi.present, 24) + width_if(self.address_extension.present, 24);
        let second = width_if(self.subscriber_class.present, 16)
            + (width_if(self.energy_saving_information.present, 14) + width_if(scch.present, 6));
        OptionsAsked {
            fits: ask_type2(self.ssi, 24)
                & (ask_type2(self.address_extension, 24)
                    & (ask_type2(self.subscriber_class, 16) & (saving.fits & ask_type2(scch, 6)))),
            alive: saving.alive,
            saving: saving.saving,
            size: 5 + (first + second),
        }
    }

    fn ask_elements(&self) -> MessageElements {
        let location = &self.group_identity_location_accept;
        let l = ask_location_accept(location);
        let e0 = NO_ELEMENTS.and(ask_type4(self.new_registered_area));
        let e1 = e0.and(ask_type3(self.security_downlink));
        let e2 = e1.and(location_asked(location.present, l));
        let e3 = e2.and(ask_type3(self.default_group_attachment_lifetime));
        let e4 = e3.and(ask_type3(self.authentication_downlink));
        let e5 = e4.and(ask_type4(self.group_identity_security_related_information));
        let e6 = e5.and(ask_type3(self.cell_type_control));
        MessageElements {
            asked: e6.and(ask_type3(self.proprietary)),
            list: l.list,
            content: l.content,
        }
    }

    fn write_options(&self, c: Cursor, octets: &mut [u8]) -> Cursor {
        let c1 = c.put(octets, addresses(self));
        c1.put(octets, class_saving_and_scch(self))
    }

    // The type 4 elements are absent: one that is present was refused.
    fn write_elements(&self, c: Cursor, octets: &mut [u8], list: usize, content: usize) -> Cursor {
        let location = &self.group_identity_location_accept;
        let lifetime = self.default_group_attachment_lifetime;
        let id = GROUP_IDENTITY_LOCATION_ACCEPT;
        let c1 = write_type3(c, octets, SECURITY_DOWNLINK, self.security_downlink);
        let c2 = write_location_accept(c1, octets, id, location, list, content);
        let c3 = write_type3(c2, octets, DEFAULT_GROUP_ATTACH_LIFETIME, lifetime);
        let c4 = write_type3(
            c3,
            octets,
            AUTHENTICATION_DOWNLINK,
            self.authentication_downlink,
        );
        let c5 = write_type3(c4, octets, CELL_TYPE_CONTROL, self.cell_type_control);
        let c6 = write_type3(c5, octets, PROPRIETARY, self.proprietary);
        write_closing_mbit(c6, octets)
    }
}

impl PduWriter for DLocationUpdateAccept {
    fn to_bitbuf(self, c: Cursor, octets: &mut [u8]) -> Moved {
        write_parts(&self, c, octets)
    }
}
