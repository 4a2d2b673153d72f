// U-LOCATION UPDATE DEMAND (EN 300 392-2, clause 16.9.3.4), as it is written.
ghost use Rattle.bits.specs.Written.{Holds};
ghost use Rattle.messages.specs.Demand.{demand, demand_tie};
ghost use Rattle.message_writers.specs.Parts.{first_options, last_options};
ghost use Rattle.messages.specs.declared.Message.TheVariants as M;

use crate::PduWriter;
use crate::group_identity_location_demand::write_location_demand;
use crate::group_list::location_asked;
use crate::parts::{Parts, write_parts};
use crate::questions::{FieldsAsked, MessageElements, NO_ELEMENTS, OptionsAsked};
use crate::typed_pdu_fields::{ask_type3, write_closing_mbit, write_type3};
use bits::bitbuffer::{Cursor, Digits, Moved, NO_DIGITS, within};
use element_writers::class_of_ms::{class_fits, type2_class};
use element_writers::group_identity_location_demand::ask_location_demand;
use element_writers::typed_pdu_fields::{ask_type2, then_if, then_type2, width_if};
use elements::mm_pdu_type_ul::U_LOCATION_UPDATE_DEMAND;
use elements::type34_elem_id_ul::{
    AUTHENTICATION_UPLINK, EXTENDED_CAPABILITIES, GROUP_IDENTITY_LOCATION_DEMAND,
    GROUP_REPORT_RESPONSE, PROPRIETARY,
};
use messages::u_location_update_demand::ULocationUpdateDemand;

// Class of MS, energy saving mode and LA; the LA's field is twice the LA.
fn class_mode_and_la(d: &ULocationUpdateDemand) -> Digits
    ensures { Holds result (first_options 3 demand.options (demand_tie.values d.now).options) }
{
    let k = type2_class(d.class_of_ms);
    let m = then_type2(k, d.energy_saving_mode, 3);
    let l = then_type2(m, d.la_information, 14);
    then_if(l, d.la_information.present.then_some(0u64), 1)
}

// SSI and address extension.
fn addresses(d: &ULocationUpdateDemand) -> Digits
    ensures { Holds result (last_options 3 demand.options (demand_tie.values d.now).options) }
{
    then_type2(then_type2(NO_DIGITS, d.ssi, 24), d.address_extension, 24)
}

impl Parts for ULocationUpdateDemand {
    ghost message = { M.Demand };

    ghost values = { demand_tie.values };

    fn announces(&self) -> bool {
        let options = self.class_of_ms.present
            | (self.energy_saving_mode.present
                | (self.la_information.present
                    | (self.ssi.present | self.address_extension.present)));
        let elements = self.group_identity_location_demand.present
            | (self.group_report_response.present
                | (self.authentication_uplink.present
                    | (self.extended_capabilities.present | self.proprietary.present)));
        options | elements
    }

    fn front(&self, obit: bool) -> Digits {
        let t = NO_DIGITS.then(U_LOCATION_UPDATE_DEMAND as u64, 4);
        let u = t.then(self.location_update_type as u64, 3);
        let a = u.then(self.request_to_append_la as u64, 1);
        let c = a.then(self.cipher_control as u64, 1);
        let p = then_if(c, self.ciphering_parameters, 10);
        p.then(obit as u64, 1)
    }

    fn ask_fields(&self) -> FieldsAsked {
        FieldsAsked {
            fits: within(self.location_update_type as u64, 3)
                & (within(self.request_to_append_la as u64, 1)
                    & (within(self.cipher_control as u64, 1)
                        & ask_type2(self.ciphering_parameters, 10))),
            ciphered: self.ciphering_parameters.present == (self.cipher_control == 1),
            size: 10 + width_if(self.ciphering_parameters.present, 10),
        }
    }

    fn ask_options(&self) -> OptionsAsked {
        let first = width_if(self.class_of_ms.present, 24)
            + (width_if(self.energy_saving_mode.present, 3)
                + width_if(self.la_information.present, 15));
        let second = width_if(self.ssi.present, 24) + width_if(self.address_extension.present, 24);
        OptionsAsked {
            fits: class_fits(self.class_of_ms)
                & (ask_type2(self.energy_saving_mode, 3)
                    & (ask_type2(self.la_information, 14)
                        & (ask_type2(self.ssi, 24) & ask_type2(self.address_extension, 24)))),
            alive: true,
            saving: true,
            size: 5 + (first + second),
        }
    }

    fn ask_elements(&self) -> MessageElements {
        let location = &self.group_identity_location_demand;
        let l = ask_location_demand(location);
        let e0 = NO_ELEMENTS.and(location_asked(location.present, l));
        let e1 = e0.and(ask_type3(self.group_report_response));
        let e2 = e1.and(ask_type3(self.authentication_uplink));
        let e3 = e2.and(ask_type3(self.extended_capabilities));
        MessageElements {
            asked: e3.and(ask_type3(self.proprietary)),
            list: l.list,
            content: l.content,
        }
    }

    fn write_options(&self, c: Cursor, octets: &mut [u8]) -> Cursor {
        let c1 = c.put(octets, class_mode_and_la(self));
        c1.put(octets, addresses(self))
    }

    fn write_elements(&self, c: Cursor, octets: &mut [u8], list: usize, content: usize) -> Cursor {
        let location = &self.group_identity_location_demand;
        let id = GROUP_IDENTITY_LOCATION_DEMAND;
        let c1 = write_location_demand(c, octets, id, location, list, content);
        let c2 = write_type3(
            c1,
            octets,
            GROUP_REPORT_RESPONSE,
            self.group_report_response,
        );
        let c3 = write_type3(
            c2,
            octets,
            AUTHENTICATION_UPLINK,
            self.authentication_uplink,
        );
        let c4 = write_type3(
            c3,
            octets,
            EXTENDED_CAPABILITIES,
            self.extended_capabilities,
        );
        let c5 = write_type3(c4, octets, PROPRIETARY, self.proprietary);
        write_closing_mbit(c5, octets)
    }
}

impl PduWriter for ULocationUpdateDemand {
    fn to_bitbuf(self, c: Cursor, octets: &mut [u8]) -> Moved {
        write_parts(&self, c, octets)
    }
}
