// The elements of the three messages as they are written: the questions asked of them, and their bits.
#![tactic(auto)]

pub mod class_of_ms;
pub mod energy_saving_information;
pub mod group_address;
pub mod group_identity_attachment;
pub mod group_identity_downlink;
pub mod group_identity_location_accept;
pub mod group_identity_location_demand;
pub mod group_identity_uplink;
pub mod group_list;
pub mod typed_pdu_fields;
