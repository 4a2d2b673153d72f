// The elements of the three messages.
#![tactic(auto)]

pub mod class_of_ms;
pub mod energy_saving_information;
pub mod energy_saving_mode;
pub mod group_address;
pub mod group_identity_attachment;
pub mod group_identity_downlink;
pub mod group_identity_location_accept;
pub mod group_identity_location_demand;
pub mod group_identity_uplink;
pub mod group_list;
pub mod location_update_type;
pub mod mm_pdu_type_dl;
pub mod mm_pdu_type_ul;
pub mod structure;
pub mod type34_elem_id_dl;
pub mod type34_elem_id_ul;
pub mod typed_pdu_fields;
