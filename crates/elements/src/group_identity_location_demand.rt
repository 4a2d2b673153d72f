// Group identity location demand (EN 300 392-2, clause 16.10.24).
ghost use Rattle.elements.specs.GroupAnswers.{location_demands};
ghost use Rattle.elements.specs.TraitLaws.{demands-shaped};

use crate::group_identity_uplink::OptionalUplinks;
use crate::group_list::{no_list, read_nested};
use crate::structure::{ReadStructure, Structure, refused};
use crate::type34_elem_id_ul::GROUP_IDENTITY_UPLINK;
use crate::typed_pdu_fields::Judged;
use bits::bitbuffer::Cursor;
use bits::pdu_parse_error::PduParseErr;

#[repr(C)]
#[derive(Clone, Copy)]
pub struct GroupIdentityLocationDemand {
    pub group_identity_attach_detach_mode: u8,
    pub group_identity_uplink: OptionalUplinks,
}

#[repr(C)]
#[derive(Clone, Copy)]
pub struct OptionalLocationDemand {
    pub present: bool,
    pub value: GroupIdentityLocationDemand,
}

impl Structure for GroupIdentityLocationDemand {
    type Optional = OptionalLocationDemand;

    ghost kind = { location_demands };

    fn none() -> GroupIdentityLocationDemand {
        GroupIdentityLocationDemand {
            group_identity_attach_detach_mode: 0,
            group_identity_uplink: no_list(),
        }
    }

    fn optional(self, present: bool) -> OptionalLocationDemand {
        OptionalLocationDemand {
            present,
            value: self,
        }
    }
}

impl ReadStructure for GroupIdentityLocationDemand {
    ghost shaped = { demands-shaped };

    // The content of `len` bits: two bits, the O-bit, and behind an O-bit of 1 the list's slot and the closing M-bit. It has to
    // end where its length said.
    fn from_bitbuf(c: Cursor, octets: &[u8], len: usize) -> Judged<GroupIdentityLocationDemand> {
        let f = c.read::<u8>(octets, 1);
        let Ok((reserved, c1)) = f else {
            return refused(f.unwrap_err());
        };
        if 0 < reserved {
            return refused(PduParseErr::InvalidValue);
        }
        let m = c1.read::<u8>(octets, 1);
        let Ok((mode, c2)) = m else {
            return refused(m.unwrap_err());
        };
        let mut value = GroupIdentityLocationDemand {
            group_identity_attach_detach_mode: mode,
            group_identity_uplink: no_list(),
        };
        let v = read_nested(
            c2,
            octets,
            GROUP_IDENTITY_UPLINK,
            &mut value.group_identity_uplink,
        );
        let Ok(c3) = v else {
            return refused(v.unwrap_err());
        };
        if c3.at - c.at == len {
            return Judged {
                verdict: Ok(c3),
                value,
            };
        }
        refused(PduParseErr::InconsistentLength)
    }
}
