// Group identity location accept (EN 300 392-2, clause 16.10.23).
ghost use Rattle.elements.specs.GroupAnswers.{location_accepts};
ghost use Rattle.elements.specs.TraitLaws.{accepts-shaped};

use crate::group_identity_downlink::OptionalDownlinks;
use crate::group_list::{no_list, read_nested};
use crate::structure::{ReadStructure, Structure, refused};
use crate::type34_elem_id_dl::GROUP_IDENTITY_DOWNLINK;
use crate::typed_pdu_fields::Judged;
use bits::bitbuffer::Cursor;
use bits::pdu_parse_error::PduParseErr;

#[repr(C)]
#[derive(Clone, Copy)]
pub struct GroupIdentityLocationAccept {
    pub group_identity_accept_reject: u8,
    pub group_identity_downlink: OptionalDownlinks,
}

#[repr(C)]
#[derive(Clone, Copy)]
pub struct OptionalLocationAccept {
    pub present: bool,
    pub value: GroupIdentityLocationAccept,
}

impl Structure for GroupIdentityLocationAccept {
    type Optional = OptionalLocationAccept;

    ghost kind = { location_accepts };

    fn none() -> GroupIdentityLocationAccept {
        GroupIdentityLocationAccept {
            group_identity_accept_reject: 0,
            group_identity_downlink: no_list(),
        }
    }

    fn optional(self, present: bool) -> OptionalLocationAccept {
        OptionalLocationAccept {
            present,
            value: self,
        }
    }
}

impl ReadStructure for GroupIdentityLocationAccept {
    ghost shaped = { accepts-shaped };

    // The content of `len` bits: two bits, the O-bit, and behind an O-bit of 1 the list's slot and the closing M-bit. It has to
    // end where its length said.
    fn from_bitbuf(c: Cursor, octets: &[u8], len: usize) -> Judged<GroupIdentityLocationAccept> {
        let f = c.read::<u8>(octets, 1);
        let Ok((accept_reject, c1)) = f else {
            return refused(f.unwrap_err());
        };
        let p = c1.pass(octets, 1);
        let Ok(c2) = p else {
            return refused(p.unwrap_err());
        };
        let mut value = GroupIdentityLocationAccept {
            group_identity_accept_reject: accept_reject,
            group_identity_downlink: no_list(),
        };
        let v = read_nested(
            c2,
            octets,
            GROUP_IDENTITY_DOWNLINK,
            &mut value.group_identity_downlink,
        );
        let Ok(c3) = v else {
            return refused(v.unwrap_err());
        };
        if c3.at - c.at == len {
            return Judged {
                verdict: Ok(c3),
                value,
            };
        }
        refused(PduParseErr::InconsistentLength)
    }
}
