// Group identity attachment (EN 300 392-2, clause 16.10.19).
ghost use Rattle.std.specs.Prelude.{◌≡◌, Some, None};
ghost use Rattle.bits.specs.Reader.{optional};
ghost use Rattle.bits.specs.Placed.{at, as_read};
ghost use Rattle.elements.specs.Groups.{attachment_info};

use bits::bitbuffer::{Cursor, Read};

#[repr(C)]
#[derive(Clone, Copy)]
pub struct GroupIdentityAttachment {
    pub group_identity_attachment_lifetime: u8,
    pub class_of_usage: u8,
}

pub const NO_ATTACHMENT: GroupIdentityAttachment = GroupIdentityAttachment {
    group_identity_attachment_lifetime: 0,
    class_of_usage: 0,
};

// Lifetime (2 bits) and class of usage (3 bits), if they are there, read as one field, which is faster (DECISIONS 30).
pub fn read_optional_attachment(
    c: Cursor,
    octets: &[u8],
    wanted: bool,
) -> Read<Option<GroupIdentityAttachment>>
    ensures { as_read result ≡ at (optional Some None wanted attachment_info) octets.now c }
{
    if wanted {
        let (v, c1) = c.read::<u8>(octets, 5)?;
        return Ok((
            Some(GroupIdentityAttachment {
                group_identity_attachment_lifetime: v / 8 % 4,
                class_of_usage: v % 8,
            }),
            c1,
        ));
    }
    Ok((None, c))
}
