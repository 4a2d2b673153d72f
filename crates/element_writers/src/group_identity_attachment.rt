// Group identity attachment (EN 300 392-2, clause 16.10.19).
ghost use Rattle.std.specs.Prelude.{◌≡◌};
ghost use Rattle.elements.specs.Groups.{attachment_bits, attachment_fits};
ghost use Rattle.elements.specs.Numbers.{option_bits, option_all};
ghost use Rattle.bits.specs.Written.{Joined};

use bits::bitbuffer::Digits;
use elements::group_identity_attachment::GroupIdentityAttachment;

// An attachment that may be absent, behind other bits.
pub(crate) fn then_attachment(d: Digits, o: Option<GroupIdentityAttachment>) -> Digits
    ensures { Joined d (option_bits attachment_bits o) result }
{
    match o {
        Some(t) => d
            .then(t.group_identity_attachment_lifetime as u64, 2)
            .then(t.class_of_usage as u64, 3),
        None => d.then(0, 0),
    }
}

// Whether its numbers, if it is present, are in their widths.
#[tactic(auto, unfolding(elements::specs::Groups::attachment_fits))]
pub(crate) fn attachment_fits(o: Option<GroupIdentityAttachment>) -> bool
    ensures { result ≡ option_all attachment_fits o }
{
    match o {
        Some(t) => (t.group_identity_attachment_lifetime < 4) & (t.class_of_usage < 8),
        None => true,
    }
}
