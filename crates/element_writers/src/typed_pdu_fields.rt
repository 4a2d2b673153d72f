// Numbers that may be absent, and the typed elements of annex E, as they are written: type 2 and type 3.
ghost use Rattle.std.specs.Prelude.{◌≡◌, ℕ, Option, cond, ◌+◌, ◌≤◌};
ghost use Rattle.bits.specs.Bits.{digits};
ghost use Rattle.bits.specs.Written.{Joined, Holds};
ghost use Rattle.elements.specs.Numbers.{in_u8, in_u64, option_bits, option_all, in_width, type2_bits};
ghost use Rattle.elements.specs.Generics.{type3_fits, type4_fits};
ghost use Rattle.elements.specs.Kinds.{held_in};
ghost use Rattle.elements.specs.declared.typed_pdu_fields.Kind.TheVariants as K;
ghost use Rattle.element_writers.specs.WrittenElements.{header_bits, type3_size};

use bits::bitbuffer::{Digits, NO_DIGITS, within};
use elements::typed_pdu_fields::{OptionalType3, OptionalType4, OptionalU8, OptionalU64};

// A number that may be absent, as an option or as a record for C holds it.
pub trait Held: Copy {
    ghost held: { Self → Option ℕ };

    fn held(self) -> Option<u64>
        ensures { result ≡ held self };
}

impl Held for OptionalU8 {
    ghost held = { in_u8 };

    fn held(self) -> Option<u64> {
        self.present.then_some(self.value as u64)
    }
}

impl Held for OptionalU64 {
    ghost held = { in_u64 };

    fn held(self) -> Option<u64> {
        self.present.then_some(self.value)
    }
}

impl Held for Option<u32> {
    ghost held = { λ o. o };

    fn held(self) -> Option<u64> {
        self.map(|v| v as u64)
    }
}

impl Held for Option<u64> {
    ghost held = { λ o. o };

    fn held(self) -> Option<u64> {
        self
    }
}

// The width of what may be absent: its presence tells it, and an option would be made for it alone.
pub fn width_if(present: bool, width: usize) -> usize
    ensures { (result ≡ cond present width 0) × (result ≤ width) }
{
    if present { width } else { 0 }
}

// A number that may be absent, behind others.
pub fn then_if<H: Held>(d: Digits, o: H, width: usize) -> Digits
    ensures { Joined d (option_bits (digits width) (H.held o)) result }
{
    let v = o.held();
    d.then(v.unwrap_or(0), width_if(v.is_some(), width))
}

// A type 2 element, behind other bits: the P-bit, and the value if it is present.
pub fn then_type2<H: Held>(d: Digits, o: H, width: usize) -> Digits
    ensures { Joined d (type2_bits (digits width) (H.held o)) result }
{
    let v = o.held();
    then_if(d.then(v.is_some() as u64, 1), v, width)
}

// Question 8 of a number that may be absent: if it is present, it is in its width.
pub fn ask_type2<H: Held>(o: H, width: usize) -> bool
    ensures { result ≡ option_all (in_width width) (H.held o) }
{
    o.held().is_none_or(|v| within(v, width))
}

// What stands before the content of a type 3 or type 4 element: M-bit 1, identifier, length.
pub fn element_header(identifier: u8, size: usize) -> Digits
    ensures { Holds result (header_bits identifier size) }
{
    NO_DIGITS
        .then(1, 1)
        .then(identifier as u64, 4)
        .then(size as u64, 11)
}

// Question 8 of a generic element that may be absent: at most 64 bits, data within them, at most 63 entries.
#[tactic(auto, unfolding(elements::specs::Generics::type3_fits))]
pub fn type3_fits(o: OptionalType3) -> bool
    ensures { result ≡ option_all type3_fits (held_in K.Type3 o) }
{
    let g = o.value;
    if o.present {
        return (g.len <= 64) & within(g.data, g.len);
    }
    true
}

#[tactic(auto, unfolding(elements::specs::Generics::type4_fits))]
pub fn type4_fits(o: OptionalType4) -> bool
    ensures { result ≡ option_all type4_fits (held_in K.Type4 o) }
{
    let g = o.value;
    if o.present {
        return (g.len <= 64) & (within(g.data, g.len) & within(g.elems as u64, 6));
    }
    true
}

// How many bits a type 3 element that may be absent has; none where it is longer than 64 bits, which is not written.
#[tactic(auto, unfolding(crate::specs::WrittenElements::type3_size))]
pub fn type3_size(o: OptionalType3) -> usize
    ensures { (result ≡ type3_size o) × (result ≤ 80) }
{
    let g = o.value;
    if o.present {
        if g.len <= 64 {
            return 16 + g.len;
        }
    }
    0
}

// The bits from the O-bit of a structure on, `size` being the length of its list's content.
pub(crate) fn nested_size(listed: bool, size: usize) -> usize
    requires { size ≤ 5172 }
    ensures { (result ≡ cond listed (18 + size) 1) × (result ≤ 5190) }
{
    if listed { 18 + size } else { 1 }
}
