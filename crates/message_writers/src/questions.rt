// The questions of a writing call (document 01, 'A writing call'), each over the whole record.
ghost use Rattle.std.specs.Prelude.{◌≡◌, ◌+◌, ◌≤◌};
ghost use Rattle.std.specs.Result.{result_err};
ghost use Rattle.bits.specs.Placed.{left};
ghost use Rattle.messages.specs.Questions.{tests, first_no};
ghost use Rattle.message_writers.specs.Writes.{as_asked};
ghost use Rattle.message_writers.specs.Parts.{asked_both};

use bits::bitbuffer::Cursor;
use bits::pdu_parse_error::PduParseErr;
use messages::Verdict;

// The answers to questions 8 to 15, and how many bits the message has.
#[derive(Clone, Copy)]
pub struct Answers {
    pub fits: bool,
    pub ciphered: bool,
    pub attached: bool,
    pub formed: bool,
    pub alive: bool,
    pub saving: bool,
    pub type3_only: bool,
    pub short: bool,
    pub size: usize,
}

impl Answers {
    // The first question that is answered with no, if there is one; the last is whether the message's bits are left at the cursor, in
    // `len` octets.
    pub(crate) fn first_no(self, c: Cursor, len: usize) -> Verdict
        ensures { result_err result ≡ first_no (tests (as_asked self) self.size (left len c)) }
    {
        if !self.fits {
            return Err(PduParseErr::ValueTooLarge);
        }
        if !self.ciphered {
            return Err(PduParseErr::CipheringMismatch);
        }
        if !self.attached {
            return Err(PduParseErr::NotOneAttachment);
        }
        if !self.formed {
            return Err(PduParseErr::AddressFormUnlisted);
        }
        if !self.alive {
            return Err(PduParseErr::StayAliveWithFrame);
        }
        if !self.saving {
            return Err(PduParseErr::FrameMissing);
        }
        if !self.type3_only {
            return Err(PduParseErr::Type4NotWritten);
        }
        if !self.short {
            return Err(PduParseErr::LengthTooLarge);
        }
        if !c.holds(len, self.size) {
            return Err(PduParseErr::WindowTooShort);
        }
        Ok(())
    }
}

// What questions 8 and 9 find of the fields up to the O-bit, and the bits up to it, the O-bit included.
#[derive(Clone, Copy)]
pub struct FieldsAsked {
    pub fits: bool,
    pub ciphered: bool,
    pub size: usize,
}

// What questions 8, 12 and 13 find of the type 2 elements, and the bits that they have.
#[derive(Clone, Copy)]
pub struct OptionsAsked {
    pub fits: bool,
    pub alive: bool,
    pub saving: bool,
    pub size: usize,
}

// What questions 8, 10, 11, 14 and 15 find of listed elements, and the bits that they have.
#[derive(Clone, Copy)]
pub struct ElementsAsked {
    pub fits: bool,
    pub one: bool,
    pub listed: bool,
    pub type3_only: bool,
    pub short: bool,
    pub size: usize,
}

// The same of no elements, and of one that is absent.
pub(crate) const NO_ELEMENTS: ElementsAsked = ElementsAsked {
    fits: true,
    one: true,
    listed: true,
    type3_only: true,
    short: true,
    size: 0,
};

impl ElementsAsked {
    // The same of these elements, and behind them others.
    pub(crate) fn and(self, others: ElementsAsked) -> ElementsAsked
        requires { self.size + others.size ≤ 8192 }
        ensures { (result ≡ asked_both self others) × (result.size ≡ self.size + others.size) }
    {
        ElementsAsked {
            fits: self.fits & others.fits,
            one: self.one & others.one,
            listed: self.listed & others.listed,
            type3_only: self.type3_only & others.type3_only,
            short: self.short & others.short,
            size: self.size + others.size,
        }
    }
}

// The same of a message's listed elements, and the lengths that were asked of the one with groups: of its list's content, and of its own.
#[derive(Clone, Copy)]
pub struct MessageElements {
    pub asked: ElementsAsked,
    pub list: usize,
    pub content: usize,
}
