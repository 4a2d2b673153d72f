ghost use Rattle.std.specs.Prelude.{◌≡◌};
ghost use Rattle.bits.specs.PduParseError.{number_of};

// The refusals, with the numbers that document 01 gives them (the Rust: the enum PduParseErr).
#[derive(Clone, Copy, PartialEq, Eq)]
pub enum PduParseErr {
    // The message or the reading is unknown, there are too many octets, or the window is not inside them.
    BadCall = 1,
    // A field, identifier or passed content does not end inside the window.
    BufferEnded = 2,
    // The 4-bit type is not the message's own.
    InvalidPduType = 3,
    // The reserved bit of the location demand is not 0.
    InvalidValue = 4,
    // A type 4 length is below the 6 bits of its number of entries.
    Type4Underflow = 5,
    // A structure or a list does not end where its length said.
    InconsistentLength = 6,
    // The closing M-bit is not 0.
    InvalidTrailingMbitValue = 7,
    // A number to be written is not in its width, or a generic length or a count is too large.
    ValueTooLarge = 8,
    // Ciphering parameters without cipher control, or the other way round.
    CipheringMismatch = 9,
    // A group has both attachment and detachment, or neither.
    NotOneAttachment = 10,
    // A group's address has a form that no address type has.
    AddressFormUnlisted = 11,
    // StayAlive with a frame or a multiframe.
    StayAliveWithFrame = 12,
    // Another saving mode without its frame or multiframe.
    FrameMissing = 13,
    // A generic type 4 element, which is not written.
    Type4NotWritten = 14,
    // The length of a structure or of a group list does not fit its 11 bits.
    LengthTooLarge = 15,
    // What is to be written does not fit the window.
    WindowTooShort = 16,
}

impl PduParseErr {
    pub fn number(self) -> u8
        ensures { result ≡ number_of self }
    {
        self as u8
    }
}
