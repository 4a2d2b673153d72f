// Messages put together field by field, in the standard's layout.
use bits::bitbuffer::{Cursor, NO_DIGITS};
use messages::{ACCEPT, ATTACH_DETACH, DEMAND};

// A message's type number, its octets, and the place behind what is put together so far.
#[derive(Clone, Copy)]
pub(crate) struct Draft<const N: usize> {
    pub(crate) message: u64,
    pub(crate) octets: [u8; N],
    place: Cursor,
}

// In most trials 512 octets, 4,096 bits.
pub(crate) type Message = Draft<512>;

impl<const N: usize> Draft<N> {
    // Nothing so far, from bit `first` on.
    pub(crate) fn new(message: u64, first: usize) -> Draft<N> {
        Draft {
            message,
            octets: [0; N],
            place: Cursor {
                at: first,
                end: usize::MAX,
            },
        }
    }

    // The same in octets whose first 64 bits are not zeros.
    pub(crate) fn over(front: u64, message: u64, first: usize) -> Draft<N> {
        let mut m = Draft::new(message, 0);
        m.put(front, 64);
        m.place.at = first;
        m
    }

    // The bit behind what is put together.
    pub(crate) fn end(&self) -> usize {
        self.place.at
    }

    // The same message, to be read up to one bit less.
    pub(crate) fn short(mut self) -> Draft<N> {
        self.place.at = self.place.at.saturating_sub(1);
        self
    }

    // A field. One that does not fit is left out, and the trial's line then shows it.
    pub(crate) fn put(&mut self, value: u64, width: usize) {
        self.place = self
            .place
            .put(&mut self.octets, NO_DIGITS.then(value, width));
    }

    // Fields: the value and the width of each.
    pub(crate) fn fields(&mut self, fields: &[(u64, usize)]) {
        for &(value, width) in fields {
            self.put(value, width);
        }
    }

    // What opens a type 3 or type 4 element: 1 + 4 + 11 = 16 bits.
    pub(crate) fn element(&mut self, identifier: u64, length: u64) {
        self.fields(&[
            (1, 1), // M-bit
            (identifier, 4),
            (length, 11),
        ]);
    }

    pub(crate) fn closing_mbit(&mut self) {
        self.put(0, 1);
    }

    // `n` bits of content: `front` in the first 64, ones behind them.
    fn content(&mut self, n: usize, front: u64) {
        self.put(front, n.min(64));
        for _ in 64..n {
            self.put(1, 1);
        }
    }

    // A type 3 element: 16 + length bits.
    pub(crate) fn type3(&mut self, identifier: u64, length: u16, front: u64) {
        self.element(identifier, u64::from(length));
        self.content(usize::from(length), front);
    }

    // A type 4 element whose declared length may be at odds with its content: 16 + 6 + n bits.
    pub(crate) fn type4(
        &mut self,
        identifier: u64,
        length: u64,
        entries: u64,
        n: usize,
        front: u64,
    ) {
        self.element(identifier, length);
        self.put(entries, 6);
        self.content(n, front);
    }

    // The location demand (3) or the location accept (5), up to the O-bit: 16 + 3 bits. The three bits are reserved, mode,
    // O-bit, or accept/reject, reserved, O-bit.
    pub(crate) fn location(&mut self, identifier: u64, length: u64, bits: u64) {
        self.element(identifier, length);
        self.put(bits, 3);
    }

    // What opens a list of groups: 16 + 6 bits.
    pub(crate) fn list(&mut self, identifier: u64, length: u64, count: u64) {
        self.element(identifier, length);
        self.put(count, 6);
    }

    // A group that is detached, up to its address: 1 + 2 + 2 = 5 bits.
    pub(crate) fn detached(&mut self, detachment: u64, address_type: u64) {
        self.fields(&[(1, 1), (detachment, 2), (address_type, 2)]);
    }

    // An uplink group that is attached, up to its address: 1 + 3 + 2 = 6 bits.
    pub(crate) fn uplink(&mut self, usage: u64, address_type: u64) {
        self.fields(&[(0, 1), (usage, 3), (address_type, 2)]);
    }

    // A downlink group that is attached, up to its address: 1 + 2 + 3 + 2 = 8 bits.
    pub(crate) fn downlink(&mut self, lifetime: u64, usage: u64, address_type: u64) {
        self.fields(&[(0, 1), (lifetime, 2), (usage, 3), (address_type, 2)]);
    }

    // A GSSI, an address extension or a VGSSI.
    pub(crate) fn address(&mut self, value: u64) {
        self.put(value, 24);
    }
}

// A demand of no type 2 elements, up to the first M-bit: 4 + 3 + 1 + 1 + 1 + 5 = 15 bits.
pub(crate) fn demand() -> Message {
    demand_over(0)
}

// The same in octets whose first 64 bits are not zeros.
pub(crate) fn demand_over(front: u64) -> Message {
    let mut m = Draft::over(front, DEMAND, 0);
    m.fields(&[
        (2, 4), // type
        (3, 3), // update type
        (0, 1), // append
        (0, 1), // cipher control
        (1, 1), // O-bit
        (0, 5), // P-bits
    ]);
    m
}

// An accept of no type 2 elements, up to the first M-bit: 4 + 3 + 1 + 5 = 13 bits.
pub(crate) fn accept() -> Message {
    let mut m = Draft::new(ACCEPT, 0);
    m.fields(&[
        (5, 4), // type
        (3, 3), // accept type
        (1, 1), // O-bit
        (0, 5), // P-bits
    ]);
    m
}

// An attach/detach up to the first M-bit: 4 + 1 + 1 + 1 + 1 = 8 bits.
pub(crate) fn attach_detach() -> Message {
    let mut m = Draft::new(ATTACH_DETACH, 0);
    m.fields(&[
        (10, 4), // type
        (0, 1), // report
        (1, 1), // acknowledgement request
        (1, 1), // mode
        (1, 1), // O-bit
    ]);
    m
}
