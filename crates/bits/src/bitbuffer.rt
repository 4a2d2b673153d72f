// A field of bits at a cursor: read, passed, written. Bit 0 is the top bit of octet 0.
ghost use Rattle.std.specs.Prelude.{◌≡◌, ℕ, ◌+◌, ◌-◌, ◌*◌, ◌%◌, ◌^◌, ◌≤◌, ◌<◌, length, leb, ltb};
ghost use Rattle.std.proofs.Common.{rules};
ghost use Rattle.bits.specs.Bits.{number, digits};
ghost use Rattle.bits.specs.Reader.{word, pass};
ghost use Rattle.bits.specs.Placed.{left, field_at, onward, at, as_by, as_moved};
ghost use Rattle.bits.specs.Written.{splice, put_bits, write_field, spot, put_digits, Joined};

use crate::pdu_parse_error::PduParseErr;

// The bits from `at` up to `end` are left.
#[derive(Clone, Copy)]
pub struct Cursor {
    pub at: usize,
    pub end: usize,
}

// A value and the cursor behind it, or the refusal.
pub type Read<T> = Result<(T, Cursor), PduParseErr>;

// The cursor behind what was passed or written, or the refusal.
pub type Moved = Result<Cursor, PduParseErr>;

// A number that a field is read as.
pub trait Number: Copy {
    ghost value: { Self → ℕ };

    ghost BITS: { ℕ };
    // How many bits it has at most.
    const BITS: usize;

    // The lowest of the bits of `v`, as many as it has.
    fn of(v: u64) -> Self
        ensures { value result ≡ v % 2 ^ BITS };

    ghost at_most_64: { BITS ≤ 64 };
}

impl Number for u8 {
    ghost value = { λ v. v };

    ghost BITS = { 8 };

    ghost at_most_64 = { Prim.search rules };

    const BITS: usize = 8;

    fn of(v: u64) -> u8 {
        (v % 256) as u8
    }
}

impl Number for u32 {
    ghost value = { λ v. v };

    ghost BITS = { 32 };

    ghost at_most_64 = { Prim.search rules };

    const BITS: usize = 32;

    fn of(v: u64) -> u32 {
        (v % 0x1_0000_0000) as u32
    }
}

impl Number for u64 {
    ghost value = { λ v. v };

    ghost BITS = { 64 };

    ghost at_most_64 = { Prim.search rules };

    const BITS: usize = 64;

    fn of(v: u64) -> u64 {
        v
    }
}

// At most 64 bits, to be written as one field: the low `width` digits of `value`.
#[derive(Clone, Copy)]
pub struct Digits {
    pub value: u64,
    pub width: usize,
}

// No bits; and what stands for more than 64: a width, so that what is joined behind needs no test.
pub const NO_DIGITS: Digits = Digits { value: 0, width: 0 };

const TOO_WIDE: Digits = Digits {
    value: 0,
    width: 65,
};

// The `n` lowest bits of a word.
fn low(word: u64, n: usize) -> u64
    requires { n < 64 }
    ensures { result ≡ word % 2 ^ n }
{
    word % (1 << n)
}

// Whether a number has no more than `width` bits.
pub fn within(value: u64, width: usize) -> bool
    ensures { result ≡ ltb value (2 ^ width) }
{
    63 < width || value >> width == 0
}

// The number that `width` bits write, from bit `skip` of the part's first octet on: what is left of that octet, whole
// octets, and the front of the last one.
fn gather(part: &[u8], skip: usize, width: usize) -> u64
    requires { (skip < 8) × (0 < width) × (width ≤ 64) × (skip + width ≤ 8 * length part.now) }
    ensures { result ≡ field_at part.now skip width }
{
    let stop = skip + width;
    let mut value = low(part[0] as u64, 8 - skip);
    if stop <= 8 {
        return value >> (8 - stop);
    }
    let whole = stop / 8;
    // By an index, which LLVM unrolls: over `&part[1..whole]` a field of 16 to 32 bits takes a quarter longer.
    for i in 1..whole {
        value = (value << 8) | part[i] as u64;
    }
    let last = stop % 8;
    if last == 0 {
        return value;
    }
    (value << last) | (part[whole] as u64 >> (8 - last))
}

// The octet with `chunk` in the place of its `n` bits from bit `skip` on.
fn patch(octet: u8, skip: usize, n: usize, chunk: u64) -> u8
    requires { (skip + n ≤ 8) × (chunk < 2 ^ n) }
    ensures { result ≡ number (splice (digits 8 octet) skip (digits n chunk)) }
{
    let below = 8 - skip - n;
    let o = octet as u64;
    let high = o >> (n + below);
    ((((high << n) | chunk) << below) | low(o, below)) as u8
}

// `value` in the `width` bits from bit `skip` of the part's first octet on, every other bit kept: what is left of that
// octet, whole octets, and the front of the last one.
fn scatter(part: &mut [u8], skip: usize, width: usize, value: u64)
    requires { (skip < 8) × (0 < width) × (width ≤ 64) × (skip + width ≤ 8 * length part.old) × (value < 2 ^ width) }
    ensures { part.new ≡ put_bits part.old skip (digits width value) }
{
    let stop = skip + width;
    if stop <= 8 {
        part[0] = patch(part[0], skip, width, value);
        return;
    }
    let head = 8 - skip;
    let mut left = width - head;
    part[0] = patch(part[0], skip, head, value >> left);
    let whole = stop / 8;
    // By an index, which LLVM unrolls: over `&mut part[1..whole]` a field of 16 to 64 bits takes up to a tenth longer.
    for i in 1..whole {
        left -= 8;
        part[i] = ((value >> left) % 256) as u8;
    }
    if 0 < left {
        part[whole] = patch(part[whole], 0, left, low(value, left));
    }
}

// The number that the `width` bits from bit `at` on write.
fn value(octets: &[u8], at: usize, width: usize) -> u64
    requires { (width ≤ 64) × (width ≤ 8 * length octets.now - at) × (at + width < 2 ^ 64) }
    ensures { result ≡ field_at octets.now at width }
{
    if width == 0 {
        return 0;
    }
    let first = at / 8;
    let end = (at + (width - 1)) / 8 + 1;
    gather(&octets[first..end], at % 8, width)
}

// `value` in the `width` bits from bit `at` on, every other bit kept.
fn put(octets: &mut [u8], at: usize, width: usize, value: u64)
    requires { (width ≤ 64) × (width ≤ 8 * length octets.old - at) × (at + width < 2 ^ 64) × (value < 2 ^ width) }
    ensures { octets.new ≡ put_bits octets.old at (digits width value) }
{
    if width == 0 {
        return;
    }
    let first = at / 8;
    let end = (at + (width - 1)) / 8 + 1;
    scatter(&mut octets[first..end], at % 8, width, value);
}

impl Cursor {
    // Whether `width` bits are left, in `len` octets.
    pub fn holds(self, len: usize, width: usize) -> bool
        ensures { result ≡ leb width (left len self) }
    {
        let Cursor { at, end } = self;
        if width == 0 {
            return true;
        }
        if end < at || end - at < width {
            return false;
        }
        (at + (width - 1)) / 8 < len
    }

    // The cursor `width` bits further on.
    fn past(self, width: usize) -> Cursor
        requires { self.at + width < 2 ^ 64 }
        ensures { result ≡ onward width self }
    {
        Cursor {
            at: self.at + width,
            end: self.end,
        }
    }

    // The next `width` bits as a number, most significant first, and the cursor behind them.
    pub fn read<T: Number>(self, octets: &[u8], width: usize) -> Read<T>
        ensures { as_by T.value result ≡ at (word T.BITS width) octets.now self }
    {
        if T::BITS < width {
            return Err(PduParseErr::BufferEnded);
        }
        if !self.holds(octets.len(), width) {
            return Err(PduParseErr::BufferEnded);
        }
        let v = value(octets, self.at, width);
        Ok((T::of(v), self.past(width)))
    }

    // Past the next `width` bits, whatever they hold.
    pub fn pass(self, octets: &[u8], width: usize) -> Moved
        ensures { as_moved result ≡ at (pass width) octets.now self }
    {
        if self.holds(octets.len(), width) {
            return Ok(self.past(width));
        }
        Err(PduParseErr::BufferEnded)
    }

    // Writes `value` in the next `width` bits, every other bit kept; a refusal changes nothing.
    pub fn write(self, octets: &mut [u8], value: u64, width: usize) -> Moved
        ensures answer { as_moved result ≡ (write_field width value octets.old self).answer }
        ensures octets { octets.new ≡ (write_field width value octets.old self).octets }
    {
        if 64 < width {
            return Err(PduParseErr::ValueTooLarge);
        }
        if within(value, width) {
            if self.holds(octets.len(), width) {
                put(octets, self.at, width, value);
                return Ok(self.past(width));
            }
            return Err(PduParseErr::WindowTooShort);
        }
        Err(PduParseErr::ValueTooLarge)
    }

    // Puts `d` in the next bits where they are left, every other bit kept; else nothing, and the cursor stays. Who puts one field after
    // another asks for the room of all of them first.
    pub fn put(self, octets: &mut [u8], d: Digits) -> Cursor
        ensures { spot octets.new result ≡ put_digits d (spot octets.old self) }
    {
        if d.width <= 64 && self.holds(octets.len(), d.width) {
            put(octets, self.at, d.width, lowest(d.value, d.width));
            return self.past(d.width);
        }
        self
    }
}

// The `n` lowest bits of a word, all of them from 64 on.
fn lowest(word: u64, n: usize) -> u64
    ensures { result ≡ word % 2 ^ n }
{
    if n < 64 {
        return low(word, n);
    }
    word
}

// `word` with `n` zeros behind it; nothing of it is left at 64.
fn shifted(word: u64, n: usize) -> u64
    requires { n ≤ 64 }
    ensures { result ≡ (word * 2 ^ n) % 2 ^ 64 }
{
    if n < 64 {
        return word << n;
    }
    0
}

impl Digits {
    // These bits, and behind them the low `width` digits of `value`.
    pub fn then(self, value: u64, width: usize) -> Digits
        ensures { Joined self (digits width value) result }
    {
        if width <= 64 && self.width <= 64 - width {
            let front = lowest(self.value, self.width);
            return Digits {
                value: shifted(front, width) | lowest(value, width),
                width: self.width + width,
            };
        }
        TOO_WIDE
    }
}
