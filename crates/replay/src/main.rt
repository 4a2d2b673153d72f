// Recorded calls from standard input, each made of the library's own two, a reading or a rewriting: a line with the answer
// for each. The answers that it is held to are the original's (`host/run record`).
#![tactic(auto)]

ghost use Rattle.std.specs.Prelude.{◌≤◌};

use exports::{tetra_mm_read, tetra_mm_rewrite};
use std::io;
use std::io::{ErrorKind, Read};

// A reading: message, reading (1 octet each), the window (below), and its octets. A rewriting has 255 for the reading, and
// before the octets the output's window, and what each of its octets holds before (1 octet).
const REWRITING: u8 = 255;

// More octets than any call takes.
const MOST: usize = 4200;

// First bit, end bit and count of octets, written in 2 octets each, high first.
#[derive(Clone, Copy)]
struct Window {
    first: u64,
    end: u64,
    count: usize,
    ghost fits: { count ≤ 4200 },
}

// Callers name the octets one by one: the check does not cover `window @ ..` in an array's pattern.
impl From<[u8; 6]> for Window {
    fn from(octets: [u8; 6]) -> Window {
        let [a, b, c, d, e, f] = octets;
        Window {
            first: u64::from(u16::from_be_bytes([a, b])),
            end: u64::from(u16::from_be_bytes([c, d])),
            count: usize::from(u16::from_be_bytes([e, f])).min(MOST),
        }
    }
}

// FNV-1a in 64 bits.
fn digest(octets: &[u8]) -> u64 {
    octets.iter().fold(0xCBF2_9CE4_8422_2325, |hash, octet| {
        (hash ^ u64::from(*octet)).wrapping_mul(0x100_0000_01B3)
    })
}

// Fills the octets; whether the input had so many. If it ends before, they hold what it had.
fn fill(input: &mut impl Read, octets: &mut [u8]) -> io::Result<bool> {
    match input.read_exact(octets) {
        Ok(()) => Ok(true),
        Err(e) if e.kind() == ErrorKind::UnexpectedEof => Ok(false),
        Err(e) => Err(e),
    }
}

// Takes the octets of a reading and prints its answer: refusal, bits consumed, count skipped, and a digest of the whole
// buffer.
fn reread(
    rt: &impl Print,
    input: &mut impl Read,
    message: u8,
    reading: u8,
    from: Window,
) -> io::Result<()> {
    let mut octets = [0u8; MOST];
    let lent = &mut octets[..from.count];
    fill(input, lent)?;
    let mut flat = [0xA5u8; 3773];
    let result = tetra_mm_read(
        u64::from(message),
        u64::from(reading),
        lent,
        from.first,
        from.end,
        &mut flat,
    );
    let skipped = match result % 64 {
        0 => u16::from_be_bytes([flat[7], flat[8]]),
        _ => 0,
    };
    println!(rt;
        "{} {} {skipped} {:016x}",
        result % 64,
        result / 64,
        digest(&flat)
    )
}

// Takes the rest of a rewriting and prints its answer: refusal, bits written, and a digest of the whole output. Whether the
// rest was there.
fn rewrite(rt: &impl Print, input: &mut impl Read, message: u8, from: Window) -> io::Result<bool> {
    let mut more = [0u8; 7];
    if !fill(input, &mut more)? {
        return Ok(false);
    }
    let [a, b, c, d, e, f, before] = more;
    let to = Window::from([a, b, c, d, e, f]);
    let mut octets = [0u8; MOST];
    let lent = &mut octets[..from.count];
    fill(input, lent)?;
    let mut written = [before; MOST];
    let out = &mut written[..to.count];
    let result = tetra_mm_rewrite(
        u64::from(message),
        lent,
        from.first,
        from.end,
        out,
        to.first,
        to.end,
    );
    println!(rt; "{} {} {:016x}", result % 64, result / 64, digest(out))?;
    Ok(true)
}

// One call; whether there was one.
fn replay(rt: &impl Print, input: &mut impl Read) -> io::Result<bool> {
    let mut head = [0u8; 8];
    if !fill(input, &mut head)? {
        return Ok(false);
    }
    let [message, reading, a, b, c, d, e, f] = head;
    let from = Window::from([a, b, c, d, e, f]);
    if reading == REWRITING {
        return rewrite(rt, input, message, from);
    }
    reread(rt, input, message, reading, from)?;
    Ok(true)
}

// As many as there are: a proved loop has to end, so it counts up to a number that no run reaches.
fn main(rt: HostRuntime) -> io::Result<()> {
    let mut input = rt.reader();
    for _ in 0..u64::MAX {
        if !replay(&rt, &mut input)? {
            break;
        }
    }
    Ok(())
}
