// A field written and a field read at each of 16 offsets, in each width from 0 to 64: a line for each, with the octets
// and the number.
#![tactic(auto)]

use bits::bitbuffer::Cursor;
use std::{array, fmt, io};

fn stir(seed: u64) -> u64 {
    let a = seed ^ (seed << 13);
    let b = a ^ (a >> 7);
    let c = b ^ (b << 17);
    let d = c ^ (c << 41);
    d ^ (d >> 9)
}

// The `width` lowest bits of a word.
fn lowest(word: u64, width: u8) -> u64 {
    if width < 64 {
        word % (1 << width)
    } else {
        word
    }
}

// The octets before the trial.
fn filled(offset: u8, width: u8) -> [u8; 11] {
    let front = usize::from(offset) * 7 + usize::from(width) * 3;
    array::from_fn(|i| ((front + i * 29) % 256) as u8)
}

#[derive(Clone, Copy)]
struct Hex<'a>(&'a [u8]);

impl fmt::Display for Hex<'_> {
    fn fmt<W: fmt::Write>(&self, f: &mut fmt::Formatter<W>) -> fmt::Result {
        for octet in self.0 {
            write!(f, "{octet:02x}")?;
        }
        Ok(())
    }
}

// Offset and width are octets, so that no place overflows, whatever they are.
fn trial(rt: &impl Print, offset: u8, width: u8) -> io::Result<()> {
    let mut octets = filled(offset, width);
    let seed = u64::from(offset) * 65 + u64::from(width) + 1;
    let value = lowest(stir(seed), width);
    let at = usize::from(offset);
    let width = usize::from(width);
    let to = Cursor { at, end: 88 };
    let from = Cursor {
        at: at + 3,
        end: 88,
    };
    print!(rt; "{offset} {width} ")?;
    match to.write(&mut octets, value, width) {
        Ok(_) => print!(rt; "{} ", Hex(&octets))?,
        Err(e) => print!(rt; "refused {} ", e.number())?,
    }
    match from.read::<u64>(&octets, width) {
        Ok((v, _)) => println!(rt; "{v:016x}"),
        Err(e) => println!(rt; "refused {}", e.number()),
    }
}

fn main(rt: HostRuntime) -> io::Result<()> {
    for offset in 0..16 {
        for width in 0..=64 {
            trial(&rt, offset, width)?;
        }
    }
    Ok(())
}
