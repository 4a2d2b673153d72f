// Numbers and elements that may be absent, and the typed elements of annex E: type 2, type 3 and type 4, a table of listed
// identifiers, and the unlisted ones that the skipping reading passes.
ghost use Rattle.std.specs.Prelude.{◌≡◌, true, option_map, Some, None};
ghost use Rattle.std.specs.List.{position_or_len};
ghost use Rattle.bits.specs.Reader.{word, optional};
ghost use Rattle.bits.specs.Placed.{at, as_by, as_read, as_moved, halted};
ghost use Rattle.elements.specs.Numbers.{u8_of, in_u8, u64_of, in_u64, type2};
ghost use Rattle.elements.specs.Generics.{kept};
ghost use Rattle.elements.specs.Table.{closing, is_listed};
ghost use Rattle.elements.specs.Kinds.{identifier_of};
ghost use Rattle.elements.specs.Rows.{slots_from, skipping, table_end, closing_if, element_follows, behind_part, part};
ghost use Rattle.elements.specs.Rows.{sized, generic_type3_at, generic_type4_at, generic_content, opened_by, type3_from, type4_from};
ghost use Rattle.elements.specs.Answers.{opening, slots_answer};
ghost use Rattle.elements.specs.Fronts.{slot_front, list_front};

use bits::bitbuffer::{Cursor, Moved, Number, Read};
use bits::pdu_parse_error::PduParseErr;

// What may be absent is presence and value in a record: exported functions of `measure` take records and hand them back, by value, and C
// takes no enum and no type argument. What is absent holds zero.
#[repr(C)]
#[derive(Clone, Copy)]
pub struct OptionalU8 {
    pub present: bool,
    pub value: u8,
}

#[repr(C)]
#[derive(Clone, Copy)]
pub struct OptionalU64 {
    pub present: bool,
    pub value: u64,
}

pub const NO_NUMBER: OptionalU64 = OptionalU64 {
    present: false,
    value: 0,
};

impl From<Option<u8>> for OptionalU8 {
    ghost from_gives = { λ o r. r ≡ u8_of o };

    fn from(o: Option<u8>) -> OptionalU8 {
        OptionalU8 {
            present: o.is_some(),
            value: o.unwrap_or(0),
        }
    }
}

impl From<Option<u64>> for OptionalU64 {
    ghost from_gives = { λ o r. r ≡ u64_of o };

    fn from(o: Option<u64>) -> OptionalU64 {
        OptionalU64 {
            present: o.is_some(),
            value: o.unwrap_or(0),
        }
    }
}

impl From<OptionalU8> for Option<u8> {
    ghost from_gives = { λ o r. r ≡ in_u8 o };

    fn from(o: OptionalU8) -> Option<u8> {
        o.present.then_some(o.value)
    }
}

impl From<OptionalU64> for Option<u64> {
    ghost from_gives = { λ o r. r ≡ in_u64 o };

    fn from(o: OptionalU64) -> Option<u64> {
        o.present.then_some(o.value)
    }
}

// A field that is there if it is wanted.
pub fn read_optional<T: Number>(
    c: Cursor,
    octets: &[u8],
    wanted: bool,
    width: usize,
) -> Read<Option<T>>
    ensures { as_by (option_map T.value) result ≡ at (optional Some None wanted (word T.BITS width)) octets.now c }
{
    if wanted {
        let (v, c1) = c.read::<T>(octets, width)?;
        return Ok((Some(v), c1));
    }
    Ok((None, c))
}

// A type 2 element: P-bit, then the value if it is 1.
pub fn parse_type2_generic<T: Number>(c: Cursor, octets: &[u8], width: usize) -> Read<Option<T>>
    ensures { as_by (option_map T.value) result ≡ at (type2 (word T.BITS width)) octets.now c }
{
    let (p, c1) = c.read::<u8>(octets, 1)?;
    read_optional(c1, octets, p == 1, width)
}

// The M-bit, and behind an M-bit of 1 the identifier; the caller keeps its place if the element is not its own.
pub fn peek_type34_mbit_and_id(c: Cursor, octets: &[u8]) -> Read<Option<u8>>
    ensures { as_read result ≡ at opening octets.now c }
{
    parse_type2_generic(c, octets, 4)
}

// The closing M-bit.
pub fn read_closing_mbit(c: Cursor, octets: &[u8]) -> Moved
    ensures { as_moved result ≡ at closing octets.now c }
{
    let (m, c1) = c.read::<u8>(octets, 1)?;
    if m == 0 {
        return Ok(c1);
    }
    Err(PduParseErr::InvalidTrailingMbitValue)
}

// The same where there is one.
pub(crate) fn read_closing_mbit_if(c: Cursor, octets: &[u8], there: bool) -> Moved
    ensures { as_moved result ≡ at (closing_if there) octets.now c }
{
    if there {
        return read_closing_mbit(c, octets);
    }
    Ok(c)
}

// Whether an element follows. An O-bit of 0 announces none; an M-bit of 0, which is passed, closes a table without elements. Before
// an element the place stays.
pub fn element_follows(c: Cursor, octets: &[u8], announced: bool) -> Read<bool>
    ensures { as_read result ≡ at (element_follows announced) octets.now c }
{
    if announced {
        let (id, c1) = peek_type34_mbit_and_id(c, octets)?;
        return match id {
            Some(_) => Ok((true, c)),
            None => Ok((false, c1)),
        };
    }
    Ok((false, c))
}

// A type 3 element: its declared length, and its first 64 bits as a number.
#[repr(C)]
#[derive(Clone, Copy)]
pub struct Type3FieldGeneric {
    pub len: usize,
    pub data: u64,
}

#[repr(C)]
#[derive(Clone, Copy)]
pub struct OptionalType3 {
    pub present: bool,
    pub value: Type3FieldGeneric,
}

// A type 4 element: its declared length less the 6 bits of its number of entries, that number, and its first 64 bits.
#[repr(C)]
#[derive(Clone, Copy)]
pub struct Type4FieldGeneric {
    pub len: usize,
    pub elems: usize,
    pub data: u64,
}

#[repr(C)]
#[derive(Clone, Copy)]
pub struct OptionalType4 {
    pub present: bool,
    pub value: Type4FieldGeneric,
}

// A generic element of either type, while a table is read: small, since a table's slots are copied as one block, and without
// padding of its own: `padding` is 0 and fills it to 16 octets.
#[derive(Clone, Copy)]
pub struct Generic {
    pub data: u64,
    pub len: u32,
    pub padding: u16,
    pub elems: u8,
    pub present: bool,
}

pub const ABSENT: Generic = Generic {
    present: false,
    len: 0,
    padding: 0,
    elems: 0,
    data: 0,
};

pub const NO_GENERICS: [Generic; 8] = [ABSENT; 8];

// The element of a type 3 slot, and of a type 4 slot.
impl From<Generic> for OptionalType3 {
    ghost from_gives = { λ g r. r ≡ type3_from g };

    fn from(g: Generic) -> OptionalType3 {
        OptionalType3 {
            present: g.present,
            value: Type3FieldGeneric {
                len: g.len as usize,
                data: g.data,
            },
        }
    }
}

impl From<Generic> for OptionalType4 {
    ghost from_gives = { λ g r. r ≡ type4_from g };

    fn from(g: Generic) -> OptionalType4 {
        OptionalType4 {
            present: g.present,
            value: Type4FieldGeneric {
                len: g.len as usize,
                elems: g.elems as usize,
                data: g.data,
            },
        }
    }
}

// The first 64 of `n` bits as a number; the others are passed.
fn read_kept(c: Cursor, octets: &[u8], n: usize) -> Read<u64>
    ensures { as_read result ≡ at (kept n) octets.now c }
{
    let w = n.min(64);
    let (v, c1) = c.read::<u64>(octets, w)?;
    let c2 = c1.pass(octets, n - w)?;
    Ok((v, c2))
}

// A generic type 3 element, from its length on.
pub fn parse_type3_generic(c: Cursor, octets: &[u8]) -> Read<Generic>
    ensures { as_read result ≡ at (sized generic_type3_at) octets.now c }
{
    let (len, c1) = c.read::<u32>(octets, 11)?;
    let (data, c2) = read_kept(c1, octets, len as usize)?;
    Ok((
        Generic {
            present: true,
            len,
            padding: 0,
            elems: 0,
            data,
        },
        c2,
    ))
}

// A generic type 4 element, from its length on.
pub fn parse_type4_generic(c: Cursor, octets: &[u8]) -> Read<Generic>
    ensures { as_read result ≡ at (sized generic_type4_at) octets.now c }
{
    let (len, c1) = c.read::<u32>(octets, 11)?;
    let (elems, c2) = c1.read::<u8>(octets, 6)?;
    if len < 6 {
        return Err(PduParseErr::Type4Underflow);
    }
    let n = len - 6;
    let (data, c3) = read_kept(c2, octets, n as usize)?;
    Ok((
        Generic {
            present: true,
            len: n,
            padding: 0,
            elems,
            data,
        },
        c3,
    ))
}

// What stands before the groups of a list: how many they are, and in how many bits.
#[derive(Clone, Copy)]
pub struct ListFront {
    pub count: usize,
    pub len: usize,
}

// The length of the element with this identifier, if it stands here; its content is left. Compiled into its callers, for lists of 16
// groups (docs/SPEED.md).
#[inline(always)]
pub fn read_slot_front(c: Cursor, octets: &[u8], identifier: u8) -> Read<Option<usize>>
    ensures { as_read result ≡ at (slot_front identifier) octets.now c }
{
    let (id, c1) = peek_type34_mbit_and_id(c, octets)?;
    if id == Some(identifier) {
        let (len, c2) = c1.read::<u64>(octets, 11)?;
        return Ok((Some(len as usize), c2));
    }
    Ok((None, c))
}

// The slot of a list of groups up to the first of them, where there is such a slot.
pub fn read_list_front(
    c: Cursor,
    octets: &[u8],
    there: bool,
    identifier: u8,
) -> Read<Option<ListFront>>
    ensures { as_read result ≡ at (list_front identifier there) octets.now c }
{
    if !there {
        return Ok((None, c));
    }
    let (front, c1) = read_slot_front(c, octets, identifier)?;
    let Some(size) = front else {
        return Ok((None, c1));
    };
    let (count, c2) = c1.read::<u8>(octets, 6)?;
    if size < 6 {
        return Err(PduParseErr::Type4Underflow);
    }
    Ok((
        Some(ListFront {
            count: count as usize,
            len: size - 6,
        }),
        c2,
    ))
}

// The kind of element that a listed identifier opens.
#[derive(Clone, Copy, PartialEq, Eq)]
pub enum Kind {
    Type3,
    Type4,
    LocationDemand,
    LocationAccept,
    Downlinks,
}

// A row of a message's table: a listed identifier, and the kind of element that it opens.
#[derive(Clone, Copy)]
pub struct Row {
    pub identifier: u8,
    pub kind: Kind,
}

// Whether a table, or a part of it, has an identifier.
pub fn is_listed(table: &[Row], identifier: u8) -> bool
    ensures { result ≡ is_listed identifier_of table.now identifier }
{
    table.iter().any(|row| identifier == row.identifier)
}

// How many unlisted elements were skipped, and the cursor behind them.
pub type Skipped = Read<usize>;

// The unlisted elements that stand here, each passed whole. A function of its own in the machine code, so that `skip_if` is none, and
// the strict reading calls nothing.
#[inline(never)]
fn skip_unlisted(c: Cursor, octets: &[u8], table: &[Row]) -> Skipped
    ensures { as_read result ≡ at (skipping table.now true) octets.now c }
{
    let mut place = c;
    let mut n: usize = 0;
    loop {
        let (id, c1) = peek_type34_mbit_and_id(place, octets)?;
        let Some(identifier) = id else {
            return Ok((n, place));
        };
        if is_listed(table, identifier) {
            return Ok((n, place));
        }
        let (len, c2) = c1.read::<u64>(octets, 11)?;
        place = c2.pass(octets, len as usize)?;
        n += 1;
    }
}

// The same where the reading is the skipping one; the strict one passes none.
#[inline(always)]
pub fn skip_if(c: Cursor, octets: &[u8], table: &[Row], wanted: bool) -> Skipped
    ensures { as_read result ≡ at (skipping table.now wanted) octets.now c }
{
    if wanted {
        return skip_unlisted(c, octets, table);
    }
    Ok((0, c))
}

// The generic element of a slot, from its length on.
fn parse_generic(c: Cursor, octets: &[u8], row: Row) -> Read<Generic>
    ensures { as_read result ≡ at (generic_content row) octets.now c }
{
    match row.kind {
        Kind::Type4 => parse_type4_generic(c, octets),
        _ => parse_type3_generic(c, octets),
    }
}

// A verdict and a value in one struct, where arrays occur: behind a refusal the value is the absent one.
#[derive(Clone, Copy)]
pub struct Judged<T> {
    pub verdict: Moved,
    pub value: T,
}

// What the generic slots of a table hold, and how many unlisted elements were skipped before them.
#[derive(Clone, Copy)]
pub struct Slots {
    pub skipped: usize,
    pub generics: [Generic; 8],
}

const NO_SLOTS: Slots = Slots {
    skipped: 0,
    generics: NO_GENERICS,
};

// The end of a table: unlisted elements where they are skipped, and the closing M-bit.
fn read_table_end(c: Cursor, octets: &[u8], table: &[Row], wanted: bool) -> Skipped
    ensures { as_read result ≡ at (table_end table.now wanted) octets.now c }
{
    let (n, c1) = skip_if(c, octets, table, wanted)?;
    let c2 = read_closing_mbit(c1, octets)?;
    Ok((n, c2))
}

// What is passed behind a part of a table: unlisted elements where they are skipped, and behind the last part the closing M-bit.
fn read_behind(c: Cursor, octets: &[u8], table: &[Row], last: bool, wanted: bool) -> Skipped
    ensures { as_read result ≡ at (behind_part last table.now wanted) octets.now c }
{
    if last {
        return read_table_end(c, octets, table, wanted);
    }
    skip_if(c, octets, table, wanted)
}

// A refusal, and no slots beside it.
fn refused(e: PduParseErr) -> Judged<Slots>
    ensures { result ≡ slots_answer (halted e) }
{
    Judged {
        verdict: Err(e),
        value: NO_SLOTS,
    }
}

// The rows of a table from one place up to another. A part is told by its places, since its slots stand at them in the array too.
fn part_of(table: &[Row], from: usize, to: usize) -> &[Row]
    ensures { result.now ≡ slots_from table.now from to }
{
    let end = to.min(8).min(table.len());
    &table[from.min(end)..end]
}

// How many slots stand before the first one that an element's identifier opens: all of them where it opens none, and where an M-bit
// of 0 stands.
fn slots_before(slots: &[Row], id: Option<u8>) -> usize
    ensures { result ≡ position_or_len (opened_by id) slots.now }
{
    slots
        .iter()
        .position(|row| id == Some(row.identifier))
        .unwrap_or(slots.len())
}

// A part of a table: its slots, which hold generic elements, and what is passed behind them. One look tells an element's own slot;
// those before it hold nothing.
pub fn scan_part(
    c: Cursor,
    octets: &[u8],
    table: &[Row],
    from: usize,
    to: usize,
    last: bool,
    wanted: bool,
) -> Judged<Slots>
    ensures { result ≡ slots_answer (at (part table.now (slots_from table.now from to) last wanted from) octets.now c) }
{
    let slots = part_of(table, from, to);
    let mut generics = NO_GENERICS;
    let mut place = c;
    let mut n: usize = 0;
    let mut i: usize = 0;
    while i < slots.len() {
        let s = skip_if(place, octets, table, wanted);
        let Ok((m, c1)) = s else {
            return refused(s.unwrap_err());
        };
        let l = peek_type34_mbit_and_id(c1, octets);
        let Ok((id, c2)) = l else {
            return refused(l.unwrap_err());
        };
        n += m;
        place = c1;
        i += slots_before(&slots[i..], id);
        if i < slots.len() {
            let g = parse_generic(c2, octets, slots[i]);
            let Ok((element, c3)) = g else {
                return refused(g.unwrap_err());
            };
            generics[from + i] = element;
            place = c3;
            i += 1;
        }
    }
    let b = read_behind(place, octets, table, last, wanted);
    let Ok((k, c4)) = b else {
        return refused(b.unwrap_err());
    };
    Judged {
        verdict: Ok(c4),
        value: Slots {
            skipped: n + k,
            generics,
        },
    }
}
