// What the second walk over a file writes at once: a run, or a field with its end and its row, into lent
// buffers.
//
// Each call writes all of it where it fits, and else nothing: specs/Put.antt.

#![tactic(auto)]

ghost use Rattle.std.specs.Prelude.{◌≡◌, ◌+◌, ◌<◌, ◌≤◌, cond, length, replicate};
ghost use Rattle.std.specs.Option.{SomeIff};
ghost use Rattle.format.specs.Memory.{largest32};
ghost use Rattle.fill.specs.Buffers.{SameBuffers, lists};
ghost use Rattle.fill.specs.Put.{Puts, PutsEnd, PutsField, behind};

// Where the walk is: the next byte of the file, the blanks held, how many of the text, the ends and the
// rows are written, the form, and whether a byte came since the last record's end. Places count from the
// front of each slice, and no part of it is passed in its stead, for ends and rows hold such counts. The
// form is a number for the C interface: a walk may begin at the form of a check that C lends. It and the
// flag stand last: with padding between the numbers, which is copied too, a walk from byte to byte takes
// two thirds longer.
#[derive(Clone, Copy)]
pub struct Head {
    pub at: usize,
    pub held: usize,
    pub text: usize,
    pub ends: usize,
    pub rows: usize,
    pub form: u8,
    pub begun: bool,
}

// A field of a file: its content, where the next field begins, and whether it ends a record.
#[derive(Clone, Copy)]
pub struct Field<'a> {
    pub content: &'a [u8],
    pub next: usize,
    pub row: bool,
}

// The three lent buffers of a table: its text, where each field ends in it, and how many fields there are
// at the end of each record.
#[derive(Drop)]
pub struct Buffers<'a> {
    pub text: &'a mut [u8],
    pub ends: &'a mut [u32],
    pub rows: &'a mut [u32],
}

impl Head {
    // At the start of the next field, behind one that ends at a place of the text.
    fn behind(self, next: usize, row: bool, end: usize) -> Head
        requires few_ends { self.ends < largest32 }
        requires few_rows { self.rows + cond row 1 0 ≤ usize.MAX }
        ensures { result ≡ behind self next row end }
    {
        Head {
            at: next,
            held: 0,
            text: end,
            ends: self.ends + 1,
            rows: self.rows + usize::from(row),
            form: steps::START,
            begun: !row,
        }
    }
}

// Copies bytes to a place of the text, and says where they end there.
#[tactic(auto, using(crate::proofs::Put::parts))]
pub fn copied(text: &mut [u8], at: usize, bytes: &[u8]) -> Option<usize>
    ensures { Puts text.old at bytes.now result text.new }
{
    let end = end_within(text.len(), at, bytes.len())?;
    copy_each(&mut text[at..end], bytes);
    Some(end)
}

// Writes a byte so many times from a place on, and says where that ends.
#[tactic(auto, using(crate::proofs::Put::parts))]
pub fn put_run(text: &mut [u8], at: usize, count: usize, b: u8) -> Option<usize>
    ensures { Puts text.old at (replicate count b) result text.new }
{
    let end = end_within(text.len(), at, count)?;
    text[at..end].fill(b);
    Some(end)
}

// Where so many bytes from a place on end, if they lie in a buffer of a length.
fn end_within(length: usize, at: usize, count: usize) -> Option<usize>
    ensures { SomeIff result (at + count ≤ length) (at + count) }
{
    at.checked_add(count).filter(|end| *end <= length)
}

// Writes a field: its content, its end, and the row where it ends a record. The walk is then at the next
// field.
pub fn put_field(p: Head, x: Field, to: &mut Buffers) -> Option<Head>
    ensures same { SameBuffers to.old to.new }
    ensures put { PutsField p x.entry.content.now x.entry.next x.entry.row (lists to.old) result (lists to.new) }
{
    if x.row {
        put_whole::<true>(p, x, to)
    } else {
        put_whole::<false>(p, x, to)
    }
}

// The same, compiled for each row.
#[tactic(auto, using(crate::proofs::Put::parts))]
fn put_whole<const ROW: bool>(p: Head, x: Field, to: &mut Buffers) -> Option<Head>
    ensures same { SameBuffers to.old to.new }
    ensures put { PutsField p x.entry.content.now x.entry.next ROW (lists to.old) result (lists to.new) }
{
    let end = end_within(to.text.len(), p.text, x.content.len())?;
    let next = put_entries::<ROW>(p, x.next, end, to)?;
    copy_each(&mut to.text[p.text..end], x.content);
    Some(next)
}

// Copies bytes over a part as long as they are. `copy_from_slice` would call memmove, which takes longer
// for short fields, as most are, and which a program that links the library for C would have to have.
fn copy_each(part: &mut [u8], bytes: &[u8])
    requires { length part.old ≡ length bytes.now }
    ensures { part.new ≡ bytes.now }
{
    for (i, byte) in bytes.iter().enumerate() {
        part[i] = *byte;
    }
}

// Writes the end of a field whose content is written already, and the row where it ends a record. The
// walk is then at the next field.
pub fn put_end(p: Head, next: usize, row: bool, to: &mut Buffers) -> Option<Head>
    ensures same { SameBuffers to.old to.new }
    ensures put { PutsEnd p next row p.text (lists to.old) result (lists to.new) }
{
    if row {
        put_entries::<true>(p, next, p.text, to)
    } else {
        put_entries::<false>(p, next, p.text, to)
    }
}

// Writes an end, and the row of a record that ends.
fn put_entries<const ROW: bool>(p: Head, next: usize, end: usize, to: &mut Buffers) -> Option<Head>
    ensures same { SameBuffers to.old to.new }
    ensures put { PutsEnd p next ROW end (lists to.old) result (lists to.new) }
{
    let few = p.ends < to.ends.len().min(format::LARGEST_32);
    if !few || format::LARGEST_32 < end || (ROW && to.rows.len() <= p.rows) {
        return None;
    }
    to.ends[p.ends] = end as u32;
    if ROW {
        to.rows[p.rows] = (p.ends + 1) as u32;
    }
    Some(p.behind(next, ROW, end))
}
