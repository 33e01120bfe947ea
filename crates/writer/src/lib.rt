// The writer: a table in memory into a strict file, plain or full.
//
// All is judged first, then the length is added up, and only then is anything written, by a second
// walk over the fields. specs/Write.antt says what a write promises.

#![tactic(auto)]

ghost use Rattle.std.specs.Prelude.{ℕ, ◌≡◌, ◌+◌, ◌≤◌, ◌<◌, ◌↔◌, length, get_or, IsTrue, MatchResult};
ghost use Rattle.format.specs.Dialect.{strict};
ghost use Rattle.format.specs.Answer.{writer_numbers};
ghost use Rattle.format.specs.WrittenForms.{is_special, doubled, table_by, CanHold};
ghost use Rattle.format.specs.Filling.{over};
ghost use Rattle.format.specs.Table.{Bytes};
ghost use Rattle.tables.specs.Seek.{Sought, Strays, paired};
ghost use Rattle.tables.specs.Fields.{contents};
ghost use Rattle.tables.specs.Records.{held};
ghost use Rattle.writer.specs.declared.Mode.{TheVariants.Plain};
ghost use Rattle.writer.specs.Form.{quotes, form_in, line_by, Begun, Names};
ghost use Rattle.writer.specs.Write.{Forbidden, TableOutcome, WriteOutcome};

use format::{FieldNumber, RecordNumber, TextIndex, WriteError};
use tables::fields::Fields;
use tables::{Formed, Table};

// Which fields are quoted: those that need it, or all.
#[derive(Clone, Copy)]
enum Mode {
    Plain,
    Full,
}

impl TryFrom<u8> for Mode {
    type Error = WriteError;

    ghost try_from_gives = { Names };

    fn try_from(mode: u8) -> Result<Self, WriteError> {
        match mode {
            0 => Ok(Mode::Plain),
            1 => Ok(Mode::Full),
            _ => Err(WriteError::UnknownMode),
        }
    }
}

// Writes a table as a strict file, plain in mode 0 and full in mode 1: the file from the front of out,
// what stands behind it left alone, and its length; or the refusal, and nothing written.
pub fn write(table: &Table<'_, '_>, mode: u8, out: &mut [u8]) -> Result<u32, WriteError>
    ensures { WriteOutcome table.now.text.now table.now.ends.now table.now.rows.now mode out.old
        (writer_numbers result) out.new }
{
    let mode = Mode::try_from(mode)?;
    let formed = table.formed().ok_or(WriteError::Malformed)?;
    judge(&formed)?;
    let length = size(&formed, mode);
    if (format::FILE_LIMIT as usize) < length {
        return Err(WriteError::LongFile);
    }
    if out.len() < length {
        return Err(WriteError::NoRoom);
    }
    put(&formed, mode, out);
    Ok(length as u32)
}

// Whether strict can hold a table; or the lowest byte, field or record that it cannot.
fn judge(formed: &Formed<'_, '_>) -> Result<(), WriteError>
    ensures { let text = formed.now.table.text.now in MatchResult result
        (λ _. CanHold strict (held formed.now))
        (λ e. (file out : Bytes) → TableOutcome text (held formed.now) file out (writer_numbers (Err e)) out) }
{
    let Table { text, ends, rows } = formed.table;
    if let Some(i) = first_forbidden(text) {
        return Err(WriteError::Forbidden(TextIndex(i as u32)));
    }
    if let Some(k) = tables::first_outside(ends, 0, format::CONTENT_LIMIT) {
        return Err(WriteError::LongContent(FieldNumber(k as u32)));
    }
    if let Some(r) = first_uneven(rows) {
        return Err(WriteError::Uneven(RecordNumber(r as u32)));
    }
    Ok(())
}

// The first byte that strict cannot hold, if there is one.
fn first_forbidden(text: &[u8]) -> Option<usize>
    ensures { Sought Forbidden text.now result }
{
    text.iter().position(|b| is_forbidden(*b))
}

// Whether a byte is one that strict cannot hold.
#[tactic(auto, unfolding(format::specs::Dialect::class_of))]
fn is_forbidden(b: u8) -> bool
    ensures { IsTrue result ↔ Forbidden b }
{
    !matches!(b, b'\n' | b'\r' | b' '..=b'~')
}

// The first record with another number of fields than record 0, if there is one.
fn first_uneven(rows: &[u32]) -> Option<usize>
    ensures { Sought (Strays (get_or rows.now 0 0) (get_or rows.now 0 0)) (paired 0 rows.now) result }
{
    let width = *rows.first()?;
    tables::first_outside(rows, width, width)
}

// The length of the file: its text with each quote doubled, two quotes about each field that is quoted,
// a comma or a CR behind each field, and an LF behind each record.
fn size(formed: &Formed<'_, '_>, mode: Mode) -> usize
    ensures { result ≡ length (table_by (form_in mode) strict (held formed.now)) }
{
    let Table { text, ends, rows } = formed.table;
    let doubled = text.iter().filter(|b| **b == b'"').count();
    let quoted = formed
        .fields()
        .filter(|field| is_quoted(field, mode))
        .count();
    text.len() + doubled + 2 * quoted + ends.len() + rows.len()
}

// Whether a field is quoted.
fn is_quoted(field: &[u8], mode: Mode) -> bool
    ensures { result ≡ quotes mode field.now }
{
    match mode {
        Mode::Plain => field.iter().any(|b| is_special(*b)),
        Mode::Full => true,
    }
}

// Whether a byte is special: a comma, a quote, CR or LF.
fn is_special(b: u8) -> bool
    ensures { result ≡ is_special strict b }
{
    matches!(b, b',' | b'"' | b'\r' | b'\n')
}

// Writes the file.
fn put(formed: &Formed<'_, '_>, mode: Mode, out: &mut [u8])
    requires { length (table_by (form_in mode) strict (held formed.now)) ≤ length out.old }
    ensures { out.new ≡ over (table_by (form_in mode) strict (held formed.now)) out.old }
{
    let mut at = 0;
    for record in formed.records() {
        at += put_record(record, mode, &mut out[at..]);
    }
}

// Writes a record with its line break, and says how long they are.
fn put_record(fields: Fields<'_, '_>, mode: Mode, out: &mut [u8]) -> usize
    requires some_field { 1 ≤ length (contents fields) }
    requires room { length (line_by (form_in mode) strict (contents fields)) ≤ length out.old }
    ensures value { result ≡ length (line_by (form_in mode) strict (contents fields.entry)) }
    ensures out_after { out.new ≡ over (line_by (form_in mode) strict (contents fields.entry)) out.old }
{
    let mut at = 0;
    for field in fields {
        at += put_field(field, mode, &mut out[at..]);
        out[at] = b',';
        at += 1;
    }
    // The line break begins where the last comma stands.
    out[at - 1] = b'\r';
    out[at] = b'\n';
    at + 1
}

// Writes a field, and says how long it is.
fn put_field(field: &[u8], mode: Mode, out: &mut [u8]) -> usize
    requires { length (form_in mode field.now) ≤ length out.old }
    ensures value { result ≡ length (form_in mode field.now) }
    ensures out_after { out.new ≡ over (form_in mode field.now) out.old }
{
    if put_bare(field, mode, out) {
        return field.len();
    }
    out[0] = b'"';
    let behind = 1 + put_inside(field, &mut out[1..]);
    out[behind] = b'"';
    behind + 1
}

// Writes a content as it is, up to what has it quoted, and says whether nothing has. One walk does both: most
// contents are short, and a call of `copy_from_slice` for each takes longer.
fn put_bare(content: &[u8], mode: Mode, out: &mut [u8]) -> bool
    requires { length content.now ≤ length out.old }
    ensures { Begun mode content.now out.old result out.new }
{
    match mode {
        Mode::Plain => put_ordinary(content, out),
        Mode::Full => false,
    }
}

// Writes a content as it is, up to its first special byte, and says whether it has none.
fn put_ordinary(content: &[u8], out: &mut [u8]) -> bool
    requires { length content.now ≤ length out.old }
    ensures { Begun Plain content.now out.old result out.new }
{
    for (i, b) in content.iter().enumerate() {
        if is_special(*b) {
            return false;
        }
        out[i] = *b;
    }
    true
}

// Writes a content with each quote doubled, and says how long that is.
fn put_inside(content: &[u8], out: &mut [u8]) -> usize
    requires { length (doubled content.now) ≤ length out.old }
    ensures value { result ≡ length (doubled content.now) }
    ensures out_after { out.new ≡ over (doubled content.now) out.old }
{
    let mut at = 0;
    for b in content {
        out[at] = *b;
        at += 1;
        if *b == b'"' {
            out[at] = b'"';
            at += 1;
        }
    }
    at
}
