// Jumping to a record: the index of a file, and one record's part of the file by an index.
//
// specs/Jump.antt says what building and asking promise; format's specs/Walk.antt where a record begins
// and ends. A walk goes by the table of steps and judges no limit and no width.

#![tactic(auto)]

ghost use Rattle.std.specs.Prelude.{◌≡◌, ◌||◌, ◌↔◌, List, ℕ, ◌≤◌, IsTrue, eqb, leb, length, drop};
ghost use Rattle.format.specs.Meant.{dialect_of};
ghost use Rattle.format.specs.House.{file_limit};
ghost use Rattle.format.specs.Walk.{Index, Usable};
ghost use Rattle.steps.specs.Steps.{quoted, cr};
ghost use Rattle.steps.specs.Numbers.{form_number};
ghost use Rattle.jump.specs.Jump.{IndexOutcome, WalkOutcome, JumpOutcome, PartOutcome, indexed_from, lies};
ghost use Rattle.jump.specs.Pass.{PairsEnd, RowEnd, row_form, Skips, Ending, Passing};

use format::{ByteOffset, Dialect, Indexed, Jumped, ReadError, Refusal};
use steps::Stepped;
use words::{MarkTable, RowText};

// Where a record lies in its file.
#[derive(Clone, Copy)]
struct Part {
    start: ByteOffset,
    length: u32,
}

// Where a record ends, and where the next one begins, behind its line break.
#[derive(Clone, Copy)]
struct RecordEnd {
    at: usize,
    next: usize,
}

// A place of a file, and the form there.
#[derive(Clone, Copy)]
struct Spot {
    at: usize,
    form: u8,
}

// Builds the index of a file in a dialect: where records 0, 64, 128 and so on begin; entries behind them
// are left alone. Or the refusal, and nothing written.
pub fn index(file: &[u8], dialect: Dialect, index: &mut [u32]) -> Indexed
    ensures { IndexOutcome dialect.delimiter dialect.leniencies file.now index.old result index.new }
{
    match build(file, dialect, index) {
        Ok(entries) => Indexed {
            refusal: 0,
            place: format::NOWHERE,
            entries,
        },
        Err(error) => Indexed {
            refusal: error.number as u32,
            place: error.place,
            entries: 0,
        },
    }
}

// The number of entries that were written.
fn build(file: &[u8], dialect: Dialect, index: &mut [u32]) -> Result<u32, ReadError>
    ensures { IndexOutcome dialect.delimiter dialect.leniencies file.now index.old (indexed_from result) index.new }
{
    let totals = pieces::checked(file, dialect)?;
    let entries = (totals.records as usize).div_ceil(format::INDEX_STEP);
    if index.len() < entries {
        return Err(Refusal::NoRoomInIndex.at(format::NOWHERE));
    }
    Walk::new(file, dialect).write_entries(&mut index[..entries]);
    Ok(entries as u32)
}

// Where a record of a file lies, by an index.
pub fn locate(file: &[u8], dialect: Dialect, index: &[u32], record: usize) -> Jumped
    ensures { JumpOutcome dialect.delimiter dialect.leniencies file.now index.now «record» result }
{
    match part_of(file, dialect, index, record) {
        Ok(part) => Jumped {
            refusal: 0,
            place: format::NOWHERE,
            start: part.start,
            length: part.length,
        },
        Err(refusal) => Jumped {
            refusal: refusal as u32,
            place: format::NOWHERE,
            start: ByteOffset(0),
            length: 0,
        },
    }
}

// That part of the file itself; the empty part at its beginning where the record is refused. Nothing is
// copied.
pub fn show<'a>(file: &'a [u8], dialect: Dialect, index: &[u32], record: usize) -> &'a [u8]
    ensures { PartOutcome dialect.delimiter dialect.leniencies file.now index.now «record» result.now }
{
    match part_of(file, dialect, index, record) {
        Ok(part) => {
            let start = part.start.0 as usize;
            &file[start..start + part.length as usize]
        }
        Err(_) => &file[..0],
    }
}

// The entry for a record's 64 says where a walk to it begins.
fn part_of(file: &[u8], dialect: Dialect, index: &[u32], record: usize) -> Result<Part, Refusal>
    ensures { JumpOutcome dialect.delimiter dialect.leniencies file.now index.now «record» (lies result) }
{
    if !state::is_valid(dialect) {
        return Err(Refusal::UnknownDialectOrMode);
    }
    if (format::FILE_LIMIT as usize) < file.len() {
        return Err(Refusal::LongFile);
    }
    let entry = index
        .get(record / format::INDEX_STEP)
        .ok_or(Refusal::NoSuchRecord)?;
    let from = *entry as usize;
    if !is_usable(file, from) {
        return Err(Refusal::WrongIndex);
    }
    Walk::new(file, dialect).part_behind(from, record % format::INDEX_STEP)
}

// Whether a walk may begin at a place.
fn is_usable(file: &[u8], at: usize) -> bool
    ensures { IsTrue result ↔ Usable file.now at }
{
    at == 0 || at <= file.len() && file[at - 1] == b'\n'
}

// A file, no longer than files are, and the marks by which it is walked in a dialect: all but what rows of
// bare fields are of.
#[derive(Drop)]
struct Walk<'a> {
    file: &'a [u8],
    rows: MarkTable<RowText>,
    ghost short: { length file.now ≤ file_limit },
}

impl<'a> Walk<'a> {
    fn new(file: &'a [u8], dialect: Dialect) -> Walk<'a>
        requires { length file.now ≤ file_limit }
        ensures file { result.file.now ≡ file.now }
        ensures dialect { result.rows.kind.dialect ≡ dialect }
    {
        Walk {
            file,
            rows: MarkTable::new(RowText { dialect }),
        }
    }

    // Writes the entries of the index, if the file has so many.
    fn write_entries(&self, entries: &mut [u32])
        ensures { (es : List ℕ) → Index (dialect_of self.now.rows.kind.dialect) self.now.file.now es → length es ≡ length entries.old → entries.new ≡ es }
    {
        let mut at = 0;
        for entry in entries.iter_mut() {
            *entry = at as u32;
            let Some(next) = self.pass_records(at, format::INDEX_STEP) else {
                return;
            };
            at = next;
        }
    }

    // Where the next record lies once n are passed from a place on.
    fn part_behind(&self, from: usize, n: usize) -> Result<Part, Refusal>
        requires { from ≤ length self.now.file.now }
        ensures { WalkOutcome (dialect_of self.now.rows.kind.dialect) self.now.file.now (drop from self.now.file.now) n (lies result) }
    {
        let start = self.pass_records(from, n).ok_or(Refusal::WrongIndex)?;
        if self.file.len() <= start {
            return Err(Refusal::NoSuchRecord);
        }
        let end = self.record_end(start).ok_or(Refusal::WrongIndex)?;
        Ok(Part {
            start: ByteOffset(start as u32),
            length: (end.at - start) as u32,
        })
    }

    // Passes n records from a place on, or as many as there are. Where that leads, unless one has a fault.
    fn pass_records(&self, from: usize, n: usize) -> Option<usize>
        requires { from ≤ length self.now.file.now }
        ensures { Passing (dialect_of self.now.rows.kind.dialect) self.now.file.now from n result }
    {
        let mut at = from;
        for _ in 0..n {
            if self.file.len() <= at {
                break;
            }
            at = self.record_end(at)?.next;
        }
        Some(at)
    }

    // Where the record that begins at a place ends, unless it has a fault. How far each turn goes is found
    // in it, so no iterator counts the places.
    fn record_end(&self, from: usize) -> Option<RecordEnd>
        requires { from ≤ length self.now.file.now }
        ensures { Ending (dialect_of self.now.rows.kind.dialect) self.now.file.now from result }
    {
        let mut at = from;
        let mut form = steps::START;
        while at < self.file.len() {
            let s = steps::step(self.rows.kind.dialect, form, self.file[at]);
            let next = match s {
                Stepped::Refuse(_) => return None,
                Stepped::EndRecord if steps::AFTER_CR <= form => return Some(RecordEnd {
                    at: at - 1,
                    next: at + 1,
                }),
                Stepped::EndRecord => return Some(RecordEnd { at, next: at + 1 }),
                Stepped::EndField => steps::START,
                Stepped::Quiet(k) | Stepped::Put(k) | Stepped::Hold(k) | Stepped::Drop(k) => k,
            };
            let spot = self.pass_run(next, at + 1);
            form = spot.form;
            at = spot.at;
        }
        if is_fault_at_end(form) {
            return None;
        }
        Some(RecordEnd { at, next: at })
    }

    // Passes bytes at once behind which the form is known without the table of steps: rows of bare fields, if
    // the field so far has no quote; or content between quotes, and the pairs of quotes behind it.
    fn pass_run(&self, form: u8, at: usize) -> Spot
        requires { at ≤ length self.now.file.now }
        ensures { Skips (dialect_of self.now.rows.kind.dialect) self.now.file.now form at result }
    {
        let delimiter = self.rows.kind.dialect.delimiter;
        if form <= steps::BARE {
            let next = row_end(&self.rows, self.file, at);
            if next == at {
                return Spot { at, form };
            }
            let last = self.file[next - 1];
            return Spot {
                at: next,
                form: row_form(delimiter, last),
            };
        }
        if form == steps::QUOTED {
            let next = at + runs::inner_run(self.file, at);
            return Spot {
                at: pairs_end(self.file, delimiter, next),
                form,
            };
        }
        Spot { at, form }
    }
}

// Whether a file that ends in a form ends in a fault: in open quotes, or behind a CR.
fn is_fault_at_end(form: u8) -> bool
    ensures { result ≡ (eqb form (form_number quoted) || leb (form_number cr) form) }
{
    (form == steps::QUOTED) | (steps::AFTER_CR <= form)
}

// Where the pairs of quotes end that stand from a place on. No dialect delimits by quotes; the test spares
// the walk to ask for that.
fn pairs_end(file: &[u8], delimiter: u8, from: usize) -> usize
    requires { from ≤ length file.now }
    ensures { PairsEnd file.now delimiter from result }
{
    if delimiter == b'"' {
        return from;
    }
    from + 2 * runs::pair_run(file, from)
}

// Where the bytes that are not marked end, from a place on. The last block is shorter, and where each ends
// `words` says, so that an iterator by steps of 64 would be no plainer.
fn row_end(rows: &MarkTable<RowText>, file: &[u8], from: usize) -> usize
    requires { from ≤ length file.now }
    ensures { RowEnd rows.now.marks file.now from result }
{
    let mut at = from;
    while at < file.len() {
        let w = rows.word_at::<64>(file, at);
        if w != 0 {
            return at + w.trailing_zeros() as usize;
        }
        at = words::block_end(file, at);
    }
    at
}

// The form behind a byte of a row of bare fields.
fn row_form(delimiter: u8, last: u8) -> u8
    ensures { result ≡ row_form delimiter last }
{
    if last == delimiter {
        steps::START
    } else {
        steps::BARE
    }
}
