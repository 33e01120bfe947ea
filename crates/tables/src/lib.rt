// Tables in memory: text, ends and rows, as the reader writes them.

#![tactic(auto)]

pub mod fields;

ghost use Rattle.std.specs.Prelude.{ℕ, ◌≡◌, ◌≤◌, ◌<◌, ◌↔◌, length, IsTrue, MatchOption, option_map, slice_get};
ghost use Rattle.std.proofs.Props.{props};
ghost use Rattle.format.specs.Memory.{largest32, WellFormed, start_of};
ghost use Rattle.format.specs.Answer.{search_numbers, part_numbers};
ghost use Rattle.tables.specs.Formed.{Decides, CountsTo, Small, Row, Ordered-prop};
ghost use Rattle.tables.specs.Seek.{Sought, Strays, paired};
ghost use Rattle.tables.specs.Shown.{Shown, Located, Numbered};
ghost use Rattle.tables.specs.Search.{Searched, Repeats, Named, Least};
ghost use Rattle.tables.specs.Fields.{contents};

use fields::{Fields, Records};
use format::{FieldNumber, Part, RecordNumber, SearchError, TextIndex};
use std::ops::Range;

// A table in memory, well formed or not: the text of all fields joined; for each field the text's length
// so far; for each record the number of fields so far. The numbers have a lifetime of their own: a part of
// the text that is shown outlives them.
#[derive(Clone, Copy)]
pub struct Table<'t, 'n> {
    pub text: &'t [u8],
    pub ends: &'n [u32],
    pub rows: &'n [u32],
}

// A table that is well formed.
#[derive(Clone, Copy)]
pub struct Formed<'t, 'n> {
    pub table: Table<'t, 'n>,
    ghost well_formed: { WellFormed table.text.now table.ends.now table.rows.now } by { Prim.hlevel (props, Ordered-prop) },
    ghost small: { Small table.text.now table.ends.now table.rows.now },
}

impl<'t, 'n> Table<'t, 'n> {
    // Whether it is well formed.
    pub fn is_well_formed(&self) -> bool
        ensures { Decides result (WellFormed self.now.text.now self.now.ends.now self.now.rows.now) }
    {
        self.formed().is_some()
    }

    // The same table, known to be well formed; or none, where it is not.
    pub fn formed(&self) -> Option<Formed<'t, 'n>>
        ensures { MatchOption result
            (¬ (WellFormed self.now.text.now self.now.ends.now self.now.rows.now))
            (λ formed. formed.table ≡ self.now) }
    {
        let Table { text, ends, rows } = *self;
        if counts_to(rows, 1, ends.len()) && counts_to(ends, 0, text.len()) {
            Some(Formed { table: *self })
        } else {
            None
        }
    }

    // The field of a record and a column, both from 0, as a part of text; or the stand-in, where the table
    // is malformed or has no such place. Nothing is copied.
    pub fn show(&self, record: RecordNumber, column: FieldNumber, stand_in: &'t [u8]) -> &'t [u8]
        ensures { Shown self.now.text.now self.now.ends.now self.now.rows.now «record».0 column.0
            stand_in.now result.now }
    {
        match self.locate(record, column) {
            Some(part) => {
                let start = part.start.0 as usize;
                &self.text[start..start + part.length as usize]
            }
            None => stand_in,
        }
    }

    // Where that field lies in text, for a caller to whom no part can be handed out.
    pub fn locate(&self, record: RecordNumber, column: FieldNumber) -> Option<Part>
        ensures { Located self.now.text.now self.now.ends.now self.now.rows.now «record».0 column.0
            (part_numbers result) }
    {
        self.formed()?.locate(record, column)
    }

    // The column, from 0, whose whole name in the header is the name, byte for byte; or why there is none to
    // give. The header is the first record. Two equal names in it are refused whatever the name.
    pub fn find_column(&self, name: &[u8]) -> Result<FieldNumber, SearchError>
        ensures { Searched self.now.text.now self.now.ends.now self.now.rows.now name.now
            (search_numbers result) }
    {
        let formed = self.formed().ok_or(SearchError::Malformed)?;
        formed.find_column(name)
    }
}

impl<'t, 'n> Formed<'t, 'n> {
    ghost use mathlib.Core.List.{flatten};
    ghost use Rattle.tables.specs.Records.{held, records};

    // The fields of a record, from 0, if there is one.
    pub fn record(&self, record: usize) -> Option<Fields<'t, 'n>>
        ensures { option_map contents result ≡ slice_get (held self.now) «record» }
    {
        let Table { text, ends, .. } = self.table;
        let numbers = self.numbers(record)?;
        let first = numbers.start as usize;
        Some(Fields {
            text,
            from: start_of(ends, first) as usize,
            ends: &ends[first..numbers.end as usize],
        })
    }

    // All its fields, record after record.
    pub fn fields(&self) -> Fields<'t, 'n>
        ensures { contents result ≡ flatten (held self.now) }
    {
        Fields {
            text: self.table.text,
            from: 0,
            ends: self.table.ends,
        }
    }

    // Its records, one after the other.
    pub fn records(&self) -> Records<'t, 'n>
        ensures { records result ≡ held self.now }
    {
        let Table { text, ends, rows } = self.table;
        Records {
            text,
            ends,
            first: 0,
            start: 0,
            rows,
        }
    }

    // Where the field of a record and a column lies in text.
    fn locate(&self, record: RecordNumber, column: FieldNumber) -> Option<Part>
        ensures { let t = self.now.table in
            Located t.text.now t.ends.now t.rows.now «record».0 column.0 (part_numbers result) }
    {
        let ends = self.table.ends;
        let k = self.number(record, column)?;
        let start = start_of(ends, k);
        Some(Part {
            start: TextIndex(start),
            length: ends[k] - start,
        })
    }

    // The column that has the name.
    fn find_column(&self, name: &[u8]) -> Result<FieldNumber, SearchError>
        ensures { let t = self.now.table in
            Searched t.text.now t.ends.now t.rows.now name.now (search_numbers result) }
    {
        let header = self.record(0).ok_or(SearchError::Missing)?;
        if let Some(later) = first_repeated(header) {
            return Err(SearchError::Twice(FieldNumber(later as u32)));
        }
        let column = first_named(header, name).ok_or(SearchError::Missing)?;
        Ok(FieldNumber(column as u32))
    }

    // The number of the field of a record and a column in the whole table, if it has the place.
    fn number(&self, record: RecordNumber, column: FieldNumber) -> Option<usize>
        ensures { let t = self.now.table in
            Numbered t.text.now t.ends.now t.rows.now «record».0 column.0 result }
    {
        let numbers = self.numbers(record.0 as usize)?;
        let k = numbers.start as usize + column.0 as usize;
        (k < numbers.end as usize).then_some(k)
    }

    // The numbers of all fields of a record, if there is one.
    fn numbers(&self, record: usize) -> Option<Range<u32>>
        ensures { let t = self.now.table in MatchOption result (length t.rows.now ≤ «record»)
            (λ n. Row t.rows.now (length t.ends.now) «record» n.start n.end) }
    {
        let rows = self.table.rows;
        let next = *rows.get(record)?;
        Some(start_of(rows, record)..next)
    }
}

// The lowest column whose name is that of an earlier one, if there is one.
fn first_repeated(header: Fields<'_, '_>) -> Option<usize>
    ensures { let names = contents header.entry in Least (Repeats names) (length names) result }
{
    header
        .enumerate()
        .position(|(later, name)| has_before(header, later, name))
}

// Whether a column before that one has the name.
fn has_before(header: Fields<'_, '_>, column: usize, name: &[u8]) -> bool
    ensures { let names = contents header.entry in
        Decides result ((i : ℕ) × (i < column) × (i < length names) × Named names name.now i) }
{
    header.take(column).any(|field| field == name)
}

// The lowest column that has the name, if there is one.
fn first_named(mut header: Fields<'_, '_>, name: &[u8]) -> Option<usize>
    ensures { let names = contents header.entry in
        Least (Named names name.now) (length names) result }
{
    header.position(|field| field == name)
}

// Whether each entry is at least so much above the one before it, and the first above 0; and the last, or
// 0 where there is none, is that count.
fn counts_to(list: &[u32], least: u32, count: usize) -> bool
    ensures counts { Decides result (CountsTo least list.now count) }
    ensures small { IsTrue result → count ≤ largest32 }
{
    first_outside(list, least, u32::MAX).is_none() && start_of(list, list.len()) as usize == count
}

// The first entry whose distance from the one before it, or from 0, is below the least or above the
// most, if there is one. The entries may fall: one below that before it is below any least.
pub fn first_outside(list: &[u32], least: u32, most: u32) -> Option<usize>
    ensures { Sought (Strays least most) (paired 0 list.now) result }
{
    let mut before = 0;
    for (i, next) in list.iter().enumerate() {
        if strays(before, *next, least, most) {
            return Some(i);
        }
        before = *next;
    }
    None
}

// Whether the second is closer to the first than the least, falls below it, or is further than the most.
fn strays(before: u32, next: u32, least: u32, most: u32) -> bool
    ensures { IsTrue result ↔ Strays least most (before, next) }
{
    let (before, next) = (u64::from(before), u64::from(next));
    next < before + u64::from(least) || before + u64::from(most) < next
}

// Where entry k begins, or one behind the last: at the entry before it, or at 0.
fn start_of(list: &[u32], k: usize) -> u32
    requires { k ≤ length list.now }
    ensures { result ≡ start_of list.now k }
{
    list[..k].last().copied().unwrap_or(0)
}
