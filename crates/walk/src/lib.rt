// The second walk over a file: from any place on, what lies ahead is written as far as there is room.
//
// Nothing is judged here. fill's specs/Fill.antt says what there is to write, as functions of the bytes
// ahead, and its specs/Walk.antt what it means to have written it from one place to another.

#![tactic(auto)]

ghost use Rattle.std.specs.Prelude.{◌≡◌, Bool, IsTrue, ℕ, ◌≤◌, List, length};
ghost use Rattle.format.specs.Meant.{dialect_of};
ghost use Rattle.steps.specs.Steps.{start};
ghost use Rattle.steps.specs.Numbers.{form_number};
ghost use Rattle.fill.specs.Buffers.{SameBuffers, lists};
ghost use Rattle.fill.specs.Walk.{Wrote};
ghost use Rattle.stride.specs.Stride.{Ample};

use fill::{Buffers, Head};
use format::Dialect;
use words::{MarkTable, PlainText};

// Goes on from a place to the file's end, or as far as there is room.
pub fn walked(file: &[u8], dialect: Dialect, p: Head, to: &mut Buffers) -> Head
    ensures same { SameBuffers to.old to.new }
    ensures wrote { (w : Bool) → Wrote w (dialect_of dialect) file.now p (lists to.old) result (lists to.new) }
    ensures to_the_end { (w : Bool) → Ample w (dialect_of dialect) file.now p (lists to.old) → length file.now ≤ result.at }
{
    let stops = MarkTable::new(PlainText { dialect });
    let mut h = p;
    while let Some(q) = stride::take_byte(file, dialect, h, to) {
        h = pass_fields(&stops, file, q, to);
    }
    h
}

// Passes what can be written at once: bare fields of plain text, and quoted ones of bytes that are
// content in every dialect, from the start of one on, each where its end is found, by words that mark
// what is no plain text; or what stands between quotes.
fn pass_fields(stops: &MarkTable<PlainText>, file: &[u8], p: Head, to: &mut Buffers) -> Head
    requires { p.at ≤ length file.now }
    ensures same { SameBuffers to.old to.new }
    ensures wrote { (w : Bool) → Wrote w (dialect_of stops.now.kind.dialect) file.now p (lists to.old) result (lists to.new) }
{
    let dialect = stops.kind.dialect;
    if !begins(p, dialect) {
        return pass_content(file, dialect, p, to.text);
    }
    let mut h = p;
    // From mark to mark, over the ends of blocks, which no iterator counts.
    let mut i = p.at;
    while i < file.len() {
        let e = words::block_end(file, i);
        let mut w = stops.word_at::<64>(file, i);
        while w != 0 {
            let k = w.trailing_zeros();
            let q = i + (k as usize);
            let Some(x) = stride::field_at(file, dialect, h, q) else {
                return h;
            };
            let Some(next) = fill::put_field(h, x, to) else {
                return h;
            };
            h = next;
            w = words::shifted(w >> k, h.at - q);
            i = h.at;
        }
        i = i.max(e);
    }
    h
}

// Whether the walk is at the start of a field, and no LF delimits fields.
fn begins(p: Head, dialect: Dialect) -> bool
    ensures { IsTrue result → (p.form ≡ form_number start) × (p.held ≡ 0) × (dialect.delimiter ≡ 0x0A → ⊥) }
{
    p.form == steps::START && p.held == 0 && dialect.delimiter != b'\n'
}

// Passes what stands between quotes, where a quote is no delimiter.
fn pass_content(file: &[u8], dialect: Dialect, p: Head, text: &mut [u8]) -> Head
    ensures { (w : Bool) (ends rows : List ℕ) → Wrote w (dialect_of dialect) file.now p (record { text = text.old; ends = ends; rows = rows }) result (record { text = text.new; ends = ends; rows = rows }) }
{
    if dialect.delimiter == b'"' {
        return p;
    }
    inside::pass_inside(file, p, text)
}
