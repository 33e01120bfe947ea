// One stride of the second walk: a byte by the table of steps, or a field found at a mark.
//
// Nothing is judged here. fill's specs/Fill.antt says what there is to write, as functions of the bytes
// ahead, and its specs/Walk.antt what it means to have written it from one place to another.

#![tactic(auto)]

ghost use Rattle.std.specs.Prelude.{◌≡◌, Bool, ◌∷◌, [], ◌++◌, ◌<◌, ◌≤◌, length, slice_index, replicate, IfSome, IfNone};
ghost use Rattle.format.specs.Meant.{dialect_of};
ghost use Rattle.fill.specs.Buffers.{SameBuffers, lists};
ghost use Rattle.fill.specs.Put.{Puts};
ghost use Rattle.fill.specs.Walk.{Wrote};
ghost use Rattle.stride.specs.Stride.{Ample, EndAt, Found, length_of, is_record_end};

use fill::{Buffers, Field, Head};
use format::Dialect;
use steps::Stepped;

// What ends a field: a delimiter, or a line break, which ends the record too.
#[derive(Clone, Copy)]
enum Ending {
    Delimiter,
    Break,
}

impl Ending {
    fn length(self) -> usize
        ensures { result ≡ length_of self }
    {
        match self {
            Ending::Delimiter => 1,
            Ending::Break => 2,
        }
    }

    fn ends_record(self) -> bool
        ensures { result ≡ is_record_end self }
    {
        matches!(self, Ending::Break)
    }
}

// Takes the byte at a place, if there is one and there is room for what it puts out. A refusal, which an
// accepted file does not have, ends the walk.
pub fn take_byte(file: &[u8], dialect: Dialect, p: Head, to: &mut Buffers) -> Option<Head>
    ensures same { SameBuffers to.old to.new }
    ensures further { IfSome result (λ q. (p.at < length file.now) × (p.at < q.at)) }
    ensures wrote { IfSome result (λ q. (w : Bool) → Wrote w (dialect_of dialect) file.now p (lists to.old) q (lists to.new)) }
    ensures unchanged { IfNone result (lists to.new ≡ lists to.old) }
    ensures no_room_or_byte { IfNone result ((w : Bool) → Ample w (dialect_of dialect) file.now p (lists to.old) → length file.now ≤ p.at) }
{
    let b = *file.get(p.at)?;
    let next = Head {
        at: p.at + 1,
        begun: true,
        ..p
    };
    match steps::step(dialect, p.form, b) {
        Stepped::Refuse(_) => Some(Head {
            at: file.len(),
            begun: false,
            ..p
        }),
        Stepped::Quiet(form) | Stepped::Drop(form) => Some(Head { form, ..next }),
        Stepped::Put(form) => {
            let text = put_byte(p, b, to.text)?;
            Some(Head {
                form,
                held: 0,
                text,
                ..next
            })
        }
        Stepped::Hold(form) => {
            let held = p.held.checked_add(1)?;
            Some(Head { form, held, ..next })
        }
        Stepped::EndField => fill::put_end(p, next.at, false, to),
        Stepped::EndRecord => fill::put_end(p, next.at, true, to),
    }
}

// Writes the blanks held and then a byte of content, and says where they end.
fn put_byte(p: Head, b: u8, text: &mut [u8]) -> Option<usize>
    ensures { Puts text.old p.text (replicate p.held 0x20 ++ b ∷ []) result text.new }
{
    let last = p.text.checked_add(p.held)?;
    if text.len() <= last {
        return None;
    }
    text[p.text..last].fill(b' ');
    text[last] = b;
    Some(last + 1)
}

// The field that ends at the mark q, if it is plain text up to there.
pub fn field_at(file: &[u8], dialect: Dialect, p: Head, q: usize) -> Option<Field<'_>>
    ensures { Found (dialect_of dialect) file.now p q result }
{
    if let Some(ending) = end_at(file, dialect.delimiter, q) {
        return Some(Field {
            content: file.get(p.at..q)?,
            next: q + ending.length(),
            row: ending.ends_record(),
        });
    }
    if q == p.at {
        return quoted_field(file, dialect, p);
    }
    None
}

// The same where a quote stands: a field that it opens, of bytes that are content in every dialect, up to
// its closing quote.
fn quoted_field(file: &[u8], dialect: Dialect, p: Head) -> Option<Field<'_>>
    requires { p.at < length file.now → slice_index file.now p.at ≡ dialect.delimiter → ⊥ }
    ensures { Found (dialect_of dialect) file.now p p.at result }
{
    if *file.get(p.at)? != b'"' {
        return None;
    }
    let from = p.at + 1;
    let to = from + runs::inner_run(file, from);
    if *file.get(to)? != b'"' {
        return None;
    }
    let ending = end_at(file, dialect.delimiter, to + 1)?;
    Some(Field {
        content: &file[from..to],
        next: to + 1 + ending.length(),
        row: ending.ends_record(),
    })
}

// What ends a field at a place.
fn end_at(file: &[u8], delimiter: u8, at: usize) -> Option<Ending>
    ensures found { IfSome result (EndAt file.now delimiter at) }
    ensures no_delimiter { IfNone result (at < length file.now → slice_index file.now at ≡ delimiter → ⊥) }
{
    if *file.get(at)? == delimiter {
        return Some(Ending::Delimiter);
    }
    runs::is_break(file, at).then_some(Ending::Break)
}
