// Many bytes of a piece, taken by a stream at once: they go through the check, and if that shows no refusal
// the second walk of the reader writes what they put out.

#![tactic(auto)]

ghost use Rattle.std.specs.Prelude.{◌+◌, ◌-◌, ◌^◌, ◌<◌, ◌≤◌, ◌≡◌, All, IfNone, IfSome, length, map, drop};
ghost use Rattle.fill.specs.Buffers.{SameBuffers, lists};
ghost use Rattle.taking.specs.Walk.{Inside, lengths, rest_of, Put, Grew};
ghost use Rattle.room.specs.Room.{Ample, put_out};

use fill::{Buffers, Head};
use taking::{Flow, Lengths};

// Parts are of no fewer bytes than these.
const LEAST: usize = 16;

// Takes many bytes at once, no more than so many, if it can; or writes nothing. From a place that lies
// outside the piece or a buffer it takes none.
pub fn passed(p: Flow, most: usize, piece: &[u8], to: &mut Buffers) -> Option<Flow>
    ensures same { SameBuffers to.old to.new }
    ensures grew { IfSome result (λ q. Grew piece.now p (lists to.old) q (lists to.new) (rest_of q piece.now (lists to.new))) }
    ensures unwritten { IfNone result (lists to.new ≡ lists to.old) }
    ensures from_inside { IfSome result (λ q. Inside p (lengths piece.now (lists to.old))) }
{
    let n = room::part(p, most, Lengths::new(piece, to));
    if n < LEAST {
        return None;
    }
    let end = p.taken + n;
    let check = pieces::feed(p.state.check, &piece[p.taken..end]);
    if output::is_shown(check) {
        return None;
    }
    let behind = p.onward(check, end);
    if format::CONTENT_LIMIT < p.state.check.field.content {
        return Some(behind);
    }
    if format::CONTENT_LIMIT < check.field.content {
        return None;
    }
    let head = put_part(p, &piece[..end], to);
    Some(Flow {
        text: head.text,
        ends: head.ends,
        rows: head.rows,
        ..behind
    })
}

// Writes what the rest of a piece puts out. The second walk counts from the front of each buffer, so that
// its ends and rows lack what came out before this call.
fn put_part(p: Flow, piece: &[u8], to: &mut Buffers) -> Head
    requires taken_in_bounds { p.taken ≤ length piece.now }
    requires ample { Ample p (length piece.now - p.taken) (lengths piece.now (lists to.old)) }
    ensures same { SameBuffers to.old to.new }
    ensures text_put { Put to.old.text.now p.text (put_out p.state.check (drop p.taken piece.now)).text to.new.text.now result.text }
    ensures ends_put { Put to.old.ends.now p.ends (put_out p.state.check (drop p.taken piece.now)).ends to.new.ends.now result.ends }
    ensures rows_put { Put to.old.rows.now p.rows (put_out p.state.check (drop p.taken piece.now)).rows to.new.rows.now result.rows }
{
    let check = p.state.check;
    let head = Head {
        at: p.taken,
        form: check.form,
        held: check.field.held as usize,
        text: p.text,
        ends: p.ends,
        rows: p.rows,
        begun: check.begun != 0,
    };
    let q = walk::walked(piece, check.dialect(), head, to);
    let text_before = check.counts.text + check.field.content - (p.text as u32);
    let fields_before = check.counts.fields.0 - (p.ends as u32);
    raise(&mut to.ends[p.ends..q.ends], text_before);
    raise(&mut to.rows[p.rows..q.rows], fields_before);
    q
}

// Makes entries greater by n.
fn raise(entries: &mut [u32], n: u32)
    requires { All (λ x. x + n < 2 ^ 32) entries.old }
    ensures { entries.new ≡ map (λ x. x + n) entries.old }
{
    for entry in entries.iter_mut() {
        *entry += n;
    }
}
