// The check fed in pieces: start it with a dialect, feed it pieces of any length, ask it at any time.
//
// The state goes in and comes back by value. What a byte does to it is in the crate `state`, what many do
// at once in `passes`; specs/Answers.antt says what a state stands for, and so what the answers mean.

#![tactic(auto)]

ghost use Rattle.std.specs.Prelude.{true, IfSome, ◌≤◌, ◌≡◌};
ghost use Rattle.format.specs.Dialect.{bit_of};
ghost use Rattle.format.specs.Meant.{meant};
ghost use Rattle.format.specs.Place.{place};
ghost use Rattle.format.specs.Answer.{answer_from};
ghost use Rattle.steps.specs.Steps.{start, shut};
ghost use Rattle.steps.specs.Numbers.{form_number};
ghost use Rattle.places.specs.Counters.{along};
ghost use Rattle.state.specs.Check.{entered, placed, fed, jumped};
ghost use Rattle.passes.specs.Passes.{Leads};
ghost use Rattle.pieces.specs.Asked.{bit_if, totalled, settled_answer};
ghost use Rattle.pieces.specs.Answers.{Answers, Started, Fed, Asked};

use format::{
    ByteOffset, Column, Dialect, FieldNumber, Leniency, Line, Place, ReadError, Refusal, Totals,
};
use passes::Reached;
use state::{Check, Counts, Current, Used};

// A check of a dialect, before any byte.
pub fn start(dialect: Dialect) -> Check
    ensures { Started dialect.delimiter dialect.leniencies result }
{
    let here = first_place();
    let number = FieldNumber(0);
    Check {
        delimiter: dialect.delimiter,
        leniencies: dialect.leniencies,
        refusal: 0,
        form: steps::START,
        begun: 0,
        used: Used {
            lf: 0,
            blanks: 0,
            ragged: 0,
            bytes: 0,
        },
        here,
        anchor: places::nowhere(),
        field: Current {
            start: here,
            content: 0,
            held: 0,
            number,
        },
        counts: Counts {
            records: 0,
            fields: number,
            text: 0,
            width: 0,
        },
    }
}

// The place of a file's first byte.
fn first_place() -> Place
    ensures { result ≡ place 1 1 0 }
{
    Place {
        line: Line(1),
        column: Column(1),
        byte: ByteOffset(0),
    }
}

// The state behind one more piece: as many bytes as can be passed at once, then one, and so on. How many
// are passed is found on the way, so no iterator counts them.
pub fn feed(check: Check, piece: &[u8]) -> Check
    ensures { Fed check piece.now result }
{
    let mut c = check;
    let mut i = 0;
    while i < piece.len() {
        let r = pass_long(c, piece, i);
        c = r.check;
        i = r.at;
        if i < piece.len() {
            c = taken(c, piece[i]);
            i += 1;
        }
    }
    c
}

// Passes what can be passed at once where much of a piece is left. The last bytes, which may be all of it,
// are taken one by one. A pass gets the piece as a part of itself: lent on as it is, it would have to lie in
// memory, which costs a piece of one byte most.
fn pass_long(check: Check, piece: &[u8], at: usize) -> Reached
    ensures { Leads check piece.now at result }
{
    if piece.len() <= at || piece.len() - at < 48 {
        return Reached { at, check };
    }
    passes::passed(check, &piece[0..piece.len()], at)
}

// What the bytes so far hold as one whole file, or why they are none. Asking changes nothing.
pub fn ask(check: Check) -> Result<Totals, ReadError>
    ensures { Asked check (answer_from result) }
{
    if !state::is_valid(check.dialect()) {
        return Err(Refusal::UnknownDialectOrMode.at(places::nowhere()));
    }
    if format::FILE_LIMIT < check.here.byte.0 {
        return Err(Refusal::LongFile.at(places::nowhere()));
    }
    if check.refusal != 0 || check.begun == 0 {
        return settled(check);
    }
    if check.form == steps::QUOTED {
        return Err(Refusal::QuotedFieldOpen.at(check.anchor));
    }
    if steps::AFTER_CR <= check.form {
        return Err(Refusal::CrWithoutLf.at(check.anchor));
    }
    settled(check.record_ended(check.used, check.here, check.here, false))
}

// The same for a whole file at once.
pub fn checked(file: &[u8], dialect: Dialect) -> Result<Totals, ReadError>
    ensures { Answers dialect.delimiter dialect.leniencies file.now (answer_from result) }
{
    ask(feed(start(dialect), file))
}

// One byte more: behind a refusal it is only counted, and what is one jump, or may close the quotes,
// takes a short way.
fn taken(check: Check, b: u8) -> Check
    ensures { result ≡ fed check b }
{
    if check.refusal != 0 {
        return check.placed(places::moved(b, check.here));
    }
    if let Some(form) = jump_form(check, b) {
        return check.jumped(form, places::along(1, check.here), 1);
    }
    if is_quote(check, steps::QUOTED, b) {
        return shut(check);
    }
    check.take(b)
}

// The form that b jumps to, if it is one jump: as plain text outside quotes, or as content between them,
// which the second quote of a pair is.
fn jump_form(check: Check, b: u8) -> Option<u8>
    requires { check.refusal ≡ 0 }
    ensures { IfSome result (λ form. fed check b ≡ jumped form (along 1 check.here) 1 check) }
{
    if check.form < steps::QUOTED {
        return runs::is_plain(check.dialect(), b).then_some(steps::BARE);
    }
    let is_content = if check.form == steps::QUOTED {
        runs::is_inner(b)
    } else {
        is_quote(check, steps::SHUT, b)
    };
    is_content.then_some(steps::QUOTED)
}

// Whether b is a quote, not the delimiter, in form k.
fn is_quote(check: Check, k: u8, b: u8) -> bool
    ensures { result ≡ true → (check.form ≡ k) × (b ≡ 0x22) × (check.delimiter ≡ 0x22 → ⊥) }
{
    check.form == k && b == b'"' && check.delimiter != b'"'
}

// The state behind a quote that may close the field, or be the first of a pair.
fn shut(check: Check) -> Check
    ensures { result ≡ placed (along 1 check.here) (entered (form_number shut) check.anchor check.used check.field check) }
{
    Check {
        form: steps::SHUT,
        begun: 1,
        here: places::along(1, check.here),
        ..check
    }
}

// The answer of a state that no open field leaves.
#[tactic(auto, unfolding(crate::specs::Asked::settled_answer))]
fn settled(check: Check) -> Result<Totals, ReadError>
    ensures { answer_from result ≡ settled_answer check }
{
    if check.refusal == 0 {
        return Ok(totalled(check));
    }
    Err(ReadError {
        number: check.refusal,
        place: check.anchor,
    })
}

// The totals, with the report: the bits of the leniencies used.
#[tactic(auto, unfolding(crate::specs::Asked::totalled))]
fn totalled(check: Check) -> Totals
    ensures { result ≡ totalled check }
{
    let v = check.used;
    let report = bit_if(v.lf, Leniency::Lf)
        + (bit_if(v.blanks, Leniency::Blanks)
            + (bit_if(v.ragged, Leniency::Ragged) + bit_if(v.bytes, Leniency::Bytes)));
    Totals {
        records: check.counts.records,
        fields: check.counts.fields,
        text: check.counts.text,
        report,
    }
}

// The bit of a leniency that was used.
fn bit_if(used: u8, leniency: Leniency) -> u32
    ensures value { result ≡ bit_if used (bit_of (meant leniency)) }
    ensures result_bound { result ≤ 8 }
{
    if used == 0 { 0 } else { leniency.bit() as u32 }
}
