// Passes over a piece: many bytes at once.
//
// A pass asks nothing of its caller and has one promise, `Leads` in specs/Passes.antt: the bytes that are
// left lead from the state that it gives to where all of them led before. How far it goes is its own
// affair.

#![tactic(auto)]

ghost use Rattle.std.specs.Prelude.{◌≤◌, length, true, ◌≡◌};
ghost use Rattle.steps.specs.Steps.{bare, quoted};
ghost use Rattle.steps.specs.Numbers.{form_number};
ghost use Rattle.places.specs.Counters.{counter_limit};
ghost use Rattle.state.specs.Settled.{Settled};
ghost use Rattle.spans.specs.Walk.{opening, begun, texted, walked};
ghost use Rattle.passes.specs.Passes.{Leads};

use format::{FieldNumber, Place};
use spans::Walk;
use state::{Check, Counts, Current};

// A state, and the place in a piece that it stands at.
#[derive(Clone, Copy)]
pub struct Reached {
    pub at: usize,
    pub check: Check,
}

// Passes the bytes from a place on that are one jump, none of them where there are none.
pub fn passed(check: Check, s: &[u8], at: usize) -> Reached
    ensures { Leads check s.now at result }
{
    if s.len() <= at {
        return Reached { at, check };
    }
    if check.refusal != 0 {
        return pass_refused(check, s, at);
    }
    if check.form == steps::QUOTED {
        return pass_inside(check, s, at);
    }
    // No walk goes over the first LF alone, and it would make its tables before it sees one.
    if steps::QUOTED < check.form || (s[at] == b'\n' && check.used.lf == 0) {
        return Reached { at, check };
    }
    let r = pass_rows(check, s, at);
    if r.at != at {
        return r;
    }
    pass_text(check, s, at)
}

// Passes all bytes behind a refusal, which are only counted.
fn pass_refused(check: Check, s: &[u8], at: usize) -> Reached
    requires at_in_bounds { at ≤ length s.now }
    requires is_refused { check.refusal ≡ 0 → ⊥ }
    ensures { Leads check s.now at result }
{
    if !is_before_stop(check.here) {
        return Reached { at, check };
    }
    let lines = runs::line_feeds(s, at);
    let tail = runs::since_lf(s, at);
    let p = places::spot(lines, tail, s.len() - at, check.here);
    Reached {
        at: s.len(),
        check: check.placed(p),
    }
}

// Whether no counter of a place is past its stop.
fn is_before_stop(p: Place) -> bool
    ensures { result ≡ true → (p.line.0 ≤ counter_limit) × (p.column.0 ≤ counter_limit) × (p.byte.0 ≤ counter_limit) }
{
    p.line.0 <= places::COUNTER_LIMIT
        && p.column.0 <= places::COUNTER_LIMIT
        && p.byte.0 <= places::COUNTER_LIMIT
}

// Passes plain text outside quotes.
fn pass_text(check: Check, s: &[u8], at: usize) -> Reached
    requires at_in_bounds { at ≤ length s.now }
    requires outside { (check.refusal ≡ 0) × (check.form ≤ form_number bare) }
    ensures { Leads check s.now at result }
{
    let k = runs::text_run(check.dialect(), s, at);
    if k == 0 {
        return Reached { at, check };
    }
    Reached {
        at: at + k,
        check: check.jumped(steps::BARE, places::along(k, check.here), k),
    }
}

// Passes content between quotes.
fn pass_inside(check: Check, s: &[u8], at: usize) -> Reached
    requires at_in_bounds { at ≤ length s.now }
    requires between { (check.refusal ≡ 0) × (check.form ≡ form_number quoted) }
    ensures { Leads check s.now at result }
{
    if !is_settled(check) {
        return Reached { at, check };
    }
    let q = spans::between_quotes(s, at);
    let p = places::spot(q.lines, q.tail, q.end - at, check.here);
    Reached {
        at: q.end,
        check: check.jumped(steps::QUOTED, p, q.content),
    }
}

// Whether content between quotes is one jump from here.
fn is_settled(check: Check) -> bool
    ensures { result ≡ true → check.refusal ≡ 0 → check.form ≡ form_number quoted → Settled check }
{
    check.delimiter != b'"'
        && check.begun == 1
        && check.field.held == 0
        && check.field.content <= places::COUNTER_LIMIT
        && is_before_stop(check.here)
}

// Passes fields and records.
fn pass_rows(check: Check, s: &[u8], at: usize) -> Reached
    ensures { Leads check s.now at result }
{
    let x = spans::rows(check, s, at);
    Reached {
        at: x.at,
        check: walked(check, x, at),
    }
}

// The state behind a walk from a place: the field in work, and its text so far.
#[tactic(auto, unfolding(spans::specs::Walk::walked))]
fn walked(check: Check, x: Walk, at: usize) -> Check
    requires { (at ≤ x.line) × (x.line ≤ x.start) × (x.start ≤ x.at) }
    ensures { result ≡ walked x at check }
{
    texted(begun_by(check, x, at), x.at - x.start)
}

// Behind m bytes of text outside quotes.
fn texted(check: Check, m: usize) -> Check
    ensures { result ≡ texted m check }
{
    if m == 0 {
        return check;
    }
    check.jumped(steps::BARE, places::along(m, check.here), m)
}

// Where the field in work begins: where the walk does, while no field is closed.
fn begun_by(check: Check, x: Walk, at: usize) -> Check
    requires { (at ≤ x.line) × (x.line ≤ x.start) }
    ensures { result ≡ begun x at check }
{
    if x.fields == 0 {
        return check;
    }
    opening(check, x, at)
}

// The start of the field in work behind a walk from a place.
fn opening(check: Check, x: Walk, at: usize) -> Check
    requires { (at ≤ x.line) × (x.line ≤ x.start) }
    ensures { result ≡ opening x at check }
{
    let here = places::spot(x.lines, x.start - x.line, x.start - at, check.here);
    let field = Current {
        start: here,
        content: 0,
        held: 0,
        number: FieldNumber(places::plus(0, x.number)),
    };
    let counts = Counts {
        records: places::plus(check.counts.records, x.rows),
        fields: FieldNumber(places::plus(check.counts.fields.0, x.fields)),
        text: places::plus(check.counts.text, x.text),
        ..check.counts
    };
    Check {
        form: steps::START,
        begun: u8::from(x.number != 0),
        here,
        anchor: places::nowhere(),
        field,
        counts,
        ..check
    }
}
