// The state of a check, and what one byte does to it.
//
// It goes in and comes back by value, and holds numbers alone, so that any bit pattern is a state and no
// function here asks anything of its caller. specs/Check.antt says what a byte does to it, for every
// state.

#![tactic(auto)]

ghost use Rattle.std.specs.Prelude.{◌≡◌};
ghost use Rattle.format.specs.Dialect.{only_wide};
ghost use Rattle.steps.specs.Model.{is_valid};
ghost use Rattle.places.specs.Counters.{plus};
ghost use Rattle.state.specs.Check.{new_field, stopped, entered, opened, placed, noting, noted, used_at_end, one_field, as_wide, one_record, field_ended, record_ended, seen_at, grown, stepped, fed, jumped};

use format::{Dialect, FieldNumber, Leniency, Place, Refusal};
use steps::Stepped;

// The leniencies used so far; 0 for no.
#[repr(C)]
#[derive(Clone, Copy)]
pub struct Used {
    pub lf: u8,
    pub blanks: u8,
    pub ragged: u8,
    pub bytes: u8,
}

// The field in work: its first byte, the content so far, the blanks held, and its number in its record.
#[repr(C)]
#[derive(Clone, Copy)]
pub struct Current {
    pub start: Place,
    pub content: u32,
    pub held: u32,
    pub number: FieldNumber,
}

// What has been closed so far, and the number of fields of the first record, 0 before its end.
#[repr(C)]
#[derive(Clone, Copy)]
pub struct Counts {
    pub records: u32,
    pub fields: FieldNumber,
    pub text: u32,
    pub width: u32,
}

// A check's state. The anchor is the place of the opening quote inside quotes, of the CR behind one, and
// the place that a refusal names once there is one. begun is 0 where no byte came since the last
// record's end.
#[repr(C)]
#[derive(Clone, Copy)]
pub struct Check {
    pub delimiter: u8,
    pub leniencies: u8,
    pub refusal: u8,
    pub form: u8,
    pub begun: u8,
    pub used: Used,
    pub here: Place,
    pub anchor: Place,
    pub field: Current,
    pub counts: Counts,
}

// A field that begins at p, as number n of its record.
fn new_field(p: Place, n: u32) -> Current
    ensures { result ≡ new_field p n }
{
    Current {
        start: p,
        content: 0,
        held: 0,
        number: FieldNumber(n),
    }
}

// 1 where the test holds, and else what was.
fn noting(test: bool, was: u8) -> u8
    ensures { result ≡ noting test was }
{
    if test { 1 } else { was }
}

// Whether only the leniency "bytes" allows b, which is not the delimiter.
fn only_wide(delimiter: u8, b: u8) -> bool
    ensures { result ≡ only_wide delimiter b }
{
    b != delimiter && steps::is_wide(b)
}

// The leniencies used where a field ends, with blanks held; even and lone say whether its record is
// as wide as the first, and ended by an LF alone.
fn at_end(held: u32, even: bool, lone: bool, v: Used) -> Used
    ensures { result ≡ used_at_end held even lone v }
{
    Used {
        lf: noting(lone, v.lf),
        blanks: noting(held != 0, v.blanks),
        ragged: noting(!even, v.ragged),
        ..v
    }
}

// One field more, with its content.
fn one_field(content: u32, s: Counts) -> Counts
    ensures { result ≡ one_field content s }
{
    Counts {
        fields: FieldNumber(places::plus(s.fields.0, 1)),
        text: places::plus(s.text, content as usize),
        ..s
    }
}

// One record more, of so many fields; the last of them is one field more.
fn one_record(content: u32, width: u32, s: Counts) -> Counts
    ensures { result ≡ one_record content width s }
{
    Counts {
        records: places::plus(s.records, 1),
        width: if s.width == 0 { width } else { s.width },
        ..one_field(content, s)
    }
}

// Whether a record is as wide as the first, or is the first.
fn as_wide(first: u32, width: u32) -> bool
    ensures { result ≡ as_wide first width }
{
    first == 0 || first == width
}

// Whether the rules know a dialect.
#[tactic(auto, unfolding(steps::specs::Model::is_valid))]
pub fn is_valid(dialect: Dialect) -> bool
    ensures { result ≡ is_valid dialect.delimiter dialect.leniencies }
{
    matches!(dialect.delimiter, b'\t' | b',' | b';' | b'|') && dialect.leniencies <= 15
}

impl Check {
    // Its dialect.
    pub fn dialect(self) -> Dialect
        ensures { result ≡ record { delimiter = self.delimiter; leniencies = self.leniencies } }
    {
        Dialect {
            delimiter: self.delimiter,
            leniencies: self.leniencies,
        }
    }

    // One byte more: behind a refusal it is only counted, else it does what the table of steps says of its
    // class.
    #[tactic(auto, unfolding(crate::specs::Check::fed))]
    pub fn take(self, b: u8) -> Check
        ensures { result ≡ fed self b }
    {
        let next = places::moved(b, self.here);
        if self.refusal != 0 {
            return self.placed(next);
        }
        let s = steps::step(self.dialect(), self.form, b);
        let v = self.noted(b);
        self.stepped(s, v, next).placed(next)
    }

    // What a step does.
    #[tactic(auto, unfolding(crate::specs::Check::stepped))]
    fn stepped(self, s: Stepped, v: Used, next: Place) -> Check
        ensures { result ≡ stepped s v next self }
    {
        match s {
            Stepped::Refuse(n) => self.stopped(n, self.seen_at()),
            Stepped::Quiet(steps::SHUT) => self.entered(steps::SHUT, self.anchor, v, self.field),
            Stepped::Quiet(k) => self.entered(k, self.here, v, self.field),
            Stepped::Put(k) => self.filled(k, v, 1),
            Stepped::Hold(k) => {
                let held = places::plus(self.field.held, 1);
                self.entered(k, self.anchor, v, Current { held, ..self.field })
            }
            Stepped::Drop(k) => self.entered(k, self.anchor, Used { blanks: 1, ..v }, self.field),
            Stepped::EndField => self.field_ended(v, next),
            Stepped::EndRecord => {
                let behind_cr = steps::AFTER_CR <= self.form;
                self.record_ended(v, self.seen_at(), next, !behind_cr)
            }
        }
    }

    // Content of m bytes more, behind the blanks held, and on to a form inside the field.
    fn filled(self, k: u8, v: Used, m: usize) -> Check
        ensures { result ≡ entered k self.anchor v (grown self (plus (plus self.field.content self.field.held) m) 0) self }
    {
        let field = self.field;
        let before = places::plus(field.content, field.held as usize);
        let content = places::plus(before, m);
        let field = Current {
            content,
            held: 0,
            ..field
        };
        self.entered(k, self.anchor, v, field)
    }

    // The field ends, and the next one begins.
    #[tactic(auto, unfolding(crate::specs::Check::field_ended))]
    fn field_ended(self, v: Used, next: Place) -> Check
        ensures { result ≡ field_ended v next self }
    {
        if format::CONTENT_LIMIT < self.field.content {
            return self.stopped(Refusal::LongContent as u8, self.field.start);
        }
        let w = at_end(self.field.held, true, false, v);
        let x = new_field(next, places::plus(self.field.number.0, 1));
        self.opened(1, w, x, one_field(self.field.content, self.counts))
    }

    // Field and record end at a place; lone says whether an LF alone ends them.
    #[tactic(auto, unfolding(crate::specs::Check::record_ended))]
    pub fn record_ended(self, v: Used, at: Place, next: Place, lone: bool) -> Check
        ensures { result ≡ record_ended v at next lone self }
    {
        if format::CONTENT_LIMIT < self.field.content {
            return self.stopped(Refusal::LongContent as u8, self.field.start);
        }
        let width = places::plus(self.field.number.0, 1);
        let even = as_wide(self.counts.width, width);
        if !even && !self.dialect().allows(Leniency::Ragged) {
            return self.stopped(Refusal::UnequalRecord as u8, at);
        }
        let w = at_end(self.field.held, even, lone, v);
        let x = new_field(next, 0);
        self.opened(0, w, x, one_record(self.field.content, width, self.counts))
    }

    // Content of m bytes at once, and on to a form inside the field and to a place.
    #[tactic(auto, unfolding(crate::specs::Check::jumped))]
    pub fn jumped(self, k: u8, p: Place, m: usize) -> Check
        ensures { result ≡ jumped k p m self }
    {
        self.filled(k, self.used, m).placed(p)
    }

    // A fault: its number, and the place that it names.
    #[tactic(auto, unfolding(crate::specs::Check::stopped))]
    fn stopped(self, n: u8, p: Place) -> Check
        ensures { result ≡ stopped n p self }
    {
        Check {
            refusal: n,
            anchor: p,
            ..self
        }
    }

    // On to a form inside a field.
    #[tactic(auto, unfolding(crate::specs::Check::entered))]
    fn entered(self, k: u8, p: Place, v: Used, x: Current) -> Check
        ensures { result ≡ entered k p v x self }
    {
        Check {
            form: k,
            begun: 1,
            used: v,
            anchor: p,
            field: x,
            ..self
        }
    }

    // On to the start of a field, of the same record or of the next.
    #[tactic(auto, unfolding(crate::specs::Check::opened))]
    fn opened(self, begun: u8, v: Used, x: Current, s: Counts) -> Check
        ensures { result ≡ opened begun v x s self }
    {
        Check {
            form: steps::START,
            begun,
            used: v,
            anchor: places::nowhere(),
            field: x,
            counts: s,
            ..self
        }
    }

    // At another place.
    #[tactic(auto, unfolding(crate::specs::Check::placed))]
    pub fn placed(self, p: Place) -> Check
        ensures { result ≡ placed p self }
    {
        Check { here: p, ..self }
    }

    // The leniencies used with the byte b, if only "bytes" allows it.
    #[tactic(auto, unfolding(crate::specs::Check::noted))]
    fn noted(self, b: u8) -> Used
        ensures { result ≡ noted b self }
    {
        let bytes = noting(only_wide(self.delimiter, b), self.used.bytes);
        Used { bytes, ..self.used }
    }

    // The place of a break or a fault that is seen here: behind a CR it is that of the CR.
    fn seen_at(self) -> Place
        ensures { result ≡ seen_at self }
    {
        if steps::AFTER_CR <= self.form {
            self.anchor
        } else {
            self.here
        }
    }
}
