// A walk over fields and records, or over what stands between quotes, in plain numbers.
//
// A state is turned into a walk, the walk goes on by words of marks, and only where it ends is it turned
// into a state again. specs/Walk.antt says what a walk stands for.

#![tactic(auto)]

ghost use Rattle.std.specs.Prelude.{◌+◌, ◌≤◌, ◌<◌, true, ◌≡◌, length, get_or};
ghost use Rattle.format.specs.Memory.{largest32};
ghost use Rattle.spans.specs.Walk.{BetweenFrom, Between, run_on, Further, last_line, Level, field_on, row_on, Closed, end_at, ended_by, Fits, Sized, Walking, Goes, Leading, lone_ends, ends_of};

use format::Leniency;
use state::Check;
use words::{InnerText, MarkTable, PlainText};

// Bytes between quotes that are one jump: where they end, how much content they are, the line feeds
// among them, and the bytes behind the last of these, or all.
#[derive(Clone, Copy)]
pub struct Inside {
    pub end: usize,
    pub content: usize,
    pub lines: usize,
    pub tail: usize,
}

// A walk over fields and records: the place reached, where its line begins, or the walk, and the line
// feeds passed; where the field in work begins, in plain text so far; the records and fields closed,
// the number of the field in work in its record, and the text of the fields closed.
#[derive(Clone, Copy)]
pub struct Walk {
    pub at: usize,
    pub line: usize,
    pub lines: usize,
    pub start: usize,
    pub rows: usize,
    pub fields: usize,
    pub number: usize,
    pub text: usize,
}

// What ends a field: a delimiter; or a line break or an LF alone, which end its record too.
#[derive(Clone, Copy)]
enum End {
    Delimiter,
    Break,
    LoneLf,
}

// What ends the fields and the records of a walk: the delimiter, how many fields a record has, and
// whether an LF alone ends one.
#[derive(Clone, Copy)]
struct Ends {
    delimiter: u8,
    width: u32,
    alone: bool,
}

// What stands between quotes from a place on, behind the end of the bytes nothing.
pub fn between_quotes(s: &[u8], at: usize) -> Inside
    ensures { BetweenFrom s.now at result }
{
    if s.len() < at {
        return nothing_from(at);
    }
    inside_from(&MarkTable::new(InnerText), s, at)
}

// Walks over fields and records from a place on, as far as they are one jump, from a state that stands
// before them.
pub fn rows(check: Check, s: &[u8], at: usize) -> Walk
    ensures { Leading check s.now at result }
{
    if s.len() < at || !is_level(check, s) {
        return start_of(check.field.number.0, at);
    }
    walk_on(check, s, at)
}

// A walk that has passed nothing yet.
fn start_of(number: u32, at: usize) -> Walk
    ensures value { result ≡ record { at = at; line = at; lines = 0; start = at; rows = 0; fields = 0; number = number; text = 0 } }
    ensures number_bound { number ≤ largest32 }
{
    Walk {
        at,
        line: at,
        lines: 0,
        start: at,
        rows: 0,
        fields: 0,
        number: number as usize,
        text: 0,
    }
}

// Whether fields and records are one jump from here: at the start of a field, in a piece whose
// length cannot carry a count over.
fn is_level(check: Check, s: &[u8]) -> bool
    ensures { result ≡ true → Level check s.now }
{
    let at_start = (check.refusal == 0) & (check.form == steps::START);
    let empty = (check.field.content == 0) & (check.field.held == 0);
    let d = check.delimiter;
    let apart = (d != b'\r') & (d != b'\n') & (d != b'"');
    let most = places::COUNTER_LIMIT;
    let line = check.here.line.0 <= most;
    let counting = line & (check.counts.records <= most) & (check.counts.width <= most);
    (s.len() <= format::LARGEST_32) & at_start & empty & apart & counting
}

// What ends fields and records from a state on. An LF alone does if it may and one did before, so that
// the walk has nothing to note of it.
fn ends_of(check: Check) -> Ends
    ensures { result ≡ ends_of check }
{
    let lf = check.dialect().allows(Leniency::Lf);
    Ends {
        delimiter: check.delimiter,
        width: check.counts.width,
        alone: lf & (check.used.lf == 1),
    }
}

// The same from a level state, each record as wide as the first: by words that mark the bytes which are
// no plain text. A mark may lie behind what was passed since, so no iterator goes over them.
fn walk_on(check: Check, s: &[u8], at: usize) -> Walk
    requires at_in_bounds { at ≤ length s.now }
    requires level { Level check s.now }
    ensures { Walking check s.now at result }
{
    let plain = MarkTable::new(PlainText {
        dialect: check.dialect(),
    });
    let inner = MarkTable::new(InnerText);
    let ends = ends_of(check);
    let mut x = start_of(check.field.number.0, at);
    while x.at < s.len() {
        let e = words::block_end(s, x.at);
        let mut w = plain.word_at::<64>(s, x.at);
        while w != 0 {
            let k = w.trailing_zeros();
            let y = Walk {
                at: x.at + (k as usize),
                ..x
            };
            x = at_mark(ends, &inner, y, s);
            if x.at == y.at {
                return x;
            }
            w = words::shifted(w >> k, x.at - y.at);
        }
        x = Walk {
            at: x.at.max(e),
            ..x
        };
    }
    x
}

// A walk behind the field that ends at the mark where it stands, and behind what ends it; or where it
// stands.
fn at_mark(ends: Ends, inner: &MarkTable<InnerText>, x: Walk, s: &[u8]) -> Walk
    requires { Sized x s.now }
    ensures { Goes ends s.now x result }
{
    let content = x.at - x.start;
    if (format::CONTENT_LIMIT as usize) < content {
        return x;
    }
    if s[x.at] == b'"' {
        return at_quote(ends, inner, x, s);
    }
    let end = end_at(ends, x.number, s, x.at);
    ended_by(x, end, x.at, content, x.line, x.lines)
}

// The same where the field begins with a quote at the mark.
fn at_quote(ends: Ends, inner: &MarkTable<InnerText>, x: Walk, s: &[u8]) -> Walk
    requires sized { Sized x s.now }
    requires quote { get_or s.now x.at 0 ≡ 0x22 }
    ensures { Goes ends s.now x result }
{
    if x.at != x.start {
        return x;
    }
    let q = inside_field(inner, s, x.at + 1);
    if !closes(s, q) {
        return x;
    }
    let behind = q.end + 1;
    let end = end_at(ends, x.number, s, behind);
    ended_by(
        x,
        end,
        behind,
        q.content,
        last_line(x.line, q),
        x.lines + q.lines,
    )
}

// Whether bytes between quotes are a field's content, which a quote closes that a byte stands behind.
fn closes(s: &[u8], q: Inside) -> bool
    requires { q.end ≤ length s.now }
    ensures { result ≡ true → Closed s.now q }
{
    q.content <= format::CONTENT_LIMIT as usize && 2 <= s.len() - q.end && s[q.end] == b'"'
}

// What ends a field at a place, if it is so many fields behind the first of its record: line breaks only
// behind the last field of a record.
fn end_at(ends: Ends, number: usize, s: &[u8], at: usize) -> Option<End>
    requires { (at < length s.now) × (number < 18446744073709551615) }
    ensures { result ≡ end_at ends number s.now at }
{
    if s[at] == ends.delimiter {
        return Some(End::Delimiter);
    }
    if number + 1 != ends.width as usize {
        return None;
    }
    if runs::is_break(s, at) {
        return Some(End::Break);
    }
    if ends.alone & (s[at] == b'\n') {
        return Some(End::LoneLf);
    }
    None
}

// A walk behind the field that ends so at a place, with so much content, on a line that begins at a
// place and behind so many line feeds; or where it stands.
fn ended_by(x: Walk, end: Option<End>, at: usize, content: usize, line: usize, lines: usize) -> Walk
    requires { Fits x at content lines }
    ensures { result ≡ ended_by x end at content line lines }
{
    match end {
        Some(End::Delimiter) => field_on(x, at + 1, content, line, lines),
        Some(End::Break) => row_on(x, at + 2, content, lines),
        Some(End::LoneLf) => row_on(x, at + 1, content, lines),
        None => x,
    }
}

// A walk behind a field of so much content, where the next one begins, on a line that begins at a
// place and behind so many line feeds.
fn field_on(x: Walk, next: usize, content: usize, line: usize, lines: usize) -> Walk
    requires { (x.fields < 18446744073709551615) × (x.number < 18446744073709551615) × (x.text + content < 18446744073709551616) }
    ensures { result ≡ field_on x next content line lines }
{
    Walk {
        at: next,
        line,
        lines,
        start: next,
        fields: x.fields + 1,
        number: x.number + 1,
        text: x.text + content,
        ..x
    }
}

// A walk behind the last field of a record, where the next one begins.
fn row_on(x: Walk, next: usize, content: usize, lines: usize) -> Walk
    requires { (x.fields < 18446744073709551615) × (x.rows < 18446744073709551615) × (x.text + content < 18446744073709551616) × (lines < 18446744073709551615) }
    ensures { result ≡ row_on x next content lines }
{
    Walk {
        at: next,
        line: next,
        lines: lines + 1,
        start: next,
        rows: x.rows + 1,
        fields: x.fields + 1,
        number: 0,
        text: x.text + content,
    }
}

// No bytes yet.
fn nothing_from(at: usize) -> Inside
    ensures { result ≡ record { end = at; content = 0; lines = 0; tail = 0 } }
{
    Inside {
        end: at,
        content: 0,
        lines: 0,
        tail: 0,
    }
}

// The bytes, pairs of quotes and line feeds from a place on that are content between quotes: whole
// blocks of bytes, then a word that marks what is no such byte. How far each turn goes is found in it, so
// no iterator counts the places.
fn inside_from(inner: &MarkTable<InnerText>, s: &[u8], at: usize) -> Inside
    requires { at ≤ length s.now }
    ensures { Between s.now at result }
{
    let mut x = nothing_from(at);
    while x.end < s.len() {
        let y = run_on(x, runs::inner_blocks(s, x.end));
        let w = inner.word_at::<16>(s, y.end);
        if w == 0 {
            return run_on(y, s.len() - y.end);
        }
        let z = run_on(y, w.trailing_zeros() as usize);
        x = stop_on(z, s);
        if x.end == z.end {
            return x;
        }
    }
    x
}

// Such bytes and k more of one line.
fn run_on(x: Inside, k: usize) -> Inside
    requires { (x.end + k < 18446744073709551616) × (x.content ≤ x.end) × (x.tail ≤ x.end) }
    ensures { result ≡ run_on x k }
{
    Inside {
        end: x.end + k,
        content: x.content + k,
        tail: x.tail + k,
        ..x
    }
}

// Such bytes and a line feed or the pairs of quotes that stand behind them, if any do.
fn stop_on(x: Inside, s: &[u8]) -> Inside
    requires { (x.end < length s.now) × (x.content ≤ x.end) × (x.lines ≤ x.end) × (x.tail ≤ x.end) }
    ensures { Further s.now x result }
{
    if s[x.end] == b'\n' {
        return Inside {
            end: x.end + 1,
            content: x.content + 1,
            lines: x.lines + 1,
            tail: 0,
        };
    }
    let q = runs::pair_run(s, x.end);
    Inside {
        end: x.end + (q + q),
        content: x.content + q,
        tail: x.tail + (q + q),
        ..x
    }
}

// The same, no further than the content of one field can go: what is longer is refused, however it ends.
fn inside_field(inner: &MarkTable<InnerText>, s: &[u8], at: usize) -> Inside
    requires { at ≤ length s.now }
    ensures { Between s.now at result }
{
    inside_from(inner, &s[..reach(s, at)], at)
}

// How far content from a place on can go, each byte of it a pair.
fn reach(s: &[u8], at: usize) -> usize
    requires { at ≤ length s.now }
    ensures { (at ≤ result) × (result ≤ length s.now) }
{
    s.len()
        .min(at.saturating_add(2 * (format::CONTENT_LIMIT as usize)))
}

// Where the line begins on which such bytes end, if that on which they begin does so at a place.
fn last_line(line: usize, q: Inside) -> usize
    requires { q.tail ≤ q.end }
    ensures { result ≡ last_line line q }
{
    if q.lines == 0 { line } else { q.end - q.tail }
}
