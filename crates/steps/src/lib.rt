// The machine: the class of a byte in a dialect, the step table, and one step.
//
// specs/Steps.antt has the table and what a byte does by it, specs/Numbers.antt the numbers that the
// code has for forms, classes and entries.

#![tactic(auto)]

ghost use Rattle.std.specs.Prelude.{min, ◌<◌, ◌≡◌};
ghost use Rattle.format.specs.Dialect.{lf, names, is_wide, class_of};
ghost use Rattle.format.specs.Meant.{dialect_of};
ghost use Rattle.steps.specs.Steps.{carry, step_of};
ghost use Rattle.steps.specs.Numbers.{form_of, class_number, class_named, class_meant, move_meant, coded, step_table, step_by};

use Move::{AfterCr, Bare, End, Lead, Quoted, Shut, Start, Tail};
use format::{Dialect, Leniency, Refusal};

// What a byte does: it is refused, or it leads to a form and puts something out. The end of a field
// or a record leads to the form start. A refusal is a number, for the C interface: so a check that C lends
// has it.
#[derive(Clone, Copy)]
pub enum Stepped {
    Refuse(u8),
    Quiet(u8),
    Put(u8),
    Hold(u8),
    Drop(u8),
    EndField,
    EndRecord,
}

// The forms: where in a field a byte stands, as the rows of the table. They are numbers, and no enum, for
// the C interface: a check that C lends has its form as a byte, and any byte is a form.
pub const START: u8 = 0;

pub const LEAD: u8 = 1;

pub const BARE: u8 = 2;

pub const QUOTED: u8 = 3;

pub const SHUT: u8 = 4;

pub const TAIL: u8 = 5;

pub const AFTER_CR: u8 = 6;

// The classes of bytes, as the columns of the table.
#[derive(Clone, Copy)]
pub enum Class {
    Text,
    Blank,
    Delimiter,
    Quote,
    Cr,
    Lf,
    Forbidden,
}

// An entry of the table: a form, the end of a record, or a refusal by its number.
#[derive(Clone, Copy)]
enum Move {
    Start,
    Lead,
    Bare,
    Quoted,
    Shut,
    Tail,
    AfterCr,
    End,
    Wrong(u8),
}

const FAULT_3: Move = Move::Wrong(Refusal::ForbiddenByte as u8);

const FAULT_4: Move = Move::Wrong(Refusal::QuoteInBareField as u8);

const FAULT_5: Move = Move::Wrong(Refusal::ByteAfterClosingQuote as u8);

const FAULT_6: Move = Move::Wrong(Refusal::CrWithoutLf as u8);

// The step table: a row for each form, in their order, and in it a column for each class.
const STEPS: [[Move; 7]; 7] = [
    [Bare, Lead, Start, Quoted, AfterCr, End, FAULT_3],
    [Bare, Lead, Start, Quoted, AfterCr, End, FAULT_3],
    [Bare, Bare, Start, FAULT_4, AfterCr, End, FAULT_3],
    [Quoted, Quoted, Quoted, Shut, Quoted, Quoted, FAULT_3],
    [FAULT_5, Tail, Start, Quoted, AfterCr, End, FAULT_3],
    [FAULT_5, Tail, Start, FAULT_5, AfterCr, End, FAULT_3],
    [FAULT_6, FAULT_6, FAULT_6, FAULT_6, FAULT_6, End, FAULT_6],
];

// What the byte b does in a form, in a dialect. Any number from 6 on counts as the last form.
pub fn step(dialect: Dialect, form: u8, b: u8) -> Stepped
    ensures { result ≡ coded (step_of (names dialect.leniencies lf) (form_of form) (class_of (dialect_of dialect) b)) }
{
    let class = class_of(dialect, b);
    step_by(table(), dialect.allows(Leniency::Lf), form, class)
}

// The step table.
#[tactic(auto, unfolding(crate::specs::Numbers::step_table))]
fn table() -> &'static [[Move; 7]; 7]
    ensures { result.now ≡ step_table }
{
    &STEPS
}

// Whether b is a byte that only the leniency "bytes" allows, if it is not the delimiter.
pub fn is_wide(b: u8) -> bool
    ensures { result ≡ is_wide b }
{
    (b == 0x09) | (0x80 <= b)
}

// The class of b in a dialect. The delimiter and the quote come first: the ranges hold them too.
#[tactic(auto, unfolding(format::specs::Dialect::class_of))]
pub fn class_of(dialect: Dialect, b: u8) -> Class
    ensures { result ≡ class_named (class_of (dialect_of dialect) b) }
{
    match b {
        _ if b == dialect.delimiter => Class::Delimiter,
        0x22 => Class::Quote,
        0x0A => Class::Lf,
        0x0D => Class::Cr,
        0x20 if dialect.allows(Leniency::Blanks) => Class::Blank,
        0x20..=0x7E => Class::Text,
        _ if is_wide(b) & dialect.allows(Leniency::Bytes) => Class::Text,
        _ => Class::Forbidden,
    }
}

// One step by a table that is lent: the entry at a form and a class, carried out. Any number from 6
// on counts as the last form.
#[tactic(auto, unfolding(crate::specs::Numbers::step_by))]
fn step_by(t: &[[Move; 7]; 7], lf: bool, form: u8, class: Class) -> Stepped
    ensures { result ≡ step_by t.now lf form (class_meant class) }
{
    let row = form.min(AFTER_CR) as usize;
    let column = column(class);
    carry_out(lf, form, class, t[row][column])
}

// The column of a class.
fn column(class: Class) -> usize
    ensures value { result ≡ class_number (class_meant class) }
    ensures result_bound { result < 7 }
{
    class as usize
}

// An entry carried out in a form at a byte of a class.
#[tactic(auto, unfolding(crate::specs::Numbers::form_of))]
fn carry_out(lf: bool, form: u8, class: Class, entry: Move) -> Stepped
    ensures { result ≡ coded (carry lf (form_of form) (class_meant class) (move_meant entry)) }
{
    match entry {
        Start => Stepped::EndField,
        Lead => Stepped::Drop(LEAD),
        Bare => match class {
            Class::Blank => Stepped::Hold(BARE),
            _ => Stepped::Put(BARE),
        },
        Quoted => if form == QUOTED || form == SHUT {
            Stepped::Put(QUOTED)
        } else {
            Stepped::Quiet(QUOTED)
        },
        Shut => Stepped::Quiet(SHUT),
        Tail => Stepped::Drop(TAIL),
        AfterCr => Stepped::Quiet(AFTER_CR),
        End => if AFTER_CR <= form || lf {
            Stepped::EndRecord
        } else {
            Stepped::Refuse(Refusal::LfWithoutCr as u8)
        },
        Move::Wrong(n) => Stepped::Refuse(n),
    }
}
