// Counters that stop, and the place behind a byte, or behind many.
//
// A place holds counters alone, so that any numbers are one. specs/Counters.antt says what each of
// these does, for every place.

#![tactic(auto)]

ghost use Rattle.std.specs.Prelude.{◌≡◌};
ghost use Rattle.format.specs.Place.{place, nowhere};
ghost use Rattle.places.specs.Counters.{plus, moved, along, spot};

use format::{ByteOffset, Column, Line, Place};

// One past the file limit, where counters stop.
pub const COUNTER_LIMIT: u32 = 16777217;

// A counter and n more.
pub fn plus(a: u32, n: usize) -> u32
    ensures { result ≡ plus a n }
{
    let more = n.min(COUNTER_LIMIT as usize) as u32;
    (a.min(COUNTER_LIMIT) + more).min(COUNTER_LIMIT)
}

// The place behind a byte that stands at p.
#[tactic(auto, unfolding(crate::specs::Counters::moved))]
pub fn moved(b: u8, p: Place) -> Place
    ensures { result ≡ moved b p }
{
    let byte = ByteOffset(plus(p.byte.0, 1));
    if b == b'\n' {
        Place {
            line: Line(plus(p.line.0, 1)),
            column: Column(1),
            byte,
        }
    } else {
        Place {
            line: p.line,
            column: Column(plus(p.column.0, 1)),
            byte,
        }
    }
}

// The place n bytes on, on the same line.
pub fn along(n: usize, p: Place) -> Place
    ensures { result ≡ along n p }
{
    Place {
        line: p.line,
        column: Column(plus(p.column.0, n)),
        byte: ByteOffset(plus(p.byte.0, n)),
    }
}

// The place so many bytes on, behind so many line feeds and the tail behind the last of them.
#[tactic(auto, unfolding(crate::specs::Counters::spot))]
pub fn spot(lines: usize, tail: usize, bytes: usize, p: Place) -> Place
    ensures { result ≡ spot lines tail bytes p }
{
    let from = if lines == 0 { p.column.0 } else { 1 };
    Place {
        line: Line(plus(p.line.0, lines)),
        column: Column(plus(from, tail)),
        byte: ByteOffset(plus(p.byte.0, bytes)),
    }
}

// The place that names nothing.
pub fn nowhere() -> Place
    ensures { result ≡ nowhere }
{
    format::NOWHERE
}
