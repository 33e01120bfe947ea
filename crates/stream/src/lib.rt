// Fields while pieces go in: start a stream with a dialect, and feed it pieces with room for what comes
// out. `closing` closes it.
//
// The crate `output` has the state, and says what a call does to it and what that means; `parts` takes
// many bytes of a piece at once, and `taking` one.

#![tactic(auto)]

ghost use Rattle.fill.specs.Buffers.{SameBuffers, lists};
ghost use Rattle.output.specs.Promises.{Started, Fed};
ghost use Rattle.taking.specs.Walk.{begun, stop_at, Grew};

use fill::Buffers;
use format::Dialect;
use output::{Buffer, Stream, Streamed};
use taking::Flow;

// A stream of a dialect, before any byte.
pub fn start(dialect: Dialect) -> Stream
    ensures { Started dialect.delimiter dialect.leniencies result }
{
    Stream::onward(pieces::start(dialect))
}

// Takes what it can of a piece, and puts out what is known.
pub fn feed(s: Stream, piece: &[u8], to: &mut Buffers) -> Streamed
    ensures same { SameBuffers to.old to.new }
    ensures fed { Fed s piece.now to.old.text.now to.old.ends.now to.old.rows.now result to.new.text.now to.new.ends.now to.new.rows.now }
{
    let flow = flowed(s, piece, to);
    Streamed {
        taken: flow.taken,
        text: flow.text,
        ends: flow.ends,
        rows: flow.rows,
        short: flow.short.map_or(0, Buffer::number),
        ..flow.state.told()
    }
}

// The walk over a piece: as many bytes as can be taken at once, then one, and so on. A part that was too
// long, since it would show a refusal, is tried again at half its length; one that went well, at twice. How
// far each turn goes is found in it, so no iterator counts the places.
fn flowed(s: Stream, piece: &[u8], to: &mut Buffers) -> Flow
    ensures same { SameBuffers to.old to.new }
    ensures grew { Grew piece.now (begun s) (lists to.old) result (lists to.new) (stop_at result) }
{
    let mut flow = Flow::new(s);
    let mut most = MOST;
    while flow.taken < piece.len() {
        let part = parts::passed(flow, most, piece, to);
        most = next_most(most, part.is_some());
        let before = part.unwrap_or(flow);
        flow = before.take_byte(piece, to);
        if flow.taken == before.taken {
            return flow;
        }
    }
    flow.take_byte(piece, to)
}

// Parts are of no more bytes than these, and of some.
const MOST: usize = 65536;

const SOME: usize = 16;

// The longest part to try behind one that was taken, or that was not.
fn next_most(most: usize, was_taken: bool) -> usize {
    if most < SOME {
        2 * SOME
    } else if was_taken {
        most.saturating_mul(2).min(MOST)
    } else {
        most / 2
    }
}
