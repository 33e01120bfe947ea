// One byte of a piece, taken by a stream: what it puts out is written, or the call ends before it.
//
// The crate `output` says what a call does to a state; specs/Walk.antt what the functions here promise one
// another, by how far the call has come.

#![tactic(auto)]

ghost use Rattle.std.specs.Prelude.{◌+◌, ◌-◌, ◌^◌, ◌≤◌, ◌<◌, min, ◌≡◌, ◌++◌, None, Some, MatchOption, length, replicate};
ghost use Rattle.std.specs.Option.{option_to_list};
ghost use Rattle.std.proofs.lemmas.List.Edits.{sets};
ghost use Rattle.fill.specs.Buffers.{SameBuffers, lists};
ghost use Rattle.output.specs.Stream.{onward, due_out, short_of, short_number};
ghost use Rattle.taking.specs.Walk.{begun, room_left, lengths, Inside, Took, Unmoved};

use fill::Buffers;
use output::{Buffer, Due, Room, Stream};
use state::Check;

// How far a call has come: the state, how much of the piece is taken and of each buffer filled, and the
// buffer that was short, if one was.
#[derive(Clone, Copy)]
pub struct Flow {
    pub state: Stream,
    pub taken: usize,
    pub text: usize,
    pub ends: usize,
    pub rows: usize,
    pub short: Option<Buffer>,
}

// How long the piece and the buffers of a call are.
#[derive(Clone, Copy)]
pub struct Lengths {
    pub piece: usize,
    pub text: usize,
    pub ends: usize,
    pub rows: usize,
}

impl Lengths {
    pub fn new(piece: &[u8], to: &Buffers) -> Lengths
        ensures { result ≡ lengths piece.now (lists to.now) }
    {
        Lengths {
            piece: piece.len(),
            text: to.text.len(),
            ends: to.ends.len(),
            rows: to.rows.len(),
        }
    }
}

impl Flow {
    // A call that has taken nothing.
    pub fn new(state: Stream) -> Flow
        ensures { result ≡ begun state }
    {
        Flow {
            state,
            taken: 0,
            text: 0,
            ends: 0,
            rows: 0,
            short: None,
        }
    }

    // The room that is left, if how far the call has come is in the piece and in each buffer.
    pub fn room(self, lengths: Lengths) -> Option<Room>
        ensures { MatchOption result (¬ Inside self lengths) (λ r. Inside self lengths × (r ≡ room_left self lengths)) }
    {
        if lengths.piece < self.taken {
            return None;
        }
        Some(Room {
            text: lengths.text.checked_sub(self.text)?,
            ends: lengths.ends.checked_sub(self.ends)?,
            rows: lengths.rows.checked_sub(self.rows)?,
        })
    }

    // Further in the piece, behind bytes that put out nothing, by the check's state there.
    pub fn onward(self, check: Check, taken: usize) -> Flow
        ensures { result ≡ record { state = onward check; taken = taken; text = self.text; ends = self.ends; rows = self.rows; short = None } }
    {
        Flow {
            text: self.text,
            ends: self.ends,
            rows: self.rows,
            taken,
            ..Flow::new(Stream::onward(check))
        }
    }

    // Takes one byte; or the call ends here: where the piece ends, where the stream is over, or before a
    // byte whose output does not all fit. A place that lies outside the piece or a buffer stays.
    pub fn take_byte(self, piece: &[u8], to: &mut Buffers) -> Flow
        ensures same { SameBuffers to.old to.new }
        ensures took { Inside self (lengths piece.now (lists to.old)) → Took piece.now self (lists to.old) result (lists to.new) }
        ensures unmoved { ¬ Inside self (lengths piece.now (lists to.old)) → Unmoved self (lists to.old) result (lists to.new) }
    {
        let Some(room) = self.room(Lengths::new(piece, to)) else {
            return self;
        };
        if self.taken == piece.len() || self.state.is_over() {
            return Flow {
                short: None,
                ..self
            };
        }
        let b = piece[self.taken];
        let check = self.state.check.take(b);
        let behind = self.onward(check, self.taken + 1);
        if output::is_shown(check) {
            return behind;
        }
        let due = self.state.due(b, check);
        if let Some(short) = short_of(room, due) {
            return self.stick(due.blanks, short, to.text);
        }
        Flow {
            text: put_text(to.text, self.text, due),
            ends: put_entry(to.ends, self.ends, due.end),
            rows: put_entry(to.rows, self.rows, due.row),
            ..behind
        }
    }

    // Stops before a byte whose output does not all fit: of that only held blanks come out, as many as do.
    #[tactic(auto, using(crate::proofs::Put::parts))]
    fn stick(self, blanks: u32, short: Buffer, text: &mut [u8]) -> Flow
        requires text_in_bounds { self.text ≤ length text.old }
        requires early_bound { self.state.early + blanks < 2 ^ 32 }
        ensures value { let k = min blanks (length text.old - self.text) in result ≡ record { state = record { check = self.state.check; early = self.state.early + k; closed = self.state.closed }; taken = self.taken; text = self.text + k; ends = self.ends; rows = self.rows; short = Some short } }
        ensures text_after { text.new ≡ sets text.old self.text (replicate (min blanks (length text.old - self.text)) 0x20) }
    {
        let count = (blanks as usize).min(text.len() - self.text);
        let end = self.text + count;
        text[self.text..end].fill(b' ');
        Flow {
            state: Stream {
                early: self.state.early + count as u32,
                ..self.state
            },
            text: end,
            short: Some(short),
            ..self
        }
    }
}

// The buffer that is too small for what a byte puts out, the first of them.
#[tactic(auto, unfolding(output::specs::Stream::short_of))]
fn short_of(room: Room, due: Due) -> Option<Buffer>
    ensures { short_number result ≡ short_of (due_out due) room }
{
    if room.text < (due.blanks as usize) + usize::from(due.byte.is_some()) {
        return Some(Buffer::Text);
    }
    if room.ends < usize::from(due.end.is_some()) {
        return Some(Buffer::Ends);
    }
    if room.rows < usize::from(due.row.is_some()) {
        return Some(Buffer::Rows);
    }
    None
}

// Writes the blanks and the byte that come out, and says where the text ends.
#[tactic(auto, using(crate::proofs::Put::parts))]
fn put_text(text: &mut [u8], at: usize, due: Due) -> usize
    requires { at + length (due_out due).text ≤ length text.old }
    ensures value { result ≡ at + length (due_out due).text }
    ensures text_after { text.new ≡ sets text.old at (due_out due).text }
{
    let end = at + due.blanks as usize;
    text[at..end].fill(b' ');
    let Some(b) = due.byte else {
        return end;
    };
    text[end] = b;
    end + 1
}

// Writes an entry if there is one, and says where the next goes.
fn put_entry(entries: &mut [u32], at: usize, entry: Option<u32>) -> usize
    requires { at + length (option_to_list entry) ≤ length entries.old }
    ensures value { result ≡ at + length (option_to_list entry) }
    ensures entries_after { entries.new ≡ sets entries.old at (option_to_list entry) }
{
    let Some(n) = entry else {
        return at;
    };
    entries[at] = n;
    at + 1
}
