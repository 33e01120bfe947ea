// What comes out of a stream while pieces go in: its state, what a call gives, and what both mean.
//
// specs/Out.antt says what is out, by the grammar; specs/Stream.antt what a call does to any state;
// specs/Promises.antt what a state stands for, and so what the calls of the crate `stream` mean.

#![tactic(auto)]

ghost use Rattle.std.specs.Prelude.{◌+◌, ◌-◌, ◌^◌, ◌<◌, min, ◌≡◌};
ghost use Rattle.format.specs.House.{content_limit};
ghost use Rattle.output.specs.Stream.{onward, shown, is_over, ends_record, byte_left, blanks_left, blanks_due, due, due_out, buffer_number, answer_of, closed_by};

use format::{Answer, FieldNumber, Refusal, Totals};
use state::Check;

// A stream's state: the check's, how many of the blanks that it holds are out already, and whether a close
// has ended it, 0 for no.
#[repr(C)]
#[derive(Clone, Copy)]
pub struct Stream {
    pub check: Check,
    pub early: u32,
    pub closed: u8,
}

// What a call gives: the state for the next call; how much of the piece was taken, and of each buffer
// filled; the buffer that was short, or 0; whether a close has accepted the file; and the answer.
#[repr(C)]
#[derive(Clone, Copy)]
pub struct Streamed {
    pub state: Stream,
    pub taken: usize,
    pub text: usize,
    pub ends: usize,
    pub rows: usize,
    pub short: u32,
    pub closed: u32,
    pub answer: Answer,
}

// The answer of a stream that is open.
const NO_ANSWER: Answer = Answer {
    refusal: 0,
    place: format::NOWHERE,
    totals: Totals {
        records: 0,
        fields: FieldNumber(0),
        text: 0,
        report: 0,
    },
};

// What a byte puts out, all of it: so many of the blanks held, and itself; the end of its field; the row.
#[derive(Clone, Copy)]
pub struct Due {
    pub blanks: u32,
    pub byte: Option<u8>,
    pub end: Option<u32>,
    pub row: Option<u32>,
}

// A buffer that a call is lent.
#[derive(Clone, Copy)]
pub enum Buffer {
    Text,
    Ends,
    Rows,
}

impl Buffer {
    // The number by which a call says that it was short.
    pub fn number(self) -> u32
        ensures { result ≡ buffer_number self }
    {
        match self {
            Buffer::Text => Refusal::NoRoomInText as u32,
            Buffer::Ends => Refusal::NoRoomInEnds as u32,
            Buffer::Rows => Refusal::NoRoomInRows as u32,
        }
    }
}

// How much room there is in each buffer.
#[derive(Clone, Copy)]
pub struct Room {
    pub text: usize,
    pub ends: usize,
    pub rows: usize,
}

impl Stream {
    // The stream behind a byte, by the check's state there.
    pub fn onward(check: Check) -> Stream
        ensures { result ≡ onward check }
    {
        Stream {
            check,
            early: 0,
            closed: 0,
        }
    }

    // Whether nothing more is taken or put out.
    pub fn is_over(self) -> bool
        ensures { result ≡ is_over self }
    {
        is_shown(self.check) || self.closed != 0
    }

    // What the byte b puts out, behind which the check is at another state.
    #[tactic(auto, unfolding(crate::specs::Stream::due, crate::specs::Stream::blanks_due))]
    pub fn due(self, b: u8, behind: Check) -> Due
        ensures out { due_out result ≡ due self.early self.check b behind }
        ensures blanks { result.blanks ≡ blanks_due self.early self.check behind }
        ensures blanks_bound { self.early + result.blanks < 2 ^ 32 }
    {
        let is_content = self.check.field.content < behind.field.content;
        Due {
            blanks: if is_content { self.blanks_left() } else { 0 },
            byte: (is_content && self.byte_left()).then_some(b),
            end: (behind.form == steps::START).then_some(behind.counts.text),
            row: ends_record(behind).then_some(behind.counts.fields.0),
        }
    }

    // As many of the blanks held as are not out yet and the content limit leaves room for.
    fn blanks_left(self) -> u32
        ensures value { result ≡ blanks_left self.early self.check }
        ensures bound { self.early + result < 2 ^ 32 }
    {
        let field = self.check.field;
        let room = format::CONTENT_LIMIT
            .saturating_sub(field.content)
            .saturating_sub(self.early);
        field.held.saturating_sub(self.early).min(room)
    }

    // Whether the content limit leaves room for a byte behind the blanks held.
    fn byte_left(self) -> bool
        ensures { result ≡ byte_left self.check }
    {
        let field = self.check.field;
        field.held < format::CONTENT_LIMIT.saturating_sub(field.content)
    }

    // What a call tells that took and put out nothing: the answer is the check's, once the stream is over,
    // and else 0 throughout.
    pub fn told(self) -> Streamed
        ensures { result ≡ record { state = self; taken = 0; text = 0; ends = 0; rows = 0; short = 0; closed = closed_by self; answer = answer_of self } }
    {
        Streamed {
            state: self,
            taken: 0,
            text: 0,
            ends: 0,
            rows: 0,
            short: 0,
            closed: self.closed_by(),
            answer: self.answer(),
        }
    }

    #[tactic(auto, unfolding(crate::specs::Stream::answer_of))]
    fn answer(self) -> Answer
        ensures { result ≡ answer_of self }
    {
        if self.is_over() {
            Answer::from(pieces::ask(self.check))
        } else {
            NO_ANSWER
        }
    }

    // 1 from an accepted close on.
    #[tactic(auto, unfolding(crate::specs::Stream::closed_by))]
    fn closed_by(self) -> u32
        ensures { result ≡ closed_by self }
    {
        u32::from(self.closed != 0 && Answer::from(pieces::ask(self.check)).refusal == 0)
    }
}

// Whether a refusal is shown: by the dialect bytes, by the length, or by a byte.
#[tactic(auto, unfolding(crate::specs::Stream::shown))]
pub fn is_shown(check: Check) -> bool
    ensures { result ≡ shown check }
{
    !state::is_valid(check.dialect())
        || format::FILE_LIMIT < check.here.byte.0
        || check.refusal != 0
}

// Whether a byte ended a record, by the check behind it.
fn ends_record(behind: Check) -> bool
    ensures { result ≡ ends_record behind }
{
    behind.form == steps::START && behind.begun == 0
}
