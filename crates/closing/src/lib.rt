// The end of a file that was read as it came in: the stream is closed. The crate `output` has the state,
// and says what the close does to it and what that means.

#![tactic(auto)]

ghost use Rattle.output.specs.Promises.{Closed};

use format::Answer;
use output::{Buffer, Stream, Streamed};

// Closes the file: both last ends at once. Short of room it writes nothing, and may be repeated.
pub fn close(s: Stream, ends: &mut [u32], rows: &mut [u32]) -> Streamed
    ensures { Closed s ends.old rows.old result ends.new rows.new }
{
    if s.is_over() {
        return s.told();
    }
    let answer = Answer::from(pieces::ask(s.check));
    let ended = Stream { closed: 1, ..s };
    if answer.refusal != 0 || s.check.begun == 0 {
        return ended.told();
    }
    if ends.is_empty() {
        return Streamed {
            short: Buffer::Ends.number(),
            ..s.told()
        };
    }
    if rows.is_empty() {
        return Streamed {
            short: Buffer::Rows.number(),
            ..s.told()
        };
    }
    ends[0] = answer.totals.text;
    rows[0] = answer.totals.fields.0;
    Streamed {
        ends: 1,
        rows: 1,
        ..ended.told()
    }
}
