// The C face: each export is a call of a proved function, with that function's promise. The header
// include/siprovault.h says the same in words. A slice is a pointer and a length there.

#![tactic(auto)]

ghost use Rattle.pieces.specs.Answers.{Started, Fed, Asked};
ghost use Rattle.output.specs.Promises.{Started as StreamStarted, Fed as StreamFed, Closed as StreamClosed};
ghost use Rattle.reader.specs.Read.{ReadOutcome};
ghost use Rattle.tables.specs.Search.{Searched};
ghost use Rattle.tables.specs.Shown.{Located};
ghost use Rattle.writer.specs.Write.{WriteOutcome};
ghost use Rattle.jump.specs.Jump.{IndexOutcome, JumpOutcome};
ghost use Rattle.face.specs.Face.{sv_written_numbers, sv_column_numbers, sv_part_numbers};

use face::{SvColumn, SvPart, SvWritten};
use fill::Buffers;
use format::{Answer, Dialect, FieldNumber, Indexed, Jumped, RecordNumber};
use output::{Stream, Streamed};
use state::Check;
use tables::Table;

// Reads a file in a dialect into three buffers.
#[unsafe(no_mangle)]
pub extern "C" fn sv_read(
    file: &[u8],
    delimiter: u8,
    leniencies: u8,
    text: &mut [u8],
    ends: &mut [u32],
    rows: &mut [u32],
) -> Answer
    ensures { ReadOutcome delimiter leniencies file.now text.old ends.old rows.old result text.new ends.new rows.new }
{
    let dialect = Dialect {
        delimiter,
        leniencies,
    };
    Answer::from(reader::read(file, dialect, &mut Buffers { text, ends, rows }))
}

// Reads a strict file into three buffers.
#[unsafe(no_mangle)]
pub extern "C" fn sv_read_strict(
    file: &[u8],
    text: &mut [u8],
    ends: &mut [u32],
    rows: &mut [u32],
) -> Answer
    ensures { ReadOutcome 0x2C 0 file.now text.old ends.old rows.old result text.new ends.new rows.new }
{
    Answer::from(reader::read_strict(file, &mut Buffers { text, ends, rows }))
}

// Starts a check with a dialect.
#[unsafe(no_mangle)]
pub extern "C" fn sv_check_start(delimiter: u8, leniencies: u8) -> Check
    ensures { Started delimiter leniencies result }
{
    pieces::start(Dialect {
        delimiter,
        leniencies,
    })
}

// Feeds a check a piece, and gives the state behind it.
#[unsafe(no_mangle)]
pub extern "C" fn sv_check_feed(state: Check, piece: &[u8]) -> Check
    ensures { Fed state piece.now result }
{
    pieces::feed(state, piece)
}

// Asks a check for the answer to all bytes so far as a whole file.
#[unsafe(no_mangle)]
pub extern "C" fn sv_check_ask(state: Check) -> Answer
    ensures { Asked state result }
{
    Answer::from(pieces::ask(state))
}

// Starts a stream with a dialect.
#[unsafe(no_mangle)]
pub extern "C" fn sv_stream_start(delimiter: u8, leniencies: u8) -> Stream
    ensures { StreamStarted delimiter leniencies result }
{
    stream::start(Dialect {
        delimiter,
        leniencies,
    })
}

// Feeds a stream a piece, and puts out what is known.
#[unsafe(no_mangle)]
pub extern "C" fn sv_stream_feed(
    state: Stream,
    piece: &[u8],
    text: &mut [u8],
    ends: &mut [u32],
    rows: &mut [u32],
) -> Streamed
    ensures { StreamFed state piece.now text.old ends.old rows.old result text.new ends.new rows.new }
{
    stream::feed(state, piece, &mut Buffers { text, ends, rows })
}

// Closes a stream, both last ends at once.
#[unsafe(no_mangle)]
pub extern "C" fn sv_stream_close(state: Stream, ends: &mut [u32], rows: &mut [u32]) -> Streamed
    ensures { StreamClosed state ends.old rows.old result ends.new rows.new }
{
    closing::close(state, ends, rows)
}

// Writes a table as a strict file, plain in mode 0 and full in mode 1.
#[unsafe(no_mangle)]
pub extern "C" fn sv_write(
    text: &[u8],
    ends: &[u32],
    rows: &[u32],
    mode: u8,
    out: &mut [u8],
) -> SvWritten
    ensures { WriteOutcome text.now ends.now rows.now mode out.old (sv_written_numbers result) out.new }
{
    SvWritten::from(writer::write(&Table { text, ends, rows }, mode, out))
}

// Finds a column by its name in the header.
#[unsafe(no_mangle)]
pub extern "C" fn sv_find_column(text: &[u8], ends: &[u32], rows: &[u32], name: &[u8]) -> SvColumn
    ensures { Searched text.now ends.now rows.now name.now (sv_column_numbers result) }
{
    SvColumn::from(Table { text, ends, rows }.find_column(name))
}

// Says where a field lies in text.
#[unsafe(no_mangle)]
pub extern "C" fn sv_show(
    text: &[u8],
    ends: &[u32],
    rows: &[u32],
    record: usize,
    column: usize,
) -> SvPart
    ensures { Located text.now ends.now rows.now «record» column (sv_part_numbers result) }
{
    let r = RecordNumber(face::at_most(record));
    let c = FieldNumber(face::at_most(column));
    SvPart::from(Table { text, ends, rows }.locate(r, c))
}

// Builds the index of a file in a dialect.
#[unsafe(no_mangle)]
pub extern "C" fn sv_index(file: &[u8], delimiter: u8, leniencies: u8, index: &mut [u32]) -> Indexed
    ensures { IndexOutcome delimiter leniencies file.now index.old result index.new }
{
    let dialect = Dialect {
        delimiter,
        leniencies,
    };
    jump::index(file, dialect, index)
}

// Says where a record lies in a file, by an index.
#[unsafe(no_mangle)]
pub extern "C" fn sv_jump(
    file: &[u8],
    delimiter: u8,
    leniencies: u8,
    index: &[u32],
    record: usize,
) -> Jumped
    ensures { JumpOutcome delimiter leniencies file.now index.now «record» result }
{
    let dialect = Dialect {
        delimiter,
        leniencies,
    };
    jump::locate(file, dialect, index, record)
}
