// The reader: a file into three lent buffers.
//
// The check goes over the whole file first, then the room is tested, and only then is anything
// written, by a second walk that cannot fail. specs/Read.antt says what a read promises.

#![tactic(auto)]

ghost use Rattle.std.specs.Prelude.{◌≡◌, true};
ghost use Rattle.format.specs.Answer.{answer_from, accepted_with};
ghost use Rattle.format.specs.Meant.{dialect_of};
ghost use Rattle.fill.specs.Buffers.{SameBuffers, lists};
ghost use Rattle.stride.specs.Stride.{Ample};
ghost use Rattle.pieces.specs.Answers.{Answers};
ghost use Rattle.reader.specs.Read.{Reads, WrittenOver, first};

use fill::{Buffers, Head};
use format::{Dialect, ReadError, Refusal, Totals};

// Reads a file in a dialect: the table into the three buffers, what stands behind it left alone; or
// the refusal, and nothing written.
pub fn read(file: &[u8], dialect: Dialect, to: &mut Buffers) -> Result<Totals, ReadError>
    ensures same { SameBuffers to.old to.new }
    ensures outcome { Reads dialect.delimiter dialect.leniencies file.now (lists to.old) (answer_from result) (lists to.new) }
{
    let totals = pieces::checked(file, dialect)?;
    read_accepted(file, dialect, totals, to)
}

// Reads a file in the strict dialect: comma, and no leniency.
pub fn read_strict(file: &[u8], to: &mut Buffers) -> Result<Totals, ReadError>
    ensures same { SameBuffers to.old to.new }
    ensures outcome { Reads 0x2C 0 file.now (lists to.old) (answer_from result) (lists to.new) }
{
    read(file, format::STRICT, to)
}

// Reads a file that the check accepted, by what it holds, if there is room.
fn read_accepted(
    file: &[u8],
    dialect: Dialect,
    totals: Totals,
    to: &mut Buffers,
) -> Result<Totals, ReadError>
    requires { Answers dialect.delimiter dialect.leniencies file.now (accepted_with totals) }
    ensures same { SameBuffers to.old to.new }
    ensures outcome { Reads dialect.delimiter dialect.leniencies file.now (lists to.old) (answer_from result) (lists to.new) }
{
    if to.text.len() < totals.text as usize {
        return Err(Refusal::NoRoomInText.at(places::nowhere()));
    }
    if to.ends.len() < totals.fields.0 as usize {
        return Err(Refusal::NoRoomInEnds.at(places::nowhere()));
    }
    if to.rows.len() < totals.records as usize {
        return Err(Refusal::NoRoomInRows.at(places::nowhere()));
    }
    write_table(file, dialect, to);
    Ok(totals)
}

// Writes the table of an accepted file. Nothing is judged here: the check has been over the file, and
// the room has been tested.
fn write_table(file: &[u8], dialect: Dialect, to: &mut Buffers)
    requires { Ample true (dialect_of dialect) file.now first (lists to.old) }
    ensures same { SameBuffers to.old to.new }
    ensures written { WrittenOver (dialect_of dialect) file.now (lists to.old) (lists to.new) }
{
    let head = Head {
        at: 0,
        form: steps::START,
        held: 0,
        text: 0,
        ends: 0,
        rows: 0,
        begun: false,
    };
    let last = walk::walked(file, dialect, head, to);
    if last.begun {
        fill::put_end(last, last.at, true, to);
    }
}
