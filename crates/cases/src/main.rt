// The rules' list of bytes to try, run through the public calls, one line for each case: the file, the
// dialect, the reader's answer and the check's; then the writer's lines. An accepted file shows records,
// fields, text length and report; a refused one its number, then line, column and byte. The stored
// output, with which this is compared, has the rules' values.

#![tactic(auto)]

use face::SvWritten;
use fill::Buffers;
use format::{Dialect, FieldNumber, Leniency, Place, ReadError, RecordNumber, STRICT, Totals};
use std::fmt::{Display, Formatter, Write};
use std::{fmt, io};
use tables::Table;

fn main(rt: HostRuntime) -> io::Result<()> {
    accepted_files(&rt)?;
    refused_files(&rt)?;
    lenient_files(&rt)?;
    long_contents(&rt)?;
    written_files(&rt)
}

fn accepted_files(rt: &impl Print) -> io::Result<()> {
    strict(rt, "empty", b"")?;
    strict(rt, "⏎", b"\r\n")?;
    strict(rt, "a⏎⏎", b"a\r\n\r\n")?;
    strict(rt, "a⏎\"\"", b"a\r\n\"\"")?;
    strict(rt, "a,", b"a,")?;
    strict(rt, "\"a\"\"b\"", b"\"a\"\"b\"")?;
    strict(rt, "\"a⏎b\",c⏎", b"\"a\r\nb\",c\r\n")
}

fn refused_files(rt: &impl Print) -> io::Result<()> {
    strict(rt, "a\"b", b"a\"b")?;
    strict(rt, "\"a\"b", b"\"a\"b")?;
    strict(rt, "a CR b", b"a\rb")?;
    strict(rt, "a LF", b"a\n")?;
    strict(rt, "a,b⏎\"c", b"a,b\r\n\"c")?;
    strict(rt, "a,b⏎⏎", b"a,b\r\n\r\n")?;
    strict(rt, " a , \"b\" ", b" a , \"b\" ")
}

fn lenient_files(rt: &impl Print) -> io::Result<()> {
    lenient(rt, "a LF", b"a\n", "lf", Leniency::Lf)?;
    lenient(rt, "a,b⏎c", b"a,b\r\nc", "ragged", Leniency::Ragged)?;
    lenient(
        rt,
        " a , \"b\" ",
        b" a , \"b\" ",
        "blanks",
        Leniency::Blanks,
    )
}

fn long_contents(rt: &impl Print) -> io::Result<()> {
    let long = [b'a'; 65536];
    strict(rt, "65,535 times a", &long[1..])?;
    strict(rt, "65,536 times a", &long)
}

fn strict(rt: &impl Print, name: &str, file: &[u8]) -> io::Result<()> {
    case(rt, name, file, "strict", STRICT)
}

fn lenient(
    rt: &impl Print,
    name: &str,
    file: &[u8],
    label: &str,
    leniency: Leniency,
) -> io::Result<()> {
    let leniencies = leniency.bit();
    let dialect = Dialect {
        leniencies,
        ..STRICT
    };
    case(rt, name, file, label, dialect)
}

// Reads and checks a file in a dialect, of which the line has the label.
fn case(rt: &impl Print, name: &str, file: &[u8], label: &str, dialect: Dialect) -> io::Result<()> {
    let mut to = Buffers {
        text: &mut [0; 65536],
        ends: &mut [0; 8],
        rows: &mut [0; 8],
    };
    let read = Reading(reader::read(file, dialect, &mut to));
    let checked = Reading(pieces::checked(file, dialect));
    println!(rt; "{name} | {label} | {read} | {checked}")
}

// One record of an empty field and x,y: plain and full. And the file a, line break, two quotes: it has
// the plain form's length, plus two for the quotes without need, minus two for the break it lacks.
fn written_files(rt: &impl Print) -> io::Result<()> {
    let table = Table {
        text: b"x,y",
        ends: &[0, 3],
        rows: &[2],
    };
    written(rt, "plain", &table, 0)?;
    written(rt, "full", &table, 1)?;
    rewritten(rt, shown(b"a\r\n\"\""))
}

// A text as the one field of a table whose numbers go with this call: a part that is shown outlives them.
fn shown(text: &[u8]) -> &[u8] {
    let ends = [u32::try_from(text.len()).unwrap_or(0)];
    let rows = [1];
    let table = Table {
        text,
        ends: &ends,
        rows: &rows,
    };
    table.show(RecordNumber(0), FieldNumber(0), b"")
}

fn rewritten(rt: &impl Print, file: &[u8]) -> io::Result<()> {
    let mut text = [0; 1];
    let mut ends = [0; 2];
    let mut rows = [0; 2];
    let mut to = Buffers {
        text: &mut text,
        ends: &mut ends,
        rows: &mut rows,
    };
    let _ = reader::read_strict(file, &mut to);
    let table = Table {
        text: &text,
        ends: &ends,
        rows: &rows,
    };
    print!(rt; "{} | {} bytes | ", File(file), file.len())?;
    written(rt, "plain", &table, 0)
}

fn written(rt: &impl Print, name: &str, table: &Table<'_, '_>, mode: u8) -> io::Result<()> {
    let mut out = [0; 16];
    let answer = writer::write(table, mode, &mut out);
    match answer {
        Ok(n) => {
            let file = File(&out[..out.len().min(n as usize)]);
            println!(rt; "{name} | {file} | {n} bytes")
        }
        Err(_) => println!(rt; "{name} | {}", SvWritten::from(answer).refusal),
    }
}

// What a file holds, or why it is refused.
#[derive(Clone, Copy)]
struct Reading(Result<Totals, ReadError>);

impl Display for Reading {
    fn fmt<W: Write>(&self, f: &mut Formatter<W>) -> fmt::Result {
        match self.0 {
            Ok(
                Totals {
                    records,
                    fields,
                    text,
                    report,
                },
            ) => write!(f, "{records}, {}, {text}, {report}", fields.0),
            Err(ReadError { number, place }) => {
                let Place { line, column, byte } = place;
                write!(f, "{number}; {}, {}, {}", line.0, column.0, byte.0)
            }
        }
    }
}

// A file in which LF comes only behind CR, each CRLF shown as one sign.
#[derive(Clone, Copy)]
struct File<'a>(&'a [u8]);

impl Display for File<'_> {
    fn fmt<W: Write>(&self, f: &mut Formatter<W>) -> fmt::Result {
        for b in self.0 {
            match b {
                b'\r' => {}
                b'\n' => f.write_char('⏎')?,
                _ => f.write_char(char::from(*b))?,
            }
        }
        Ok(())
    }
}
