// The check program: reads standard input as a strict file, through a buffer of 65,536 bytes, and
// prints the eight house lines. It stops reading once the file is too long for good.

#![tactic(auto)]

use format::Answer;
use std::fmt::{Display, Formatter, Write};
use std::io::Read;
use std::{fmt, io};

fn main(rt: HostRuntime) -> io::Result<()> {
    let mut buffer = [0u8; 65536];
    let mut check = pieces::start(format::STRICT);
    let mut total: usize = 0;
    // As many reads as the file takes, so no iterator counts them.
    while total <= format::FILE_LIMIT as usize {
        let Ok(n) = rt.stdin().read(&mut buffer) else {
            return complain(&rt);
        };
        if n == 0 {
            break;
        }
        check = pieces::feed(check, &buffer[..n]);
        total += n;
    }
    let lines = HouseLines(Answer::from(pieces::ask(check)));
    print!(&rt; "{lines}")
}

// A read error is no end of file: nothing on standard output, one line on standard error.
fn complain(rt: &impl Eprint) -> io::Result<()> {
    eprintln!(rt; "buoycheck: standard input cannot be read")
}

// The eight house lines of an answer.
#[derive(Clone, Copy)]
struct HouseLines(Answer);

impl Display for HouseLines {
    fn fmt<W: Write>(&self, f: &mut Formatter<W>) -> fmt::Result {
        let Answer {
            refusal,
            place,
            totals,
        } = self.0;
        writeln!(f, "refusal={refusal}")?;
        writeln!(f, "line={}", place.line.0)?;
        writeln!(f, "column={}", place.column.0)?;
        writeln!(f, "byte={}", place.byte.0)?;
        writeln!(f, "records={}", totals.records)?;
        writeln!(f, "fields={}", totals.fields.0)?;
        writeln!(f, "text={}", totals.text)?;
        writeln!(f, "report={}", totals.report)
    }
}
