// What C gets: structs of numbers, made of the answers to a write, a search and a show.

#![tactic(auto)]

ghost use Rattle.std.specs.Prelude.{◌≡◌, min};
ghost use Rattle.format.specs.Answer.{writer_numbers, search_numbers, part_numbers};
ghost use Rattle.format.specs.Memory.{largest32};
ghost use Rattle.face.specs.Face.{written_from, column_from, part_from};

use format::{Column, FieldNumber, Line, Part, Refusal, SearchError, TextIndex, WriteError};

// An index from 0, of the kind that the refusal tells: of a text byte for 3, of a field for 9, of a
// record for 10.
#[repr(C)]
#[derive(Clone, Copy)]
pub struct Index(pub u32);

#[repr(C)]
#[derive(Clone, Copy)]
pub struct SvWritten {
    pub refusal: u32,
    pub line: Line,
    pub column: Column,
    pub byte: Index,
    pub length: u32,
}

#[repr(C)]
#[derive(Clone, Copy)]
pub struct SvColumn {
    pub refusal: u32,
    pub column: FieldNumber,
}

#[repr(C)]
#[derive(Clone, Copy)]
pub struct SvPart {
    pub found: u32,
    pub start: TextIndex,
    pub length: u32,
}

// A number, or the most that 32 bits hold, which is behind every record and every column.
pub fn at_most(n: usize) -> u32
    ensures { result ≡ min n largest32 }
{
    u32::try_from(n).unwrap_or(u32::MAX)
}

// The five numbers of an answer to a write. Of these, line and column are always 0.
impl From<Result<u32, WriteError>> for SvWritten {
    ghost from_gives = { λ answer written. written ≡ written_from (writer_numbers answer) };

    fn from(answer: Result<u32, WriteError>) -> Self {
        let (refusal, byte, length) = match answer {
            Ok(n) => (0, 0, n),
            Err(WriteError::UnknownMode) => (Refusal::UnknownDialectOrMode as u32, 0, 0),
            Err(WriteError::Malformed) => (Refusal::MalformedTable as u32, 0, 0),
            Err(WriteError::Forbidden(b)) => (Refusal::ForbiddenByte as u32, b.0, 0),
            Err(WriteError::LongContent(k)) => (Refusal::LongContent as u32, k.0, 0),
            Err(WriteError::Uneven(r)) => (Refusal::UnequalRecord as u32, r.0, 0),
            Err(WriteError::LongFile) => (Refusal::LongFile as u32, 0, 0),
            Err(WriteError::NoRoom) => (Refusal::NoRoomInOut as u32, 0, 0),
        };
        SvWritten {
            refusal,
            line: Line(0),
            column: Column(0),
            byte: Index(byte),
            length,
        }
    }
}

// The two numbers of an answer to a search.
impl From<Result<FieldNumber, SearchError>> for SvColumn {
    ghost from_gives = { λ answer found. found ≡ column_from (search_numbers answer) };

    fn from(answer: Result<FieldNumber, SearchError>) -> Self {
        let (refusal, column) = match answer {
            Ok(k) => (0, k),
            Err(SearchError::Malformed) => (Refusal::MalformedTable as u32, FieldNumber(0)),
            Err(SearchError::Twice(k)) => (Refusal::EqualNames as u32, k),
            Err(SearchError::Missing) => (Refusal::NoSuchName as u32, FieldNumber(0)),
        };
        SvColumn { refusal, column }
    }
}

// The three numbers of a part.
impl From<Option<Part>> for SvPart {
    ghost from_gives = { λ answer part. part ≡ part_from (part_numbers answer) };

    fn from(answer: Option<Part>) -> Self {
        match answer {
            Some(Part { start, length }) => SvPart {
                found: 1,
                start,
                length,
            },
            None => SvPart {
                found: 0,
                start: TextIndex(0),
                length: 0,
            },
        }
    }
}
