// The limits and the shared types, all by value: places, and the answers of the calls.
//
// specs/Answer.antt gives the rules' number and values for each answer.

#![tactic(auto)]

ghost use Rattle.std.specs.Prelude.{◌<◌, ◌≡◌};
ghost use Rattle.format.specs.Dialect.{bit_of, names};
ghost use Rattle.format.specs.Meant.{meant};

// The house limits, in bytes: a field's content, and a file.
pub const CONTENT_LIMIT: u32 = 65535;

pub const FILE_LIMIT: u32 = 16777216;

// An index has an entry for each so many records.
pub const INDEX_STEP: usize = 64;

// The largest number of 32 bits, which is the most that ends and rows can count to.
pub const LARGEST_32: usize = 4294967295;

// Kinds of number that cannot be mixed. The rules name four: line, column, byte offset and field
// number. Lines and columns count from 1, all others from 0. A table's column is a field number and
// never a Column; a byte offset is a place in a file, and an index into a table's text is no such place.
#[repr(C)]
#[derive(Clone, Copy)]
pub struct Line(pub u32);

#[repr(C)]
#[derive(Clone, Copy)]
pub struct Column(pub u32);

#[repr(C)]
#[derive(Clone, Copy)]
pub struct ByteOffset(pub u32);

#[repr(C)]
#[derive(Clone, Copy)]
pub struct FieldNumber(pub u32);

#[repr(C)]
#[derive(Clone, Copy)]
pub struct RecordNumber(pub u32);

#[repr(C)]
#[derive(Clone, Copy)]
pub struct TextIndex(pub u32);

#[repr(C)]
#[derive(Clone, Copy)]
pub struct Place {
    pub line: Line,
    pub column: Column,
    pub byte: ByteOffset,
}

// The rules' refusals, by their numbers.
#[derive(Clone, Copy)]
pub enum Refusal {
    UnknownDialectOrMode = 1,
    LongFile = 2,
    ForbiddenByte = 3,
    QuoteInBareField = 4,
    ByteAfterClosingQuote = 5,
    CrWithoutLf = 6,
    LfWithoutCr = 7,
    QuotedFieldOpen = 8,
    LongContent = 9,
    UnequalRecord = 10,
    NoRoomInText = 11,
    NoRoomInEnds = 12,
    NoRoomInRows = 13,
    MalformedTable = 14,
    NoRoomInOut = 15,
    EqualNames = 16,
    NoSuchName = 17,
    NoSuchRecord = 18,
    NoRoomInIndex = 19,
    WrongIndex = 20,
}

// What may be switched on.
#[derive(Clone, Copy)]
pub enum Leniency {
    Lf,
    Blanks,
    Ragged,
    Bytes,
}

impl Leniency {
    // Its bit in a sum of leniencies, and in a report.
    pub fn bit(self) -> u8
        ensures { result ≡ bit_of (meant self) }
    {
        match self {
            Leniency::Lf => 1,
            Leniency::Blanks => 2,
            Leniency::Ragged => 4,
            Leniency::Bytes => 8,
        }
    }
}

// The two bytes of a dialect: what delimits, and the sum of the leniencies that are on. Any two bytes are
// one, whether or not the rules know it.
#[derive(Clone, Copy)]
pub struct Dialect {
    pub delimiter: u8,
    pub leniencies: u8,
}

impl Dialect {
    // Whether its sum names a leniency.
    pub fn allows(self, leniency: Leniency) -> bool
        ensures { result ≡ names self.leniencies (meant leniency) }
    {
        self.leniencies / leniency.bit() % 2 == 1
    }
}

// Comma, and no leniency.
pub const STRICT: Dialect = Dialect {
    delimiter: b',',
    leniencies: 0,
};

// The place that names nothing.
pub const NOWHERE: Place = Place {
    line: Line(0),
    column: Column(0),
    byte: ByteOffset(0),
};

// What an accepted file holds, and the leniencies that it used. The fields are counted by the number
// that one more would have.
#[repr(C)]
#[derive(Clone, Copy)]
pub struct Totals {
    pub records: u32,
    pub fields: FieldNumber,
    pub text: u32,
    pub report: u32,
}

// What is said of the totals where a file is refused.
const NO_TOTALS: Totals = Totals {
    records: 0,
    fields: FieldNumber(0),
    text: 0,
    report: 0,
};

// Why a file is not read: the refusal's number, and the place that it names.
#[derive(Clone, Copy)]
pub struct ReadError {
    pub number: u8,
    pub place: Place,
    pub ghost some: { 0 < number },
}

impl Refusal {
    ghost use Rattle.format.specs.Meant.{number_of};

    // This refusal, with the place that it names.
    pub fn at(self, place: Place) -> ReadError
        ensures number { result.number ≡ number_of self }
        ensures place { result.place ≡ place }
    {
        ReadError {
            number: self as u8,
            place,
        }
    }
}

// The reader's answer and the check's, as C has it: refusal 0 and the totals; or the refusal's number and
// the place that it names. The rest of either is 0.
#[repr(C)]
#[derive(Clone, Copy)]
pub struct Answer {
    pub refusal: u32,
    pub place: Place,
    pub totals: Totals,
}

impl From<Result<Totals, ReadError>> for Answer {
    ghost use Rattle.format.specs.Answer.{answer_from};

    ghost from_gives = { λ reading answer. answer ≡ answer_from reading };

    fn from(reading: Result<Totals, ReadError>) -> Self {
        match reading {
            Ok(totals) => Answer {
                refusal: 0,
                place: NOWHERE,
                totals,
            },
            Err(error) => Answer {
                refusal: error.number as u32,
                place: error.place,
                totals: NO_TOTALS,
            },
        }
    }
}

// Why nothing was written.
#[derive(Clone, Copy)]
pub enum WriteError {
    UnknownMode,
    Malformed,
    Forbidden(TextIndex),
    LongContent(FieldNumber),
    Uneven(RecordNumber),
    LongFile,
    NoRoom,
}

// Why a column search gives no column; the later of two equal names is told.
#[derive(Clone, Copy)]
pub enum SearchError {
    Malformed,
    Twice(FieldNumber),
    Missing,
}

// Where a field lies in text.
#[derive(Clone, Copy)]
pub struct Part {
    pub start: TextIndex,
    pub length: u32,
}

// The answer to an index: refusal 0 and how many entries the file has; or the refusal's number and the
// place that it names. The rest of either is 0.
#[repr(C)]
#[derive(Clone, Copy)]
pub struct Indexed {
    pub refusal: u32,
    pub place: Place,
    pub entries: u32,
}

// Where a record lies in a file: refusal 0, its start and its length; or the refusal's number and the
// empty part at the file's beginning. No place is named.
#[repr(C)]
#[derive(Clone, Copy)]
pub struct Jumped {
    pub refusal: u32,
    pub place: Place,
    pub start: ByteOffset,
    pub length: u32,
}
