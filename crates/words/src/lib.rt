// Words of marks: the bytes of a block of up to 64, each by a table, the first byte lowest. A walk over a
// file goes from mark to mark.
//
// specs/Words.antt says what a word is, and what the tables mark.

#![tactic(auto)]

ghost use Rattle.std.specs.Prelude.{ℕ, Bool, false, Option, Some, None, ◌≡◌, ◌+◌, ◌-◌, ◌/◌, ◌^◌, ◌<◌, ◌≤◌, min, length, take, drop};
ghost use Rattle.std.proofs.Common.{ap};
ghost use Rattle.format.specs.Meant.{dialect_of};
ghost use Rattle.runs.specs.Runs.{is_plain, is_inner};
ghost use Rattle.runs.proofs.Bytes.{plain-range, row-range, inner-beyond};
ghost use Rattle.words.specs.Words.{bit, word, block_end, Marks, is_row};

// Where the block from a place on ends: 64 bytes on, or where the part ends.
pub fn block_end(s: &[u8], at: usize) -> usize
    ensures { result ≡ block_end (length s.now) at }
{
    at + s.len().saturating_sub(at).min(64)
}

// A word without its first n marks.
pub fn shifted(w: u64, n: usize) -> u64
    ensures { result ≡ w / 2 ^ n }
{
    if n < 64 { w >> n } else { 0 }
}

// The later of two places.
pub fn later(i: usize, e: usize) -> usize
    ensures { result ≡ i + (e - i) }
{
    i.max(e)
}

// Which bytes are content, and so stay unmarked: of 0x20 to 0x7E, and one byte beyond these at most.
pub trait Kind: Copy {
    ghost content: { Self → ℕ → Bool };

    ghost beyond: { Self → Option ℕ };

    fn is_content(self, b: u8) -> bool
        ensures { result ≡ content self b };

    fn beyond(self) -> Option<u8>
        ensures { result ≡ beyond self };

    ghost no_more: { (k : Self) (b : ℕ) → (0x20 ≤ b → b ≤ 0x7E → ⊥) → (beyond k ≡ Some b → ⊥) → content k b ≡ false };
}

// Plain text in a dialect.
#[derive(Clone, Copy)]
pub struct PlainText {
    pub dialect: format::Dialect,
}

impl Kind for PlainText {
    ghost content = { λ k. is_plain (dialect_of k.dialect) };

    ghost beyond = { λ _. None };

    ghost no_more = { λ k b out _. plain-range (dialect_of k.dialect) b out };

    fn is_content(self, b: u8) -> bool {
        runs::is_plain(self.dialect, b)
    }

    fn beyond(self) -> Option<u8> {
        None
    }
}

// Plain text and the delimiter of a dialect, of which rows of bare fields are.
#[derive(Clone, Copy)]
pub struct RowText {
    pub dialect: format::Dialect,
}

impl Kind for RowText {
    ghost content = { λ k. is_row (dialect_of k.dialect) };

    ghost beyond = { λ k. Some k.dialect.delimiter };

    ghost no_more = { λ k b out other. row-range (dialect_of k.dialect) b out (λ e. other (ap Some e)) };

    fn is_content(self, b: u8) -> bool {
        runs::is_plain(self.dialect, b) | (b == self.dialect.delimiter)
    }

    fn beyond(self) -> Option<u8> {
        Some(self.dialect.delimiter)
    }
}

// What is content between quotes in every dialect, CR among it.
#[derive(Clone, Copy)]
pub struct InnerText;

impl Kind for InnerText {
    ghost content = { λ _. is_inner };

    ghost beyond = { λ _. Some 0x0D };

    ghost no_more = { λ _ b out other. inner-beyond b out (λ e. other (ap Some e)) };

    fn is_content(self, b: u8) -> bool {
        runs::is_inner(b)
    }

    fn beyond(self) -> Option<u8> {
        Some(0x0D)
    }
}

// The table of a kind: each byte that is not its content is marked.
#[derive(Drop)]
pub struct MarkTable<K: Kind> {
    pub marks: [bool; 256],
    pub kind: K,
    pub ghost exact: { Marks marks (K.content kind) },
}

impl<K: Kind> MarkTable<K> {
    pub fn new(kind: K) -> Self
        ensures { result.kind ≡ kind }
    {
        let mut marks = [true; 256];
        if let Some(b) = kind.beyond() {
            marks[usize::from(b)] = !kind.is_content(b);
        }
        for b in 0x20..0x7F {
            marks[b] = !kind.is_content(b as u8);
        }
        MarkTable { marks, kind }
    }

    // The word of N bytes from a place on, of 64 at most, or of as many as there are.
    pub fn word_at<const N: usize>(&self, s: &[u8], at: usize) -> u64
        ensures { result ≡ word self.now.marks (take (min N 64) (drop at s.now)) }
    {
        word_at::<N>(&self.marks, s, at)
    }
}

// The same by any table of marks.
pub fn word_at<const N: usize>(marks: &[bool; 256], s: &[u8], at: usize) -> u64
    ensures { result ≡ word marks.now (take (min N 64) (drop at s.now)) }
{
    let Some(rest) = s.get(at..) else {
        return 0;
    };
    block_word(marks, rest.get(..N.min(64)).unwrap_or(rest))
}

// The word of a block, by eights: short chains, of which a processor runs many beside each other.
fn block_word(marks: &[bool; 256], block: &[u8]) -> u64
    requires { length block.now ≤ 64 }
    ensures { result ≡ word marks.now block.now }
{
    let (eights, last) = block.as_chunks::<8>();
    let mut w = 0;
    for (k, eight) in eights.iter().enumerate() {
        w += short_word(marks, eight) << (8 * k);
    }
    if last.is_empty() {
        return w;
    }
    w + (short_word(marks, last) << (8 * eights.len()))
}

// The word of a few bytes, the first byte lowest.
fn short_word(marks: &[bool; 256], bytes: &[u8]) -> u64
    requires { length bytes.now ≤ 64 }
    ensures { result ≡ word marks.now bytes.now }
{
    let mut w = 0;
    for (i, b) in bytes.iter().enumerate() {
        w += u64::from(marks[usize::from(*b)]) << i;
    }
    w
}
