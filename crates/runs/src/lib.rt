// Runs of bytes that a walk over a file may pass at once: how long each is from a place on.
//
// specs/Runs.antt says what a run is. Blocks are judged by loops that the compiler makes vectors of.

#![tactic(auto)]

ghost use Rattle.std.specs.Prelude.{◌≡◌, ◌<◌, ◌≤◌, ◌*◌, ◌/◌, ℕ, Bool, length, drop};
ghost use Rattle.std.specs.List.{list_all};
ghost use Rattle.format.specs.Meant.{dialect_of};
ghost use Rattle.format.specs.Place.{line_feeds, since_lf};
ghost use Rattle.runs.specs.Runs.{run, Computes, is_plain, is_inner, pairs, is_break};

use format::Dialect;
use steps::Class;

// Whether b is plain text in a dialect.
#[tactic(auto, unfolding(crate::specs::Runs::is_plain))]
pub fn is_plain(dialect: Dialect, b: u8) -> bool
    ensures { result ≡ is_plain (dialect_of dialect) b }
{
    matches!(steps::class_of(dialect, b), Class::Text) & !steps::is_wide(b)
}

// How many bytes of plain text stand from a place on.
pub fn text_run(dialect: Dialect, s: &[u8], from: usize) -> usize
    ensures { result ≡ run (is_plain (dialect_of dialect)) (drop from s.now) }
{
    bytes_from(s, from)
        .iter()
        .take_while(|b| is_plain(dialect, **b))
        .count()
}

// The bytes from a place on.
fn bytes_from(s: &[u8], from: usize) -> &[u8]
    ensures { result.now ≡ drop from s.now }
{
    s.get(from..).unwrap_or(&[])
}

// Whether b is content between quotes in every dialect, needs no leniency and ends no line. Its class at
// strict says so too, but only without a branch do blocks become vectors.
pub fn is_inner(b: u8) -> bool
    ensures { result ≡ is_inner b }
{
    (b == 0x0D) | ((0x20 <= b) & (b <= 0x7E) & (b != 0x22))
}

// How many such bytes stand from a place on, in whole blocks of 16.
pub fn inner_blocks(s: &[u8], from: usize) -> usize
    ensures { result ≡ run is_inner (drop from s.now) / 16 * 16 }
{
    let Some(rest) = s.get(from..) else {
        return 0;
    };
    16 * whole_blocks::<16, _>(rest, is_inner)
}

// How many whole blocks of N bytes stand at the front whose bytes all pass a test.
fn whole_blocks<const N: usize, F: Fn(u8) -> bool>(bytes: &[u8], test: F) -> usize
    requires some { 0 < N }
    requires small { N ≤ 64 }
    requires callable { (f : _) (b : _) → F.pre f b }
    ensures { (p : ℕ → Bool) → Computes (F.post test) p → result ≡ run p bytes.now / N }
{
    let (blocks, _) = bytes.as_chunks::<N>();
    blocks
        .iter()
        .take_while(
            |block|
                requires { (f : _) (b : _) → F.pre f b }
                ensures { (p : ℕ → Bool) → Computes (F.post test) p → result ≡ list_all p block.entry.now.now }
            { all_pass(*block, &test) },
        )
        .count()
}

// Whether all bytes of a block pass a test, with no end before the last, so that blocks become vectors.
fn all_pass<F: Fn(u8) -> bool>(block: &[u8], test: &F) -> bool
    requires { (f : _) (b : _) → F.pre f b }
    ensures { (p : ℕ → Bool) → Computes (F.post test.now) p → result ≡ list_all p block.now }
{
    block.iter().fold(true, |all, b| all & test(*b))
}

// How many such bytes stand from a place on.
pub fn inner_run(s: &[u8], from: usize) -> usize
    ensures { result ≡ run is_inner (drop from s.now) }
{
    let Some(rest) = s.get(from..) else {
        return 0;
    };
    let passed = inner_blocks(rest, 0);
    passed + rest[passed..].iter().take_while(|b| is_inner(**b)).count()
}

// How many pairs of quotes stand from a place on, one behind the other. None and one are answered
// first, and blocks are tried only where a quote follows the first pair and one stands 32 bytes on.
#[tactic(auto, using(crate::proofs::Runs::pairs_none, crate::proofs::Runs::pairs_one))]
pub fn pair_run(s: &[u8], from: usize) -> usize
    ensures { result ≡ pairs (drop from s.now) }
{
    let Some(rest) = s.get(from..) else {
        return 0;
    };
    match rest {
        [0x22, 0x22, 0x22, ..] if matches!(rest.get(32), Some(0x22)) => pairs_by_blocks(rest),
        [0x22, 0x22, 0x22, ..] => pairs_at_front(rest),
        [0x22, 0x22, ..] => 1,
        _ => 0,
    }
}

// How many pairs of quotes stand at the front, whole blocks of 64 quotes at once.
fn pairs_by_blocks(bytes: &[u8]) -> usize
    ensures { result ≡ pairs bytes.now }
{
    let blocks = whole_blocks::<64, _>(bytes, |b| b == 0x22);
    32 * blocks + pairs_at_front(bytes_from(bytes, 64 * blocks))
}

// How many pairs of quotes stand at the front.
fn pairs_at_front(bytes: &[u8]) -> usize
    ensures { result ≡ pairs bytes.now }
{
    let (twos, _) = bytes.as_chunks::<2>();
    twos.iter()
        .take_while(|two| matches!(two, [0x22, 0x22]))
        .count()
}

// Whether a CR and an LF stand at a place.
#[tactic(auto, using(crate::proofs::Runs::break_front))]
pub fn is_break(s: &[u8], at: usize) -> bool
    ensures { result ≡ is_break (drop at s.now) }
{
    matches!(s.get(at..), Some([0x0D, 0x0A, ..]))
}

// How many line feeds stand from a place on.
pub fn line_feeds(s: &[u8], from: usize) -> usize
    ensures { result ≡ line_feeds (drop from s.now) }
{
    let mut feeds = 0;
    for b in bytes_from(s, from) {
        feeds += usize::from(*b == 0x0A);
    }
    feeds
}

// How many bytes stand behind the last line feed from a place on, or all where there is none.
pub fn since_lf(s: &[u8], from: usize) -> usize
    ensures { result ≡ length (since_lf (drop from s.now)) }
{
    bytes_from(s, from)
        .iter()
        .rev()
        .take_while(|b| **b != 0x0A)
        .count()
}
