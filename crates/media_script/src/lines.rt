// The lines of a script, and the words of a line.
ghost use Rattle.std.specs.Prelude.{◌≡◌, ◌≢◌, ◌∷◌, ◌++◌, ◌==◌, map, filter, length, All, IfOk, MatchOption};
ghost use Rattle.media_script.specs.Grammar.{is_long};
ghost use Rattle.media_script.specs.Spelling.{words_of, is_passed_over};

use memchr::memchr;
use std::alloc::{AllocError, Global};

/// The most words of a line of a script of two sessions that is read at all: a choice. A line of
/// any kind has fewer. The list of a line's words begins with room for so many.
pub const MOST_WORDS: usize = 16;

// What stands before the first byte that is this one, and what behind it.
fn cut_at(bytes: &[u8], end: u8) -> Option<(&[u8], &[u8])>
    ensures { MatchOption result (All (λ b. b ≢ end) bytes.now)
        (λ x. (bytes.now ≡ x.0.now ++ end ∷ x.1.now) × All (λ b. b ≢ end) x.0.now) }
{
    let at = memchr(end, bytes)?;
    Some((&bytes[..at], &bytes[at + 1..]))
}

// The first line, and what stands behind its end.
pub fn first_line(bytes: &[u8]) -> Option<(&[u8], &[u8])>
    ensures { MatchOption result (All (λ b. b ≢ 10) bytes.now)
        (λ x. (bytes.now ≡ x.0.now ++ 10 ∷ x.1.now) × All (λ b. b ≢ 10) x.0.now) }
{
    cut_at(bytes, b'\n')
}

fn spaces(line: &[u8]) -> usize
    ensures { result ≡ length (filter (λ b. b == 32) line.now) }
{
    line.iter().filter(|b| **b == b' ').count()
}

// Whether it has more words than a line of any kind.
pub fn is_long(line: &[u8]) -> bool
    ensures { result ≡ is_long (words_of line.now) }
{
    spaces(line) >= MOST_WORDS
}

// The words between single spaces.
pub fn words(alloc: Global, line: &[u8]) -> Result<Vec<&[u8]>, AllocError>
    ensures { IfOk result (λ v. map (λ w. w.now) v.items ≡ words_of line.now) }
{
    let mut words = Vec::with_capacity(alloc, MOST_WORDS)?;
    let mut rest = line;
    while let Some((word, after)) = cut_at(rest, b' ') {
        words.push(word)?;
        rest = after;
    }
    words.push(rest)?;
    Ok(words)
}

// An empty line, and one that begins with #.
pub fn is_passed_over(line: &[u8]) -> bool
    ensures { result ≡ is_passed_over line.now }
{
    matches!(line, [] | [b'#', ..])
}
