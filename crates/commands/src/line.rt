// The words of a line.
ghost use Rattle.std.specs.Prelude.{◌≡◌, IfOk, MatchResult};
ghost use Rattle.commands.specs.Faults.{NoText};
ghost use Rattle.workings.specs.Lines.{skipped, texts, Words};

use crate::unreadable::Unreadable;
use std::alloc::{AllocError, Global};

// Whether a line is blank, or a comment: one that begins with `#`.
pub fn is_skipped(line: &[u8]) -> bool
    ensures { result ≡ skipped line.now }
{
    let first = line.iter().find(|b| !b.is_ascii_whitespace());
    first.is_none_or(|b| *b == b'#')
}

pub fn text_of(line: &[u8]) -> Result<&str, Unreadable<'_>>
    ensures { MatchResult result (λ t. t.now ≡ line.now) (NoText line.now) }
{
    std::str::from_utf8(line).map_err(|_| Unreadable::NotText)
}

// The parts of a text between white space.
// By a loop: of `collect`, an edit that leaves the text uncut could only change the iterator's type, so that its refusal told nothing of the words.
pub fn split(heap: Global, text: &str) -> Result<Vec<&str>, AllocError>
    ensures { IfOk result (λ v. Words text.now (texts v.items)) }
{
    let mut words = Vec::new(heap);
    for word in text.split_whitespace() {
        words.push(word)?;
    }
    Ok(words)
}
