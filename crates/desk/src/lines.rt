ghost use Rattle.std.specs.Prelude.{◌≡◌, ◌<◌, length, IfOk, MatchOption, vec_len, nat_lt};

use std::alloc::Global;
use std::io;
use std::io::BufRead;

// The lines of a script, one at a time, all in one buffer. The library's `split` makes a buffer for each line, which was tried: blank lines took twice the time, and long ones more memory.
#[derive(Drop)]
pub struct Lines<R> {
    reader: R,
    line: Vec<u8>,
}

impl<R: BufRead> Lines<R> {
    pub(crate) fn new(heap: Global, reader: R) -> Lines<R> {
        Lines {
            reader,
            line: Vec::new(heap),
        }
    }

    // Goes to the next line; false at the end of the script.
    fn advance(&mut self) -> io::Result<bool>
        ensures { IfOk result (λ more. more ≡ nat_lt 0 (vec_len self.new.line)) }
    {
        self.line.clear();
        let read = self.reader.read_until(b'\n', &mut self.line)?;
        Ok(read > 0)
    }

    // The next line, with its line feed if it has one; none at the end of the script.
    pub(crate) fn next(&mut self) -> io::Result<Option<&[u8]>>
        ensures { IfOk result (λ o. MatchOption o (Unit {0}) (λ line. 0 < length line.now)) }
    {
        if !self.advance()? {
            return Ok(None);
        }
        Ok(Some(self.line.as_slice()))
    }
}

// A loop over lines counts its turns; no script reaches their end.
pub(crate) fn too_long() -> io::Error {
    io::Error::other("the script has more than 18,446,744,073,709,551,615 lines")
}
