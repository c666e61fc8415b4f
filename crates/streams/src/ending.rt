// A source that is read no more once it has ended.
ghost use Rattle.std.specs.Prelude.{◌≡◌};

use crate::Source;
use std::io;
use std::marker::Model;

// A source, and whether a read of it has given nothing. At a terminal the next read would wait for more to be typed, and give
// it. Callers see the bytes that are left, where these are known.
#[derive(Drop)]
pub(crate) struct Ending<S: Source> {
    source: S,
    is_ended: bool,
}

impl<S: Source> Model for Ending<S> {
    ghost use Rattle.std.specs.Prelude.{◌≡◌, ℕ, true, List, Option};
    ghost use Rattle.std.specs.Io.KnownBytes.{IsAtEnd};

    ghost Value = { Option (List ℕ) };

    ghost view = { λ e. S.remaining e.source };

    ghost invariant = { λ e. e.is_ended ≡ true → IsAtEnd (S.remaining e.source) };
}

impl<S: Source> Ending<S> {
    pub(crate) fn new(source: S) -> Ending<S>
        ensures { result ≡ S.remaining source }
    {
        Ending {
            source,
            is_ended: false,
        }
    }
}

impl<S: Source> Source for Ending<S> {
    ghost remaining = { λ left. left };

    ghost fails = { S.fails };

    fn read_some(&mut self, buffer: &mut [u8]) -> io::Result<usize> {
        if self.is_ended {
            return Ok(0);
        }
        let n = self.source.read_some(buffer)?;
        self.is_ended = n == 0 && !buffer.is_empty();
        Ok(n)
    }
}
