// The bytes that are read and not yet taken, in a fixed buffer.
ghost use Rattle.std.specs.Prelude.{◌≡◌, ◌+◌, ◌<◌, ◌≤◌, [], IfOk, IfErr, OnOk, OnErr, length, drop};
ghost use Rattle.std.specs.Io.KnownBytes.{Keeps, IsAtEnd, prepend_known};
ghost use Rattle.streams.specs.Input.{IsFilled};

use crate::{BUFFER, Source};
use std::io;
use std::marker::Model;

#[derive(Drop)]
pub(crate) struct Window {
    bytes: [u8; BUFFER],
    from: usize,
    to: usize,
}

impl Model for Window {
    ghost use Rattle.std.specs.Prelude.{◌≤◌, ℕ, List, slice_range};
    ghost use Rattle.streams.specs.declared.TheConstants.{BUFFER};

    ghost Value = { List ℕ };

    ghost view = { λ w. slice_range w.bytes w.from w.to };

    ghost invariant = { λ w. (w.from ≤ w.to) × (w.to ≤ BUFFER) };
}

impl Window {
    pub(crate) fn new() -> Window
        ensures { result ≡ [] }
    {
        Window {
            bytes: [0; BUFFER],
            from: 0,
            to: 0,
        }
    }

    pub(crate) fn as_slice(&self) -> &[u8]
        ensures { result.now ≡ self.now }
    {
        &self.bytes[self.from..self.to]
    }

    pub(crate) fn consume(&mut self, count: usize)
        requires { count ≤ length self.old }
        ensures { self.new ≡ drop count self.old }
    {
        self.from += count;
    }

    // Reads once, after what is held.
    pub(crate) fn read_from<S: Source>(&mut self, source: &mut S) -> io::Result<usize>
        requires { length self.old < BUFFER }
        ensures left { Keeps (prepend_known self.old (S.remaining source.old))
            (prepend_known self.new (S.remaining source.new)) }
        ensures ok { IfOk result (λ n. length self.new ≡ length self.old + n) }
        ensures end { IfOk result (λ n. n ≡ 0
            → (self.new ≡ self.old) × IsAtEnd (S.remaining source.new)) }
        ensures err { OnErr result (self.new ≡ self.old) }
        ensures fails { IfErr result S.fails }
    {
        let from = self.from;
        let to = self.to;
        self.bytes.copy_within(from..to, 0);
        self.from = 0;
        self.to = to - from;
        let held = to - from;
        let n = source.read_some(&mut self.bytes[held..])?;
        self.to = held + n;
        Ok(n)
    }

    // Reads on until so many bytes are held, or nothing is left to be read.
    pub(crate) fn fill_from<S: Source>(&mut self, source: &mut S, count: usize) -> io::Result<()>
        requires { count ≤ BUFFER }
        ensures left { Keeps (prepend_known self.old (S.remaining source.old))
            (prepend_known self.new (S.remaining source.new)) }
        ensures ok { OnOk result (IsFilled count self.new (S.remaining source.new)) }
        ensures fails { IfErr result S.fails }
    {
        'reads: while self.as_slice().len() < count {
            if self.read_from(source)? == 0 {
                return Ok(());
            }
        }
        Ok(())
    }
}
