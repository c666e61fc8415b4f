// What bytes come from and what takes them, each with the errors that it may give: whoever works with any of them can
// pass such an error on, and cannot make one. Lines are read and bytes are written through buffers of a fixed size.
#![tactic(auto)]

ghost use Rattle.std.specs.Prelude.{◌≡◌, ◌<◌, ℕ, List, [], ◌++◌, Option, OnOk, IfOk, IfErr, ⊤, length};
ghost use Rattle.std.specs.Io.{ReadsAtMost, WritesAtMost};
ghost use Rattle.std.specs.Io.KnownBytes.{ReadConsumes, WriteAppends};
ghost use Rattle.std.specs.declared.io.Error.{Error};

use std::io;
use std::io::{ErrorKind, Read, Write};

mod ending;
pub mod lines;
pub mod memory;
pub mod output;
pub mod theorems;
mod window;

// The characters of the longest line of any kind.
pub const LINE: usize = 130;

// The bytes of a buffer, between a source and its lines and before a sink.
pub const BUFFER: usize = 4096;

// How often a call that a signal cuts short is made again: so often that no machine comes to the end of it.
const REPEATS: usize = usize::MAX;

pub trait Source {
    // The bytes that reads will give from here on, where they are known.
    ghost remaining: { Self → Option (List ℕ) };

    // The errors that its reads may give.
    ghost fails: { Error → Type 0 };

    fn read_some(&mut self, buffer: &mut [u8]) -> io::Result<usize>
        ensures bound { ReadsAtMost result buffer.new }
        ensures bytes { ReadConsumes (remaining self.old) (remaining self.new) result buffer.new }
        ensures err { IfErr result fails };
}

pub trait Sink {
    // The bytes that it holds, where they are known.
    ghost contents: { Self → Option (List ℕ) };

    // The errors that its writes may give.
    ghost fails: { Error → Type 0 };

    fn write_some(&mut self, bytes: &[u8]) -> io::Result<usize>
        ensures bound { WritesAtMost result bytes.now }
        ensures some { IfOk result (λ n. 0 < length bytes.now → 0 < n) }
        ensures bytes { WriteAppends (contents self.old) (contents self.new) result bytes.now }
        ensures err { IfErr result fails };
}

// What takes bytes, one piece after the other: a sink behind its buffer, or a text in memory.
pub trait Taker {
    // It takes some bytes, and goes from one to another.
    ghost takes: { Self → List ℕ → Self → Type 0 };

    // It fails at some bytes, with an error, and goes from one to another.
    ghost fails: { Self → List ℕ → Error → Self → Type 0 };

    fn put(&mut self, bytes: &[u8]) -> io::Result<()>
        ensures ok { OnOk result (takes self.old bytes.now self.new) }
        ensures err { IfErr result (λ e. fails self.old bytes.now e self.new) };

    // No bytes are taken by doing nothing.
    ghost none: { (a : Self) → takes a [] a };

    // Some, and then more.
    ghost more: { (a b c : Self) (x y : List ℕ)
        → takes a x b → takes b y c → takes a (x ++ y) c };

    // Failing at some after others, or before others, is failing at all of them.
    ghost after: { (a b c : Self) (x y : List ℕ) (e : Error)
        → takes a x b → fails b y e c → fails a (x ++ y) e c };

    ghost before: { (a b : Self) (x y : List ℕ) (e : Error)
        → fails a x e b → fails a (x ++ y) e b };
}

// Of std's readers and writers no more is known than that they may fail. A call that a signal cuts short has done
// nothing, and is made again.
impl<R: Read> Source for R {
    ghost remaining = { R.remaining };

    ghost fails = { λ _. ⊤ };

    fn read_some(&mut self, buffer: &mut [u8]) -> io::Result<usize> {
        for _ in 0..REPEATS {
            match self.read(buffer) {
                Err(e) if e.kind() == ErrorKind::Interrupted => {}
                done => return done,
            }
        }
        self.read(buffer)
    }
}

fn write_once<W: Write>(writer: &mut W, bytes: &[u8]) -> io::Result<usize>
    ensures bound { WritesAtMost result bytes.now }
    ensures bytes { WriteAppends (W.contents writer.old) (W.contents writer.new) result bytes.now }
{
    for _ in 0..REPEATS {
        match writer.write(bytes) {
            Err(e) if e.kind() == ErrorKind::Interrupted => {}
            done => return done,
        }
    }
    writer.write(bytes)
}

impl<W: Write> Sink for W {
    ghost contents = { W.contents };

    ghost fails = { λ _. ⊤ };

    fn write_some(&mut self, bytes: &[u8]) -> io::Result<usize> {
        let n = write_once(self, bytes)?;
        if n == 0 && !bytes.is_empty() {
            return Err(io::Error::new(ErrorKind::WriteZero, "nothing more is taken"));
        }
        Ok(n)
    }
}
