// A source and a sink that never fail, and a text that fails where it has no room.
ghost use Rattle.std.specs.Prelude.{◌≡◌, ◌+◌, ◌<◌, ℕ, List, Option, Some, None, length};
ghost use Rattle.std.proofs.Common.{refl, ◌∙◌};
ghost use Rattle.streams.specs.Puts.{Puts, puts_none, puts_more, full_before, full_behind};

use crate::{Sink, Source, Taker};
use std::io;
use std::io::ErrorKind;
use std::marker::Model;

// Bytes in memory. Callers see those that are left.
#[derive(Drop)]
pub struct Bytes<'a> {
    rest: &'a [u8],
}

impl<'a> Model for Bytes<'a> {
    ghost use Rattle.std.specs.Prelude.{ℕ, List};

    ghost Value = { List ℕ };

    ghost view = { λ b. b.rest.now };
}

impl<'a> Bytes<'a> {
    pub fn new(bytes: &'a [u8]) -> Bytes<'a>
        ensures { result ≡ bytes.now }
    {
        Bytes { rest: bytes }
    }
}

impl Source for Bytes<'_> {
    ghost remaining = { λ bytes. Some bytes };

    ghost fails = { λ _. ⊥ };

    fn read_some(&mut self, buffer: &mut [u8]) -> io::Result<usize> {
        let n = self.rest.len().min(buffer.len());
        buffer[..n].copy_from_slice(&self.rest[..n]);
        self.rest = &self.rest[n..];
        Ok(n)
    }
}

// It takes all, and keeps nothing.
#[derive(Drop)]
pub struct Nowhere;

impl Sink for Nowhere {
    ghost contents = { λ _. None };

    ghost fails = { λ _. ⊥ };

    fn write_some(&mut self, bytes: &[u8]) -> io::Result<usize> {
        Ok(bytes.len())
    }
}

// A text in memory, filled from its front. What stands behind the bytes that are put stays.
#[derive(Drop)]
pub struct Page<'a> {
    text: &'a mut [u8],
    held: usize,
}

impl<'a> Page<'a> {
    pub fn new(text: &'a mut [u8]) -> Page<'a>
        ensures same_reference { result.text.ghost_name ≡ text.entry.ghost_name }
        ensures text { result.text.now ≡ text.old }
        ensures empty { result.held ≡ 0 }
    {
        Page { text, held: 0 }
    }

    // How many bytes were put.
    pub fn held(&self) -> usize
        ensures { result ≡ self.now.held }
    {
        self.held
    }
}

impl Taker for Page<'_> {
    ghost takes = { λ old bytes new. (new.text.ghost_name ≡ old.text.ghost_name)
        × Puts old.text.now old.held bytes new.text.now new.held };

    // Some of them have no room.
    ghost fails = { λ old bytes e new. (new.text.ghost_name ≡ old.text.ghost_name)
        × (length old.text.now < old.held + length bytes) };

    #[tactic(auto, using(crate::proofs::Placed::placed))]
    fn put(&mut self, bytes: &[u8]) -> io::Result<()> {
        let from = self.held;
        let text = &mut *self.text;
        if text.len() < from || text.len() - from < bytes.len() {
            return Err(io::Error::from(ErrorKind::StorageFull));
        }
        let to = from + bytes.len();
        text[from..to].copy_from_slice(bytes);
        self.held = to;
        Ok(())
    }

    ghost none = { λ a. (refl, puts_none _ _) };

    ghost more = { λ a b c x y p q. (q.0 ∙ p.0, puts_more _ _ _ _ _ _ _ _ p.1 q.1) };

    ghost after = { λ a b c x y e p q. (q.0 ∙ p.0, full_before x y p.1 q.1) };

    ghost before = { λ a b x y e p. (p.0, full_behind _ _ x y p.1) };
}
