// Bytes on their way to a sink, gathered in a fixed buffer so that few writes serve many small pieces.
ghost use Rattle.std.specs.Prelude.{◌≡◌, ◌↔◌, ◌+◌, ◌≤◌, [], ◌++◌, IfErr, IsTrue, OnOk, OnErr, length};
ghost use Rattle.std.proofs.Common.{refl, ◌∙◌};
ghost use Rattle.std.specs.Io.KnownBytes.{Appends};
ghost use Rattle.streams.specs.Takes.{TakesBut, TakesStart};
ghost use Rattle.streams.specs.Pieces.{nothing_comes, more_comes, start_comes, more_would_come};
ghost use Rattle.streams.specs.declared.TheConstants.{BUFFER};

use crate::{BUFFER, Sink, Taker};
use std::io;
use std::marker::Model;

// All of some bytes, written in as many writes as the sink asks for.
#[tactic(auto, using(crate::proofs::Parts::appends_more, crate::proofs::Parts::starts_with_taken))]
pub fn write_all<K: Sink>(sink: &mut K, bytes: &[u8]) -> io::Result<()>
    ensures ok { OnOk result (Appends (K.contents sink.old) (K.contents sink.new) bytes.now) }
    ensures err { OnErr result
        (TakesStart (K.contents sink.old) (K.contents sink.new) bytes.now) }
    ensures fails { IfErr result K.fails }
{
    let mut at = 0;
    while at < bytes.len() {
        at += sink.write_some(&bytes[at..])?;
    }
    Ok(())
}

// Callers see the bytes that are put and that no sink has been given yet.
#[derive(Drop)]
pub struct Output {
    bytes: [u8; BUFFER],
    held: usize,
}

impl Model for Output {
    ghost use Rattle.std.specs.Prelude.{◌≤◌, ℕ, List, take};
    ghost use Rattle.streams.specs.declared.TheConstants.{BUFFER};

    ghost Value = { List ℕ };

    ghost view = { λ o. take o.held o.bytes };

    ghost invariant = { λ o. o.held ≤ BUFFER };
}

impl Output {
    pub fn new() -> Output
        ensures { result ≡ [] }
    {
        Output {
            bytes: [0; BUFFER],
            held: 0,
        }
    }

    fn has_room(&self, count: usize) -> bool
        ensures { IsTrue result ↔ (length self.now + count ≤ BUFFER) }
    {
        count <= BUFFER - self.held
    }

    fn hold(&mut self, bytes: &[u8])
        requires { length self.old + length bytes.now ≤ BUFFER }
        ensures { self.new ≡ self.old ++ bytes.now }
    {
        let from = self.held;
        let to = from + bytes.len();
        self.bytes[from..to].copy_from_slice(bytes);
        self.held = to;
    }

    // Some bytes put after the others. After an `Err` the sink has taken a start of them all, and the rest is let go.
    #[tactic(auto, using(crate::proofs::Parts::takes_both, crate::specs::Pieces::starts_before, crate::proofs::Parts::starts_after))]
    pub fn put<K: Sink>(&mut self, sink: &mut K, bytes: &[u8]) -> io::Result<()>
        ensures ok { OnOk result (TakesBut self.new
            (K.contents sink.old) (K.contents sink.new) (self.old ++ bytes.now)) }
        ensures err { OnErr result
            (TakesStart (K.contents sink.old) (K.contents sink.new) (self.old ++ bytes.now)) }
        ensures empty { OnErr result (self.new ≡ []) }
        ensures fails { IfErr result K.fails }
    {
        if self.has_room(bytes.len()) {
            self.hold(bytes);
            return Ok(());
        }
        self.finish(sink)?;
        if BUFFER < bytes.len() {
            return write_all(sink, bytes);
        }
        self.hold(bytes);
        Ok(())
    }

    // All that is held back, written.
    pub fn finish<K: Sink>(&mut self, sink: &mut K) -> io::Result<()>
        ensures ok { OnOk result (Appends (K.contents sink.old) (K.contents sink.new) self.old) }
        ensures err { OnErr result
            (TakesStart (K.contents sink.old) (K.contents sink.new) self.old) }
        ensures empty { self.new ≡ [] }
        ensures fails { IfErr result K.fails }
    {
        let held = self.held;
        self.held = 0;
        write_all(sink, &self.bytes[..held])
    }
}

// A sink behind a buffer of its own.
#[derive(Drop)]
pub struct Gathered<'a, K: Sink> {
    sink: &'a mut K,
    output: Output,
}

impl<'a, K: Sink> Gathered<'a, K> {
    pub fn new(sink: &'a mut K) -> Gathered<'a, K>
        ensures same_reference { result.sink.ghost_name ≡ sink.entry.ghost_name }
        ensures sink { result.sink.now ≡ sink.old }
        ensures empty { result.output ≡ [] }
    {
        Gathered {
            sink,
            output: Output::new(),
        }
    }

    // All that is held back, written.
    pub fn finish(&mut self) -> io::Result<()>
        ensures same_reference { self.new.sink.ghost_name ≡ self.old.sink.ghost_name }
        ensures ok { OnOk result (Appends
            (K.contents self.old.sink.now) (K.contents self.new.sink.now) self.old.output) }
        ensures err { OnErr result (TakesStart
            (K.contents self.old.sink.now) (K.contents self.new.sink.now) self.old.output) }
        ensures fails { IfErr result K.fails }
    {
        self.output.finish(self.sink)
    }
}

// The sink has taken all of the bytes but those that are held back, or a start of them where it failed.
impl<K: Sink> Taker for Gathered<'_, K> {
    ghost takes = { λ old bytes new. (new.sink.ghost_name ≡ old.sink.ghost_name)
        × TakesBut new.output (K.contents old.sink.now) (K.contents new.sink.now)
        (old.output ++ bytes) };

    ghost fails = { λ old bytes e new. (new.sink.ghost_name ≡ old.sink.ghost_name) × K.fails e
        × TakesStart (K.contents old.sink.now) (K.contents new.sink.now)
        (old.output ++ bytes) };

    fn put(&mut self, bytes: &[u8]) -> io::Result<()> {
        self.output.put(self.sink, bytes)
    }

    ghost none = { λ a. (refl, nothing_comes _ _) };

    ghost more = { λ a b c x y p q. (q.0 ∙ p.0, more_comes _ _ _ _ _ _ _ p.1 _ q.1) };

    ghost after = { λ a b c x y e p q.
        (q.0 ∙ p.0, q.1, start_comes _ _ _ _ _ _ _ p.1 q.2) };

    ghost before = { λ a b x y e p. (p.0, p.1, more_would_come _ _ a.output x y p.2) };
}
