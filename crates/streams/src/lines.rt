// The lines of an input, one after the other, through a fixed buffer: nothing is allocated, and no more of the
// input is held than the buffer has room for.
ghost use Rattle.std.specs.Prelude.{◌≡◌, ◌==◌, ◌+◌, ◌-◌, ◌<◌, ◌≤◌, ℕ, [], IfOk, IfErr, OnOk, OnErr, IfSome, length, min, drop, take, position};
ghost use Rattle.std.specs.Io.KnownBytes.{Keeps, prepend_known};
ghost use Rattle.streams.specs.Gives.{Gives, ConsumesNext};
ghost use Rattle.streams.specs.Input.{left_of, IsFilled};

use crate::ending::Ending;
use crate::window::Window;
use crate::{BUFFER, LINE, Source};
use std::io;
use std::marker::Model;

// A line without its end.
#[derive(Drop)]
pub struct Line {
    bytes: [u8; LINE],
    length: usize,
}

impl Model for Line {
    ghost use Rattle.std.specs.Prelude.{◌≤◌, ℕ, List, take};
    ghost use Rattle.streams.specs.declared.TheConstants.{LINE};

    ghost Value = { List ℕ };

    ghost view = { λ l. take l.length l.bytes };

    ghost invariant = { λ l. l.length ≤ LINE };
}

impl Line {
    fn copied(bytes: &[u8]) -> Line
        requires { length bytes.now ≤ LINE }
        ensures { result ≡ bytes.now }
    {
        let n = bytes.len();
        let mut line = [0; LINE];
        line[..n].copy_from_slice(bytes);
        Line {
            bytes: line,
            length: n,
        }
    }

    pub fn as_slice(&self) -> &[u8]
        ensures { result.now ≡ self.now }
    {
        &self.bytes[..self.length]
    }
}

// What comes next of an input.
#[derive(Drop)]
pub enum Next {
    Line(Line),
    TooLong,
    End,
}

// Where the first line ends of what is held, if that is within reach.
#[tactic(auto, using(crate::proofs::FirstLine::reach))]
fn line_end(held: &[u8]) -> Option<usize>
    ensures first { result ≡ position (λ b. b == 0x0A) (take (LINE + 1) held.now) }
    ensures within { IfSome result (λ n. (n ≤ LINE) × (n < length held.now)) }
{
    held.iter().take(LINE + 1).position(|b| *b == b'\n')
}

fn taken(window: &mut Window, n: usize) -> Line
    requires short { n ≤ LINE }
    requires within { n ≤ length window.old }
    ensures line { result ≡ take n window.old }
    ensures rest { window.new ≡ drop n window.old }
{
    let line = Line::copied(&window.as_slice()[..n]);
    window.consume(n);
    line
}

fn next_line<S: Source>(window: &mut Window, source: &mut S) -> io::Result<Next>
    ensures ok { IfOk result (Gives (prepend_known window.old (S.remaining source.old))
        (prepend_known window.new (S.remaining source.new))) }
    ensures bytes { IfOk result (ConsumesNext (prepend_known window.old (S.remaining source.old))
        (prepend_known window.new (S.remaining source.new))) }
    ensures err { OnErr result (Keeps (prepend_known window.old (S.remaining source.old))
        (prepend_known window.new (S.remaining source.new))) }
    ensures fails { IfErr result S.fails }
{
    'reads: loop {
        if let Some(n) = line_end(window.as_slice()) {
            let line = taken(window, n);
            window.consume(1);
            return Ok(Next::Line(line));
        }
        let held = window.as_slice().len();
        if LINE < held {
            return Ok(Next::TooLong);
        }
        if window.read_from(source)? == 0 {
            if held == 0 {
                return Ok(Next::End);
            }
            return Ok(Next::Line(taken(window, held)));
        }
    }
}

// An input, read line by line, and no more once it has ended. Callers see the bytes that are held of it, and those behind them,
// where these are known.
#[derive(Drop)]
pub struct Lines<S: Source> {
    window: Window,
    source: Ending<S>,
}

impl<S: Source> Model for Lines<S> {
    ghost use Rattle.streams.specs.Input.{Input};

    ghost Value = { Input };

    ghost view = { λ l. record { held = l.window; behind = l.source } };
}

impl<S: Source> Lines<S> {
    pub fn new(source: S) -> Lines<S>
        ensures { result ≡ record { held = []; behind = S.remaining source } }
    {
        Lines {
            window: Window::new(),
            source: Ending::new(source),
        }
    }

    // The bytes that are read and not yet taken. How many they are is the source's doing.
    pub fn held(&self) -> &[u8]
        ensures { result.now ≡ self.now.held }
    {
        self.window.as_slice()
    }

    // Takes so many of the bytes that are held, or all of them where they are fewer.
    pub fn consume(&mut self, count: usize)
        ensures held { self.new.held ≡ drop count self.old.held }
        ensures behind { self.new.behind ≡ self.old.behind }
    {
        let held = self.window.as_slice().len();
        self.window.consume(count.min(held));
    }

    // Reads on until so many bytes are held, or as many as there is room for, or nothing is left to be read.
    pub fn fill(&mut self, count: usize) -> io::Result<()>
        ensures left { Keeps (left_of self.old) (left_of self.new) }
        ensures ok { OnOk result (IsFilled (min count BUFFER) self.new.held self.new.behind) }
        ensures fails { IfErr result S.fails }
    {
        self.window.fill_from(&mut self.source, count.min(BUFFER))
    }

    // After an `Err` or a line that is too long, the bytes that are left are the same.
    pub fn next(&mut self) -> io::Result<Next>
        ensures ok { IfOk result (Gives (left_of self.old) (left_of self.new)) }
        ensures bytes { IfOk result (ConsumesNext (left_of self.old) (left_of self.new)) }
        ensures err { OnErr result (Keeps (left_of self.old) (left_of self.new)) }
        ensures fails { IfErr result S.fails }
    {
        next_line(&mut self.window, &mut self.source)
    }
}
