// What no clause says: that std's readers and writers are read and written through to the end, and the worked file of
// docs/DESK.md.
use crate::{MOST_TEXT, ServeError, answer, serve};
use std::io;
use std::io::{ErrorKind, Read, Write};
use std::process::Abort;

const INPUT: &[u8] =
    b"010202020400\n020040\n024101\n060000\n08000001\n09010102\n08020103\n0A03\n0B0000\n0B0001\n";

// Rounds 1 and 2 add 2 marks each, to states × concepts = 4 × 6 = 24.
const OUTPUT: &[u8] = b"8A00010002\n8A00020002\n8B0000010002\n8B0001000002\n";

// The same with 17 states, of which no step uses the last 13: counts have four bytes.
const WIDE: &[u8] =
    b"010202021100\n020040\n024101\n060000\n08000001\n09010102\n08020103\n0A03\n0B0000\n0B0001\n";

const WIDE_OUTPUT: &[u8] =
    b"8A0000000100000002\n8A0000000200000002\n8B00000100000002\n8B00010000000002\n";

// The same question typed as an expression: signs, test Deed, signs backward.
const EXPRESSED: &[u8] = b"010202020400\n020040\n024101\n060000\n0D004101\n0B0000\n0B0001\n";

// The same with 44 on line 3, a concept of a role that is not declared.
const FAULTY: &[u8] =
    b"010202020400\n020040\n024401\n060000\n08000001\n09010102\n08020103\n0A03\n0B0000\n0B0001\n";

const FAULT: &[u8] = b"8F000306\n";

// Bytes that come so many at a time, each time after a signal, and then an end or a failure.
#[derive(Drop)]
struct Pieces<'a> {
    rest: &'a [u8],
    size: usize,
    is_whole: bool,
    is_due: bool,
}

impl<'a> Pieces<'a> {
    fn new(rest: &'a [u8], size: usize, is_whole: bool) -> Pieces<'a> {
        Pieces {
            rest,
            size,
            is_whole,
            is_due: false,
        }
    }
}

impl Read for Pieces<'_> {
    fn read(&mut self, buf: &mut [u8]) -> io::Result<usize> {
        self.is_due = !self.is_due;
        if self.is_due {
            return Err(io::Error::from(ErrorKind::Interrupted));
        }
        if self.rest.is_empty() && !self.is_whole {
            return Err(io::Error::other("a failure"));
        }
        let n = self.rest.len().min(self.size).min(buf.len());
        buf[..n].copy_from_slice(&self.rest[..n]);
        self.rest = &self.rest[n..];
        Ok(n)
    }
}

// What is typed at a terminal: after the end of one part the terminal stays open, and another part may come.
#[derive(Drop)]
struct Typed<'a> {
    rest: &'a [u8],
    behind: &'a [u8],
    is_ended: bool,
}

impl Read for Typed<'_> {
    fn read(&mut self, buf: &mut [u8]) -> io::Result<usize> {
        if self.rest.is_empty() && !self.is_ended {
            self.is_ended = true;
            self.rest = self.behind;
            return Ok(0);
        }
        let n = self.rest.len().min(buf.len());
        buf[..n].copy_from_slice(&self.rest[..n]);
        self.rest = &self.rest[n..];
        Ok(n)
    }
}

const ROOM: usize = 64;

// A writer that takes so many bytes at a time, each time after a signal, and fails once it has the most.
#[derive(Drop)]
struct Taking {
    taken: [u8; ROOM],
    len: usize,
    size: usize,
    most: usize,
    is_due: bool,
}

impl Taking {
    fn new(size: usize, most: usize) -> Taking {
        Taking {
            taken: [0; ROOM],
            len: 0,
            size,
            most,
            is_due: false,
        }
    }

    fn assert_holds(&self, rt: &impl Abort, bytes: &[u8]) {
        assert!(rt; self.len <= ROOM);
        assert!(rt;
            &self.taken[..self.len] == bytes,
            "{} bytes of {}",
            self.len,
            bytes.len()
        );
    }
}

impl Write for Taking {
    fn write(&mut self, buf: &[u8]) -> io::Result<usize> {
        self.is_due = !self.is_due;
        if self.is_due {
            return Err(io::Error::from(ErrorKind::Interrupted));
        }
        let room = self.most.min(ROOM).saturating_sub(self.len);
        if room == 0 {
            return Err(io::Error::from(ErrorKind::StorageFull));
        }
        let n = buf.len().min(self.size).min(room);
        self.taken[self.len..self.len + n].copy_from_slice(&buf[..n]);
        self.len += n;
        Ok(n)
    }

    fn flush(&mut self) -> io::Result<()> {
        Ok(())
    }
}

#[test]
fn answers_in_memory(rt: HostRuntime) {
    for (input, want) in [
        (INPUT, OUTPUT),
        (WIDE, WIDE_OUTPUT),
        (EXPRESSED, OUTPUT),
        (FAULTY, FAULT),
    ] {
        let mut text = [b'.'; MOST_TEXT];
        let n = answer(input, &mut text);
        assert_eq!(rt; &text[..n], want);
        assert!(rt; text[n..].iter().all(|b| *b == b'.'));
    }
}

#[test]
fn reads_and_writes_in_pieces(rt: HostRuntime) {
    for (input, want) in [(INPUT, OUTPUT), (FAULTY, FAULT)] {
        for size in [1, 2, 7, ROOM] {
            let mut sink = Taking::new(size, ROOM);
            assert!(rt; serve(Pieces::new(input, size, true), &mut sink).is_ok());
            sink.assert_holds(&rt, want);
        }
    }
}

#[test]
fn reads_no_more_once_the_input_has_ended(rt: HostRuntime) {
    for input in [INPUT, &INPUT[..INPUT.len() - 1]] {
        let source = Typed {
            rest: input,
            behind: FAULTY,
            is_ended: false,
        };
        let mut sink = Taking::new(ROOM, ROOM);
        assert!(rt; serve(source, &mut sink).is_ok());
        sink.assert_holds(&rt, OUTPUT);
    }
}

#[test]
fn answers_nothing_where_reading_fails(rt: HostRuntime) {
    for n in 0..INPUT.len() {
        let mut sink = Taking::new(ROOM, ROOM);
        let result = serve(Pieces::new(&INPUT[..n], 5, false), &mut sink);
        assert!(rt;
            matches!(&result, Err(ServeError::Unread(_))),
            "after {n} bytes"
        );
        sink.assert_holds(&rt, b"");
    }
}

#[test]
fn writes_a_start_where_writing_fails(rt: HostRuntime) {
    for n in 0..=OUTPUT.len() {
        for size in [1, 10, ROOM] {
            let mut sink = Taking::new(size, n);
            let result = serve(Pieces::new(INPUT, ROOM, true), &mut sink);
            if n == OUTPUT.len() {
                assert!(rt; result.is_ok());
            } else {
                assert!(rt;
                    matches!(&result, Err(ServeError::Unwritten(_))),
                    "after {n} bytes"
                );
            }
            sink.assert_holds(&rt, &OUTPUT[..n]);
        }
    }
}
