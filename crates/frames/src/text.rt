// Lines as they are written, in characters: two for each byte, capital letters, and the end of the line.
ghost use Rattle.std.specs.Prelude.{◌≡◌, ◌+◌, ◌*◌, ◌<◌, ◌≤◌, length, take};
ghost use Rattle.frames.specs.Text.{character, text, most_bytes};

use crate::BASE;
use std::marker::Model;
use streams::LINE;

// The most bytes of a line, and the most characters, its end among them.
pub const MOST_BYTES: usize = LINE / 2;

const MOST_CHARACTERS: usize = 2 * MOST_BYTES + 1;

// A line's characters with its end. Callers see the list of them.
#[derive(Drop)]
pub struct LineText {
    characters: [u8; MOST_CHARACTERS],
    used: usize,
}

impl Model for LineText {
    ghost use Rattle.std.specs.Prelude.{◌≤◌, ℕ, List, take};
    ghost use Rattle.frames.specs.declared.text.TheConstants.{MOST_CHARACTERS};

    ghost Value = { List ℕ };

    ghost view = { λ l. take l.used l.characters };

    ghost invariant = { λ l. l.used ≤ MOST_CHARACTERS };
}

impl LineText {
    // The line of some bytes; of more than a line may have, that of the first ones.
    pub fn of(bytes: &[u8]) -> LineText
        ensures { result ≡ text (take most_bytes bytes.now) }
    {
        LineText::whole(&bytes[..MOST_BYTES.min(bytes.len())])
    }

    fn whole(bytes: &[u8]) -> LineText
        requires { length bytes.now ≤ MOST_BYTES }
        ensures { result ≡ text bytes.now }
    {
        let used = 2 * bytes.len() + 1;
        let mut characters = [0; MOST_CHARACTERS];
        spell(bytes, &mut characters[..used]);
        LineText { characters, used }
    }

    pub fn as_slice(&self) -> &[u8]
        ensures { result.now ≡ self.now }
    {
        &self.characters[..self.used]
    }
}

// The character of a digit.
fn character(digit: u8) -> u8
    requires { digit < 16 }
    ensures { result ≡ character digit }
{
    if digit < 10 {
        b'0' + digit
    } else {
        b'A' - 10 + digit
    }
}

// A line of those bytes.
#[tactic(auto, using(crate::proofs::Spelling::spelled_more, crate::proofs::Spelling::spelled_all))]
fn spell(bytes: &[u8], line: &mut [u8])
    requires { length line.old ≡ 2 * length bytes.now + 1 }
    ensures { line.new ≡ text bytes.now }
{
    for (i, byte) in bytes.iter().enumerate() {
        line[2 * i] = character(*byte / BASE);
        line[2 * i + 1] = character(*byte % BASE);
    }
    line[2 * bytes.len()] = b'\n';
}
