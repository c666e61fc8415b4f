// The line that is written of a faulty file, the same for every program.
ghost use Rattle.std.specs.Prelude.{◌≡◌, ◌^◌, ◌<◌};
ghost use Rattle.reading.specs.Refusal.{refusal_number};
ghost use Rattle.shell.specs.Faults.{fault_line};

use frames::text::LineText;
use reading::Fault;

// The kind of line.
const FAULT: u8 = 0x8F;

// The last line whose number has two bytes; each later one's has four.
const LAST_OF_TWO: usize = u16::MAX as usize;

#[tactic(auto, unfolding(crate::specs::Faults::fault_line))]
pub(crate) fn line(fault: Fault) -> LineText
    requires { fault.line < 2 ^ 32 }
    ensures { result ≡ fault_line fault.line (refusal_number fault.refusal) }
{
    let [a, b, c, d] = (fault.line as u32).to_be_bytes();
    let number = fault.refusal.number();
    if fault.line <= LAST_OF_TWO {
        LineText::of(&[FAULT, c, d, number])
    } else {
        LineText::of(&[FAULT, a, b, c, d, number])
    }
}
