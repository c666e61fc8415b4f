// An area that was stored while there were at most 16 states, moved to the places of today, and back.

ghost use Rattle.std.specs.Prelude.{◌≡◌, ◌≢◌, ◌↔◌, IsTrue, Err, IsOk, IfOk, OnErr};
ghost use Rattle.meaning.specs.Former.{IsMoved};
ghost use Rattle.sheet.specs.Former.{AreLong, IsMarkAbove, HasAbove, CanMoveBack, GoesAbove, IsSpread};

use kinds::{AREA, State};
use sets::ConceptSet;

/// Why an area is not moved.
#[derive(Clone, Copy, PartialEq, Eq)]
pub enum Unmoved {
    /// One of the two areas has not the bytes that it is to have.
    BadLength,

    /// A state is marked that a stored area has no room for.
    StateAbove15,
}

// The states that a stored area has room for.
const STATES: usize = 16;

// The bytes of the marks from one state: in a stored area, and in one of today.
const FORMER_ROW: usize = STATES * ConceptSet::BYTES;

const ROW: usize = State::NUMBERS * ConceptSet::BYTES;

/// The bytes of a stored area.
pub const FORMER_AREA: usize = STATES * FORMER_ROW;

/// The area gets 1 at the place of each mark that stands in the stored one, and 0 everywhere else.
pub fn area_from_16(stored: &[u8], area: &mut [u8]) -> Result<(), Unmoved>
    ensures ok { IsOk result ↔ AreLong stored.now area.old }
    ensures bad_length { (result ≡ Err Unmoved.BadLength) ↔ (¬ AreLong stored.now area.old) }
    ensures moved { IfOk result (λ done. IsMoved stored.now area.new) }
    ensures unwritten { OnErr result (area.new ≡ area.old) }
{
    if !are_long(stored, area) {
        return Err(Unmoved::BadLength);
    }
    spread(stored, area);
    Ok(())
}

/// The stored area gets 1 at the former place of each mark that stands in the area, and 0 everywhere else.
pub fn area_to_16(area: &[u8], stored: &mut [u8]) -> Result<(), Unmoved>
    ensures ok { IsOk result ↔ CanMoveBack stored.old area.now }
    ensures bad_length { (result ≡ Err Unmoved.BadLength) ↔ (¬ AreLong stored.old area.now) }
    ensures above { (result ≡ Err Unmoved.StateAbove15) ↔ GoesAbove stored.old area.now }
    ensures moved { IfOk result (λ done. IsMoved stored.new area.now) }
    ensures unwritten { OnErr result (stored.new ≡ stored.old) }
{
    if !are_long(stored, area) {
        return Err(Unmoved::BadLength);
    }
    if marks_above(area) {
        return Err(Unmoved::StateAbove15);
    }
    gather(area, stored);
    Ok(())
}

// Whether both areas have the bytes that they are to have.
fn are_long(stored: &[u8], area: &[u8]) -> bool
    ensures { IsTrue result ↔ AreLong stored.now area.now }
{
    stored.len() == FORMER_AREA && area.len() == AREA
}

// Whether a byte has a mark, and has it in places of a state that a stored area has no room for.
fn is_above(i: usize, byte: u8) -> bool
    ensures { IsTrue result ↔ IsMarkAbove i byte }
{
    let above = i >= STATES * ROW || i % ROW >= FORMER_ROW;
    above && byte != 0
}

// Whether such a state is marked.
fn marks_above(area: &[u8]) -> bool
    ensures { IsTrue result ↔ HasAbove area.now }
{
    for (i, byte) in area.iter().enumerate() {
        if is_above(i, *byte) {
            return true;
        }
    }
    false
}

// The rows of a stored area are put where they stand today, and between them is nothing.
fn spread(stored: &[u8], area: &mut [u8])
    requires { AreLong stored.now area.old }
    ensures { IsSpread stored.now area.new }
{
    area.fill(0);
    for s in 0..STATES {
        let (from, to) = (FORMER_ROW * s, ROW * s);
        area[to..to + FORMER_ROW].copy_from_slice(&stored[from..from + FORMER_ROW]);
    }
}

// They are put where they stood.
fn gather(area: &[u8], stored: &mut [u8])
    requires long { AreLong stored.old area.now }
    requires within { ¬ HasAbove area.now }
    ensures { IsSpread stored.new area.now }
{
    for s in 0..STATES {
        let (from, to) = (ROW * s, FORMER_ROW * s);
        stored[to..to + FORMER_ROW].copy_from_slice(&area[from..from + FORMER_ROW]);
    }
}
