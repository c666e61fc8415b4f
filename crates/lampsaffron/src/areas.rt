// An area that was stored while there were at most 16 states, moved to the places of today and back, for programs
// in other languages.
ghost use Rattle.std.specs.Prelude.{◌≡◌, ◌≢◌};
ghost use Rattle.meaning.specs.Former.{IsMoved};
ghost use Rattle.lampsaffron.specs.Areas.{number_of, MovesNumber, BackNumber};

use sheet::former::{Unmoved, area_from_16, area_to_16};

// Why an area is not moved.
fn unmoved_number(unmoved: Unmoved) -> u8
    ensures { result ≡ number_of unmoved }
{
    match unmoved {
        Unmoved::BadLength => 5,
        Unmoved::StateAbove15 => 6,
    }
}

// A stored area moved to the places of today: the area gets 1 at the place of each mark that stands in the stored one, and 0
// everywhere else. Gives 0; or 5 where one of the two has another length, and then nothing is written.
#[unsafe(no_mangle)]
pub extern "C" fn lampsaffron_area_from_16(stored: &[u8], area: &mut [u8]) -> u8
    ensures number { MovesNumber stored.now area.old result }
    ensures moved { result ≡ 0 → IsMoved stored.now area.new }
    ensures area_kept { result ≢ 0 → area.new ≡ area.old }
{
    match area_from_16(stored, area) {
        Ok(()) => 0,
        Err(unmoved) => unmoved_number(unmoved),
    }
}

// An area of today moved back: the stored area gets 1 at the former place of each mark that stands in the area, and 0
// everywhere else. Gives 0; 5 where one of the two has another length, or else 6 where a state above 15 is marked, and
// then nothing is written.
#[unsafe(no_mangle)]
pub extern "C" fn lampsaffron_area_to_16(area: &[u8], stored: &mut [u8]) -> u8
    ensures number { BackNumber stored.old area.now result }
    ensures moved { result ≡ 0 → IsMoved stored.new area.now }
    ensures stored_kept { result ≢ 0 → stored.new ≡ stored.old }
{
    match area_to_16(area, stored) {
        Ok(()) => 0,
        Err(why) => unmoved_number(why),
    }
}
