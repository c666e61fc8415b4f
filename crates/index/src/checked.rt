// What is lent, with the fact that its collection passes its tests: it is not tested again.
ghost use Rattle.index.specs.Works.{Passes};
ghost use Rattle.index.specs.OneProof.{passes-once};

use crate::lent::Lent;
use kinds::AREA;
use tables::Refusal;

// What a caller lends, of which it is proved that the collection passes the tests 4, 5 and 6 (the lengths of areas are no part of that).
// It is made after these tests, or of a file that was read without a fault.
#[derive(Clone, Copy)]
pub struct Checked<'a> {
    pub lent: Lent<'a>,
    ghost passes: { Passes lent.collection } by { passes-once lent.collection },
}

impl<'a> Lent<'a> {
    ghost use Rattle.std.specs.Prelude.{◌≡◌, IfOk, IfErr};
    ghost use Rattle.meaning.specs.Layout.{area_length};
    ghost use Rattle.index.specs.Worked.{IsRefused};

    // The same where the collection passes the tests, and else its refusal. No area is lent.
    pub fn checked(&self) -> Result<Checked<'a>, Refusal>
        ensures ok { IfOk result (λ checked. checked.lent ≡ self.now) }
        ensures refused { IfErr result (IsRefused self.now area_length area_length) }
    {
        self.check(AREA, AREA)?;
        Ok(Checked { lent: *self })
    }
}
