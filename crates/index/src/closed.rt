// The closed sheet of a collection told, whatever its allowance.
ghost use Rattle.std.specs.Prelude.{◌↔◌, IsTrue, IfOk, OnOk, IfErr};
ghost use Rattle.meaning.specs.Model.{Contradiction};
ghost use Rattle.sheet.specs.Heard.{ToldOf, FailedAmong};
ghost use Rattle.index.specs.Works.{meant};
ghost use Rattle.index.specs.Marks.{SheetTold};

use crate::checked::Checked;
use crate::lent::Lent;
use crate::routes::Routes;
use kinds::Rounds;
use sheet::RoundListener;

impl<'a> Checked<'a> {
    // Tells the listener the marks of the closed sheet, round by round, whatever the allowance is. It returns whether there is
    // a sheet: a contradiction has none, and the listener is then told nothing.
    pub fn tell_sheet<L: RoundListener>(&self, listener: &mut L) -> Result<bool, L::Error>
        ensures there { IfOk result (λ there.
            IsTrue there ↔ (¬ Contradiction (meant self.now.lent.collection))) }
        ensures told { OnOk result (ToldOf L.hears
            (SheetTold (meant self.now.lent.collection)) listener.old listener.new) }

        // Where it fails, all rounds up to the one that it failed at are of those to be told.
        ensures failed { IfErr result (λ e. FailedAmong L.hears L.fails
            (SheetTold (meant self.now.lent.collection)) listener.old e listener.new) }
    {
        let mut routes = Routes::new();
        let unbound = Checked {
            lent: Lent {
                collection: self.lent.collection,
                allowance: Rounds::MAX,
            },
        };
        let prepared = unbound.prepare_telling(&mut routes, listener)?;
        match prepared.rounds() {
            Ok(_) => Ok(true),
            Err(_) => Ok(false),
        }
    }
}
