// The rooms put together: all of a collection that does not depend on an ask.

ghost use Rattle.std.specs.Prelude.{◌≡◌, ℕ, length, IfOk, IfErr, OnErr};
ghost use Rattle.theory.specs.Sheet.{Mark};
ghost use Rattle.meaning.specs.Layout.{zeros};
ghost use Rattle.rules.specs.Rows.{kind_of};
ghost use Rattle.rules.specs.declared.rows.Rows.{Rows as TheRows};
ghost use Rattle.sheet.specs.Heard.{ToldOf, FailedOf};
ghost use Rattle.sheet.specs.Sheets.{IsRound};
ghost use Rattle.sheet.specs.Areas.{LaysMarks};
ghost use Rattle.index.specs.Works.{HasAreas, IsFound, LeavesFirst, LeavesSecond};
ghost use Rattle.index.specs.Works.{RoundsOf, BeginsRounds};

use crate::checked::Checked;
use crate::ground::Ground;
use crate::routes::{Paths, Routes};
use kinds::Rounds;
use rules::Rows;
use sheet::{Closing, Ran, RoundListener};

// What is found of a collection that passed its tests.
#[derive(Clone, Copy)]
pub enum Found<'r> {
    Contradiction,
    Spent,
    Needed(Rounds, Paths<'r>),
}

// The sheet goes to the first area and zeros to the second, where both have their length. Who needs no sheet lends empty ones.
fn leave(closing: &Closing, area: &mut [u8], spare: &mut [u8])
    ensures first { HasAreas (length area.old) (length spare.old) → (rows : TheRows) (n : ℕ)
        → IsRound rows n closing.now → LaysMarks (Mark (kind_of rows) n) area.new }
    ensures second { HasAreas (length area.old) (length spare.old) → spare.new ≡ zeros }
{
    let Some(area) = area.as_mut_array() else {
        return;
    };
    let Some(spare) = spare.as_mut_array() else {
        return;
    };
    closing.leave(area, spare);
}

// Works everything out in order: orders and elements, the contradiction test, the rounds against the allowance, whose
// marks the listener is told, and what walks follow. The tables are locals or lent, and are not copied.
pub(crate) fn settle<'r, L: RoundListener>(
    checked: &Checked<'r>,
    area: &mut [u8],
    spare: &mut [u8],
    routes: &'r mut Routes,
    listener: &mut L,
) -> Result<Found<'r>, L::Error>
    ensures found { IfOk result (IsFound checked.now.lent) }
    ensures first { HasAreas (length area.old) (length spare.old)
        → IfOk result (λ found. LeavesFirst checked.now.lent found area.old area.new) }
    ensures second { HasAreas (length area.old) (length spare.old)
        → IfOk result (λ found. LeavesSecond found spare.old spare.new) }
    ensures told { IfOk result (λ found.
        ToldOf L.hears (RoundsOf checked.now.lent found) listener.old listener.new) }
    ensures failed { IfErr result (λ e.
        FailedOf L.hears L.fails (BeginsRounds checked.now.lent) listener.old e listener.new) }
    ensures area_kept { OnErr result (area.new ≡ area.old) }
    ensures spare_kept { OnErr result (spare.new ≡ spare.old) }
{
    let Routes {
        list,
        loops,
        transitions,
        accepting,
    } = routes;
    let ground = Ground::new(&checked.lent.collection);
    let Some(edges) = ground.edges(transitions, list) else {
        return Ok(Found::Contradiction);
    };
    let below = ground.below();
    let mut rows = Rows::NONE;
    ground.lay_out(&below, transitions, &mut rows);
    let mut closing = Closing::new();
    let ran = closing.run(&rows, checked.lent.allowance, listener)?;
    leave(&closing, area, spare);
    match ran {
        Ran::Spent => Ok(Found::Spent),
        Ran::Needed(rounds) => {
            let paths = ground.paths(
                &below,
                transitions,
                edges,
                &closing.sheet.rows,
                loops,
                accepting,
            );
            Ok(Found::Needed(rounds, paths))
        }
    }
}
