// A collection prepared once, that answers any number of asks.
ghost use Rattle.std.specs.Prelude.{◌≡◌, ◌↔◌, length, IsTrue, IfSome, IfOk, IfErr};
ghost use Rattle.std.specs.Prelude.{OnOk, OnErr};
ghost use Rattle.sheet.specs.Heard.{ToldOf, FailedAmong};
ghost use Rattle.meaning.specs.Layout.{zeros};
ghost use Rattle.index.specs.Works.{StridesLead};
ghost use Rattle.index.specs.Worked.{IsWorked};
ghost use Rattle.index.specs.Marks.{MarksTold, MarksStand};
ghost use Rattle.index.specs.Rounds.{HasRounds, NoRounds};
ghost use Rattle.index.specs.Preparation.{Preparation, preparation, prepared_of, fitting_of, WhateverDeeds};
ghost use Rattle.index.specs.Preparation.{HasSheet, HoldsPrepared, Left};

use crate::checked::Checked;
use crate::lent::Lent;
use crate::routes::{Paths, Routes};
use crate::work::{Found, settle};
use kinds::{AREA, Answer, Ask, Rounds};
use sheet::{NoListener, RoundListener};
use std::marker::Model;
use tables::{Record, Refusal, Table};
use walk::{Answers, BATCH};

// Seen as what it was prepared of: counts, tables, allowance and the lengths of both areas.
#[derive(Drop)]
pub struct Prepared<'a> {
    lent: Lent<'a>,
    area: usize,
    spare: usize,
    worked: Result<Found<'a>, Refusal>,
}

impl<'a> Model for Prepared<'a> {
    ghost use Rattle.index.specs.Preparation.{Preparation, preparation};
    ghost use Rattle.index.specs.Worked.{IsWorked};

    ghost Value = { Preparation };

    ghost view = { λ p. preparation p.lent p.area p.spare };

    ghost invariant = { λ p. IsWorked p.lent p.area p.spare p.worked };
}

// Whether an ask is yes: what was told of it, or what a walk of its own tells.
fn is_yes(paths: &Paths, ask: Ask, told: Option<bool>) -> bool
    requires { IfSome told (λ yes. IsTrue yes ↔ StridesLead paths.now ask) }
    ensures { IsTrue result ↔ StridesLead paths.now ask }
{
    match told {
        Some(yes) => yes,
        None => paths.strides().answer(paths.question, ask),
    }
}

impl<'a> Prepared<'a> {
    ghost use Rattle.index.specs.Asked.{IsAnswer, IsTold, AreTold};

    // The rounds needed, where they are allowed; else why there are none.
    pub fn rounds(&self) -> Result<Rounds, Answer>
        ensures needed { IfOk result (HasRounds self.now) }
        ensures none { IfErr result (NoRounds self.now) }

        // Of a collection with other deed numbers it would be the same.
        ensures deeds_needed { IfOk result (λ n. WhateverDeeds self.now (λ q. HasRounds q n)) }
        ensures deeds_none { IfErr result (λ r. WhateverDeeds self.now (λ q. NoRounds q r)) }
    {
        let found = match &self.worked {
            Err(refusal) => return Err(refusal.answer()),
            Ok(found) => found,
        };
        match found {
            Found::Contradiction => Err(Answer::Contradiction),
            Found::Spent => Err(Answer::AllowanceSpent(self.lent.allowance)),
            Found::Needed(n, _) => Ok(*n),
        }
    }

    // What asking it of the collection answers: nothing else is read.
    pub fn reply(&self, ask: Ask) -> Answer
        ensures answer { IsAnswer self.now ask result }
        ensures deeds { WhateverDeeds self.now (λ q. IsAnswer q ask result) }
    {
        self.reply_told(ask, None)
    }

    // Its answer, where walks may have told whether the ask is yes.
    pub(crate) fn reply_told(&self, ask: Ask, told: Option<bool>) -> Answer
        requires { IsTold self.now ask told }
        ensures { IsAnswer self.now ask result }
    {
        let found = match &self.worked {
            Err(refusal) => return refusal.answer(),
            Ok(found) => found,
        };
        if !ask.declared(self.lent.collection.counts) {
            return Answer::BadAsk;
        }
        match found {
            Found::Contradiction => Answer::Contradiction,
            Found::Spent => Answer::AllowanceSpent(self.lent.allowance),
            Found::Needed(n, paths) => {
                if is_yes(paths, ask, told) {
                    Answer::Yes(*n)
                } else {
                    Answer::No(*n)
                }
            }
        }
    }

    // What walks tell of the asks from one on, as many as are walked together. Nothing, where the
    // answer needs no walk.
    pub(crate) fn told(&self, asks: Table<Ask>, from: usize) -> Answers
        ensures { AreTold self.now asks.entry.numbers.now from result }
    {
        if let Ok(found) = &self.worked
            && let Found::Needed(_, paths) = found
        {
            return paths.strides().answers(paths.question, asks, from);
        }
        [None; BATCH]
    }
}

// The tests 4, 5 and 6, and past them the rooms.
fn work<'r, L: RoundListener>(
    lent: &Lent<'r>,
    area: &mut [u8],
    spare: &mut [u8],
    routes: &'r mut Routes,
    listener: &mut L,
) -> Result<Result<Found<'r>, Refusal>, L::Error>
    ensures worked { IfOk result (IsWorked lent.now (length area.old) (length spare.old)) }
    ensures left { OnOk result (Left (prepared_of lent.now area.old spare.old)
        area.old spare.old area.new spare.new) }
    ensures told { OnOk result (ToldOf L.hears
        (MarksTold (prepared_of lent.now area.old spare.old)) listener.old listener.new) }
    ensures failed { IfErr result (λ e. FailedAmong L.hears L.fails
        (MarksTold (prepared_of lent.now area.old spare.old)) listener.old e listener.new) }
    ensures area_kept { OnErr result (area.new ≡ area.old) }
    ensures spare_kept { OnErr result (spare.new ≡ spare.old) }
{
    match lent.check(area.len(), spare.len()) {
        Err(refusal) => Ok(Err(refusal)),
        Ok(()) => {
            let checked = Checked { lent: *lent };
            let found = settle(&checked, area, spare, routes, listener)?;
            Ok(Ok(found))
        }
    }
}

impl<'a> Lent<'a> {
    // The tests 4, 5 and 6, then all that does not depend on an ask. The first area is left the sheet.
    pub fn prepare(&self, area: &mut [u8], spare: &mut [u8], routes: &'a mut Routes) -> Prepared<'a>
        ensures own { result ≡ prepared_of self.now area.old spare.old }
        ensures sheet { HoldsPrepared result area.new }
        ensures cleared { HasSheet result → spare.new ≡ zeros }
        ensures untouched { (¬ HasSheet result) → area.new ≡ area.old }
        ensures spared { (¬ HasSheet result) → spare.new ≡ spare.old }
        ensures deeds { WhateverDeeds result
            (λ q. Left q area.old spare.old area.new spare.new) }
    {
        match self.prepare_telling(area, spare, routes, &mut NoListener) {
            Ok(prepared) => prepared,
            // It does not fail.
            Err(_) => unreachable!(),
        }
    }

    // As `prepare`, but the listener is told the marks of each round: of round 0 all that stand in it, and of each further round
    // those that it adds. Where the listener fails, no more rounds are made, and both areas are as they came.
    pub fn prepare_telling<L: RoundListener>(
        &self,
        area: &mut [u8],
        spare: &mut [u8],
        routes: &'a mut Routes,
        listener: &mut L,
    ) -> Result<Prepared<'a>, L::Error>
        ensures own { IfOk result (λ p. p ≡ prepared_of self.now area.old spare.old) }
        ensures sheet { OnOk result
            (HoldsPrepared (prepared_of self.now area.old spare.old) area.new) }
        ensures cleared { OnOk result
            (HasSheet (prepared_of self.now area.old spare.old) → spare.new ≡ zeros) }
        ensures untouched { OnOk result
            ((¬ HasSheet (prepared_of self.now area.old spare.old)) → area.new ≡ area.old) }
        ensures spared { OnOk result
            ((¬ HasSheet (prepared_of self.now area.old spare.old)) → spare.new ≡ spare.old) }
        ensures told { OnOk result (ToldOf L.hears
            (MarksTold (prepared_of self.now area.old spare.old)) listener.old listener.new) }

        // How many marks rounds 1 and on added and states × concepts make the marks that stand in
        // the first area.
        ensures stand { OnOk result
            (MarksStand (prepared_of self.now area.old spare.old) area.new) }

        // Where it fails, all rounds up to the one that it failed at are of those to be told.
        ensures failed { IfErr result (λ e. FailedAmong L.hears L.fails
            (MarksTold (prepared_of self.now area.old spare.old)) listener.old e listener.new) }
        ensures area_kept { OnErr result (area.new ≡ area.old) }
        ensures spare_kept { OnErr result (spare.new ≡ spare.old) }

        // Of a collection with other deed numbers all would be the same.
        ensures deeds { OnOk result (WhateverDeeds (prepared_of self.now area.old spare.old)
            (λ q. Left q area.old spare.old area.new spare.new)) }
        ensures deeds_told { OnOk result (WhateverDeeds (prepared_of self.now area.old spare.old)
            (λ q. ToldOf L.hears (MarksTold q) listener.old listener.new)) }
        ensures deeds_failed { IfErr result (λ e.
            WhateverDeeds (prepared_of self.now area.old spare.old)
            (λ q. FailedAmong L.hears L.fails (MarksTold q) listener.old e listener.new)) }
    {
        let area_len = area.len();
        let spare_len = spare.len();
        let worked = work(self, area, spare, routes, listener)?;
        Ok(Prepared {
            lent: *self,
            area: area_len,
            spare: spare_len,
            worked,
        })
    }
}

impl<'a> Checked<'a> {
    // As `Lent::prepare_telling` of the same with two areas of their length, but nothing is tested, and no area is lent: nobody
    // is left the sheet.
    pub fn prepare_telling<L: RoundListener>(
        &self,
        routes: &'a mut Routes,
        listener: &mut L,
    ) -> Result<Prepared<'a>, L::Error>
        ensures own { IfOk result (λ p. p ≡ fitting_of self.now.lent) }
        ensures told { OnOk result (ToldOf L.hears
            (MarksTold (fitting_of self.now.lent)) listener.old listener.new) }

        // Where it fails, all rounds up to the one that it failed at are of those to be told.
        ensures failed { IfErr result (λ e. FailedAmong L.hears L.fails
            (MarksTold (fitting_of self.now.lent)) listener.old e listener.new) }

        // Of a collection with other deed numbers all would be the same.
        ensures deeds_told { OnOk result (WhateverDeeds (fitting_of self.now.lent)
            (λ q. ToldOf L.hears (MarksTold q) listener.old listener.new)) }
        ensures deeds_failed { IfErr result (λ e. WhateverDeeds (fitting_of self.now.lent)
            (λ q. FailedAmong L.hears L.fails (MarksTold q) listener.old e listener.new)) }
    {
        let found = settle(self, &mut [], &mut [], routes, listener)?;
        Ok(Prepared {
            lent: self.lent,
            area: AREA,
            spare: AREA,
            worked: Ok(found),
        })
    }
}
