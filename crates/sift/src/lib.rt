// The salvage of a collection: its facts in the order typed, each kept unless it clashes with those kept before it.
#![tactic(auto)]

ghost use Rattle.std.specs.Prelude.{◌≡◌, ◌↔◌, IsTrue, Ok, Err, IsOk, OnOk, OnErr, length, count_by};
ghost use Rattle.kinds.specs.Kinds.{CountsFit};
ghost use Rattle.meaning.specs.Collection.{WellFormed};
ghost use Rattle.meaning.specs.Lent.{ShapesOk};
ghost use Rattle.tables.specs.Lists.{lists};
ghost use Rattle.salvage.specs.Facts.{NamesAll};
ghost use Rattle.sift.specs.Excludes.{Excludes, meant};
ghost use Rattle.sift.specs.Salvage.{is_kind, OrderFits, Passes, StopsAtTables, StopsAtNumbers, Marks, AreSane, ArePutBack, AreWhole, AreAlike, MarksWhateverDeeds};

mod entries;
mod excluded;
mod pairs;
mod steps;
pub mod theorems;

use entries::FactsLeft;
use excluded::Excluded;
use kinds::AREA;
use pairs::pairs_of;
use salvage::Typed;
use steps::HeldRows;
use tables::collection::ROLE_FACTS;
use tables::{Collection, Refusal};

// How many entries of an order name the table of this kind.
fn count(order: &[Typed], kind: Typed) -> usize
    ensures { result ≡ count_by (is_kind kind) order.now }
{
    let mut named = 0;
    for typed in order.iter() {
        if *typed == kind {
            named += 1;
        }
    }
    named
}

// Whether the order names each table as often as it has facts.
fn names_all(collection: &Collection, order: &[Typed]) -> bool
    ensures { let c = meant collection.now in
        IsTrue result ↔ NamesAll order.now c.concept-facts c.role-facts }
{
    count(order, Typed::ConceptFact) == collection.concept_facts.len()
        && count(order, Typed::RoleFact) == collection.role_facts.len()
}

// Whether there also is a mark for each of its entries.
fn order_fits(collection: &Collection, order: &[Typed], marks: usize) -> bool
    ensures { IsTrue result ↔ OrderFits collection.now order.now marks }
{
    names_all(collection, order) && order.len() == marks
}

// The tests 4, 5 and 6, of which the second is of the order and of the row of marks too.
fn check(collection: &Collection, order: &[Typed], marks: usize) -> Result<(), Refusal>
    ensures ok { IsOk result ↔ Passes collection.now order.now marks }
    ensures bad_count { (result ≡ Err Refusal.BadCount) ↔ (¬ CountsFit collection.now.counts) }
    ensures bad_table { (result ≡ Err Refusal.BadTable)
        ↔ StopsAtTables collection.now order.now marks }
    ensures bad_number { (result ≡ Err Refusal.BadNumber)
        ↔ StopsAtNumbers collection.now order.now marks }
{
    let checked = collection.check(AREA, AREA);
    if checked != Err(Refusal::BadCount) && !order_fits(collection, order, marks) {
        return Err(Refusal::BadTable);
    }
    checked
}

// The facts one after another, as the order names them. Never put into its caller, which would pay for the rows where a test
// fails.
#[inline(never)]
fn sift(collection: &Collection, excluded: &Excluded, order: &[Typed], kept: &mut [bool])
    requires formed { WellFormed (meant collection.now) }
    requires shapes { ShapesOk (lists collection.now) }
    requires excludes { Excludes (meant collection.now) excluded.now }
    requires long { length order.now ≡ length kept.old }
    ensures { Marks collection.now order.now kept.new }
{
    let mut room = [0; ROLE_FACTS];
    let pairs = pairs_of(collection.role_facts, &mut room);
    let mut held = HeldRows::none();
    let mut facts = FactsLeft {
        concepts: collection.concept_facts.iter(),
        roles: collection.role_facts.iter(),
    };
    for k in 0..order.len() {
        kept[k] = held.take(excluded, pairs, facts.next(order[k]));
    }
}

/// Salvages a collection: takes its facts in an order, which names the table of each next one, and marks of each entry of the
/// order whether it is kept. An entry that names no table is kept.
pub fn salvage(collection: &Collection, order: &[Typed], kept: &mut [bool]) -> Result<(), Refusal>
    ensures ok { IsOk result ↔ Passes collection.now order.now (length kept.old) }
    ensures bad_count { (result ≡ Err Refusal.BadCount) ↔ (¬ CountsFit collection.now.counts) }
    ensures bad_table { (result ≡ Err Refusal.BadTable)
        ↔ StopsAtTables collection.now order.now (length kept.old) }
    ensures bad_number { (result ≡ Err Refusal.BadNumber)
        ↔ StopsAtNumbers collection.now order.now (length kept.old) }

    // The marks are the one salvage of the facts; and where a test fails nothing is written.
    ensures salvage { OnOk result (Marks collection.now order.now kept.new) }
    ensures refused { OnErr result (kept.new ≡ kept.old) }

    // So what is kept makes no contradiction, and any one dropped fact put back among it brings one.
    ensures sane { OnOk result (AreSane collection.now order.now kept.new) }
    ensures back { OnOk result (ArePutBack collection.now order.now kept.new) }
    ensures whole { OnOk result (AreWhole collection.now kept.new) }
    ensures repeats { OnOk result (AreAlike collection.now order.now kept.new) }

    // Whatever the deed numbers.
    ensures deeds { OnOk result (MarksWhateverDeeds collection.now order.now kept.new) }
{
    check(collection, order, kept.len())?;
    let excluded = Excluded::new(collection);
    sift(collection, &excluded, order, kept);
    Ok(())
}
