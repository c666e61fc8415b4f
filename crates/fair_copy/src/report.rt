// What the copyist writes of a file that was read whole: its fair copy, a line for each frame.
ghost use Rattle.std.specs.Prelude.{◌∷◌, [], OnOk, IfErr, map};
ghost use Rattle.meaning.specs.Lent.{records};
ghost use Rattle.fair_copy.specs.Copy.{frames_text, Copies};
ghost use Rattle.fair_copy.specs.Framed.{allowance_frames, part_frames, typed_out};
ghost use Rattle.fair_copy.specs.Ready.{IsMadeReady};

use crate::framed::{
    ConceptExclusions, ConceptFacts, ConceptRules, Finals, Framed, RoleExclusions, RoleFacts,
    RoleRules, Steps,
};
use frames::{Frame, line_of};
use kinds::Rounds;
use reading::File;
use shell::Report;
use std::io;
use streams::Taker;
use tables::Table;

// The line of a frame.
#[tactic(auto, using(crate::proofs::Putting::text_one))]
pub fn put_frame<T: Taker>(to: &mut T, frame: &Frame) -> io::Result<()>
    ensures ok { OnOk result (T.takes to.old (frames_text (frame.now ∷ [])) to.new) }
    ensures err { IfErr result (λ e. T.fails to.old (frames_text (frame.now ∷ [])) e to.new) }
{
    to.put(line_of(frame).as_slice())
}

// The lines of a table's records, in their order.
fn put_table<K: Framed, T: Taker>(to: &mut T, table: &Table<'_, K::Record>) -> io::Result<()>
    ensures ok { let all = records K.Record.WIDTH K.Record.read table.now.numbers.now in
        OnOk result (T.takes to.old (frames_text (map K.frame all)) to.new) }
    ensures err { let all = records K.Record.WIDTH K.Record.read table.now.numbers.now in
        IfErr result (λ e. T.fails to.old (frames_text (map K.frame all)) e to.new) }
{
    for one in table.iter() {
        put_frame(to, &K::frame(one))?;
    }
    Ok(())
}

// The parts of a copy.
#[derive(Clone, Copy)]
pub(crate) enum Part {
    Declared,
    ConceptRules,
    ConceptExclusions,
    RoleRules,
    RoleExclusions,
    ConceptFacts,
    RoleFacts,
    Steps,
    Finals,
    Allowance,
}

// In the order of their kinds of frame.
const PARTS: [Part; 10] = [
    Part::Declared,
    Part::ConceptRules,
    Part::ConceptExclusions,
    Part::RoleRules,
    Part::RoleExclusions,
    Part::ConceptFacts,
    Part::RoleFacts,
    Part::Steps,
    Part::Finals,
    Part::Allowance,
];

// The line of an allowance, where one is given.
#[tactic(auto, unfolding(crate::specs::Copy::frames_text))]
fn put_allowance<T: Taker>(to: &mut T, allowance: Option<Rounds>) -> io::Result<()>
    ensures ok { OnOk result
        (T.takes to.old (frames_text (allowance_frames allowance)) to.new) }
    ensures err { IfErr result (λ e.
        T.fails to.old (frames_text (allowance_frames allowance)) e to.new) }
{
    match allowance {
        Some(rounds) => put_frame(to, &Frame::Allowance(rounds)),
        None => to.put(&[]),
    }
}

// The lines of one part of what is held.
fn put_part<T: Taker>(to: &mut T, file: &File, part: Part) -> io::Result<()>
    ensures ok { OnOk result (T.takes to.old (frames_text (part_frames file.now part)) to.new) }
    ensures err { IfErr result (λ e.
        T.fails to.old (frames_text (part_frames file.now part)) e to.new) }
{
    match part {
        Part::Declared => put_frame(to, &Frame::Declared(file.counts)),
        Part::ConceptRules => put_table::<ConceptRules, T>(to, &file.concept_rules.table()),
        Part::ConceptExclusions => {
            put_table::<ConceptExclusions, T>(to, &file.concept_exclusions.table())
        }
        Part::RoleRules => put_table::<RoleRules, T>(to, &file.role_rules.table()),
        Part::RoleExclusions => put_table::<RoleExclusions, T>(to, &file.role_exclusions.table()),
        Part::ConceptFacts => put_table::<ConceptFacts, T>(to, &file.concept_facts.table()),
        Part::RoleFacts => put_table::<RoleFacts, T>(to, &file.role_facts.table()),
        Part::Steps => put_table::<Steps, T>(to, &file.steps.table()),
        Part::Finals => put_table::<Finals, T>(to, &file.finals.table()),
        Part::Allowance => put_allowance(to, file.allowance),
    }
}

// The lines of all that is held but asks, an expression and the choice of salvage.
fn put_file<T: Taker>(to: &mut T, file: &File) -> io::Result<()>
    ensures ok { OnOk result (T.takes to.old (frames_text (typed_out file.now)) to.new) }
    ensures err { IfErr result (λ e.
        T.fails to.old (frames_text (typed_out file.now)) e to.new) }
{
    for part in PARTS.iter() {
        put_part(to, file, *part)?;
    }
    Ok(())
}

// The fair copy of what is held. An expression is spelled out, and the tables are put in order where they stand.
pub fn put_copy<T: Taker>(to: &mut T, file: &mut File) -> io::Result<()>
    ensures ready { IsMadeReady file.old file.new }
    ensures ok { OnOk result (T.takes to.old (frames_text (typed_out file.new)) to.new) }
    ensures err { IfErr result (λ e.
        T.fails to.old (frames_text (typed_out file.new)) e to.new) }
{
    file.spell_out();
    file.tidy();
    put_file(to, file)
}

// The copyist's report.
pub(crate) struct FairCopy;

impl Report for FairCopy {
    ghost says = { Copies };

    fn put<T: Taker>(&self, file: &mut File, to: &mut T) -> io::Result<()> {
        put_copy(to, file)
    }
}
