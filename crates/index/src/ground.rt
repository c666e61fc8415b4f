// The ground of every answer: what follows from what, and who has what.

ghost use Rattle.std.specs.Prelude.{◌≡◌, ◌↔◌, IsNone, IfSome};
ghost use Rattle.meaning.specs.Model.{Contradiction};
ghost use Rattle.rules.specs.RowsOf.{AreBelow, LeadDown, RowsOf};
ghost use Rattle.index.specs.Works.{Passes, meant, AreFactEdges, IsClosedSheet, AreRight};

use crate::routes::Paths;
use clash::Exclusions;
use edges::{FactEdges, MOST_FACT_EDGES, PackedEdge};
use elements::Elements;
use orders::{ConceptOrder, ConceptRelation, RoleOrder};
use rules::{Rows, fill_transitions};
use sets::{Sheet, Transitions};
use std::marker::Model;
use tables::Collection;
use walk::{Accepting, Loops, PathsBelow, Question, roles_of};

// Contracts see it as the collection that it was made of, which passed its tests.
#[derive(Drop)]
pub(crate) struct Ground<'r> {
    of: Collection<'r>,
    roles: RoleOrder,
    order: ConceptOrder,
    elements: Elements,
}

impl<'r> Model for Ground<'r> {
    ghost use Rattle.tables.specs.declared.collection.Collection.{Collection as TheCollection};
    ghost use Rattle.index.specs.Ground.{IsGround};

    ghost Value = { TheCollection };

    ghost view = { λ g. g.of };

    ghost invariant = { λ g. IsGround g.of g.roles g.order g.elements };
}

// What makes it, what tests it and what makes paths of it are never put into their caller: so what only they need is gone
// from the stack while rounds are worked.
impl<'r> Ground<'r> {
    #[inline(never)]
    pub(crate) fn new(of: &Collection<'r>) -> Ground<'r>
        requires { Passes of.now }
        ensures { result ≡ of.now }
    {
        let roles = RoleOrder::new(of.role_rules);
        let order = ConceptOrder::new(of.concept_rules, &roles);
        let mut elements = Elements::EMPTY;
        elements.fill(of.concept_facts, of.role_facts, &order);
        Ground {
            of: *of,
            roles,
            order,
            elements,
        }
    }

    // The edges that facts make, for the contradiction test and for walks; none where the canonical model breaks an exclusion.
    // Exclusions of concepts are tested first, since they need no edge. The array is lent for the edges.
    #[inline(never)]
    pub(crate) fn edges(
        &self,
        transitions: &mut Transitions,
        list: &'r mut [PackedEdge; MOST_FACT_EDGES],
    ) -> Option<FactEdges<'r>>
        ensures none { IsNone result ↔ Contradiction (meant self.now) }
        ensures some { IfSome result (AreFactEdges self.now transitions.new) }
    {
        let exclusions = Exclusions::new(self.of.concept_exclusions, self.of.role_exclusions);
        if exclusions.contradicts_concepts(&self.order, &self.elements) {
            return None;
        }
        fill_transitions(transitions, self.of.steps, &self.roles);
        let roles = exclusions
            .concerned(&self.roles)
            .union(roles_of(transitions));
        let edges = FactEdges::new(self.of.role_facts, roles, list);
        if exclusions.contradicts_roles(&self.roles, self.elements.generating, &edges) {
            return None;
        }
        Some(edges)
    }

    // For each concept those below it.
    #[inline(never)]
    pub(crate) fn below(&self) -> ConceptRelation
        ensures { AreBelow (meant self.now) result }
    {
        self.order.transposed()
    }

    // The tables that the rounds read.
    pub(crate) fn lay_out(
        &self,
        below: &ConceptRelation,
        transitions: &Transitions,
        rows: &mut Rows,
    )
        requires below { AreBelow (meant self.now) below.now }
        requires transitions { LeadDown (meant self.now) transitions.now }
        ensures { RowsOf (meant self.now) rows.new }
    {
        rows.fill(self.of.counts, below, transitions, self.of.steps);
    }

    // What walks follow, made from the closed sheet.
    #[inline(never)]
    pub(crate) fn paths(
        &self,
        below: &ConceptRelation,
        transitions: &'r Transitions,
        edges: FactEdges<'r>,
        sheet: &Sheet,
        loops: &'r mut Loops,
        accepting: &'r mut Accepting,
    ) -> Paths<'r>
        requires below { AreBelow (meant self.now) below.now }
        requires edges { AreFactEdges self.now transitions.now edges }
        requires sheet { IsClosedSheet (meant self.now) sheet.now }
        ensures { AreRight self.now result }
    {
        let individuals = &self.elements.individuals;
        loops.fill(individuals, sheet);
        let below = PathsBelow::new(below, transitions, sheet, self.of.finals);
        let question = Question::new(self.of.counts.start, &below, individuals, accepting);
        Paths {
            loops,
            transitions,
            edges,
            question,
        }
    }
}
