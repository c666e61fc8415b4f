// R ≤ S: the rules as a matrix of marks, which is closed by value and then packed into rows of sets.

ghost use Rattle.std.specs.Prelude.{◌<◌, ◌≡◌, [], length, slice_index_or};
ghost use Rattle.laws.specs.Warshall.{Stepped, Closes};
ghost use Rattle.laws.specs.Marks.{mark};
ghost use Rattle.sets.specs.Bits.{role_width};
ghost use Rattle.sets.specs.Rows.{Adds, role_marks};
ghost use Rattle.orders.specs.Rows.{IsRoleOrder};
ghost use Rattle.orders.specs.Marks.{Square, Pair, Diagonal, OrRow, WithInverses, RoleListed, Packs, PacksRows};
ghost use Rattle.orders.specs.Sides.{InsertsBoth, Leads, OffDiagonal, OwnRows, AreOwn};

use kinds::SignedRole;
use sets::RoleSet;
use tables::{RolePair, Table};

// A row of marks for each signed role. Each step that closes the matrix takes it and returns it by value; what marks the rules and what packs the rows borrow it.
type RoleRow = [bool; SignedRole::NUMBERS];

type RoleMatrix = [RoleRow; SignedRole::NUMBERS];

// The roles on the left of the rules, and those on the right, with the inverses of both. Each mark off the diagonal leads from the left to the right,
// also while the matrix is closed: so the roles that no rule names cost nothing.
#[derive(Clone, Copy)]
struct Sides {
    left: RoleSet,
    right: RoleSet,
}

// The role and its inverse are put into the set.
fn insert_both(set: &mut RoleSet, role: SignedRole)
    ensures { InsertsBoth set.old.0 role.0 set.new.0 }
{
    set.insert(role);
    set.insert(role.inverse());
}

// The sides of all rules of a table.
#[tactic(auto, using(crate::proofs::SideLaws::listed))]
fn sides_of(rules: Table<RolePair>) -> Sides
    ensures { Leads result.left.0 result.right.0 (RoleListed rules.entry.numbers.now) }
{
    let mut left = RoleSet::EMPTY;
    let mut right = RoleSet::EMPTY;
    for rule in rules.iter() {
        insert_both(&mut left, rule.left);
        insert_both(&mut right, rule.right);
    }
    Sides { left, right }
}

// The marks of the other row are put into the row.
fn join_row(row: &mut RoleRow, other: &RoleRow)
    ensures long { length row.new ≡ role_width }
    ensures marks { OrRow role_width row.old other.now row.new }
{
    for s in 0..SignedRole::NUMBERS {
        row[s] = row[s] | other[s];
    }
}

// Every (i, i) is marked.
#[tactic(auto, using(crate::proofs::MarkLaws::marks))]
fn reflexive(mut m: RoleMatrix) -> RoleMatrix
    requires { Square role_width m }
    ensures square { Square role_width result }
    ensures marks { Adds role_width role_width (mark m) Diagonal (mark result) }
{
    for i in 0..SignedRole::NUMBERS {
        m[i][i] = true;
    }
    m
}

// Warshall's step at the pivot k: the row of k is put into each row that marks k, and the others are not written.
#[tactic(auto, using(crate::proofs::Close::stepping_start))]
fn pivot(mut m: RoleMatrix, k: usize) -> RoleMatrix
    requires below { k < role_width }
    requires square { Square role_width m }
    ensures square { Square role_width result }
    ensures step { Stepped role_width (mark m) k (mark result) }
{
    let row = m[k];
    for i in 0..SignedRole::NUMBERS {
        if m[i][k] {
            join_row(&mut m[i], &row);
        }
    }
    m
}

// The smallest reflexive and transitive relation that holds m. A role that is not on both sides of rules is no pivot: what goes through it is marked already.
#[tactic(auto, using(crate::proofs::Close::closing))]
fn close(m: RoleMatrix, sides: Sides) -> RoleMatrix
    requires { Leads sides.left.0 sides.right.0 (OffDiagonal (mark m)) }
    ensures closed { Closes role_width (mark m) (mark result) }
    ensures own { OwnRows sides.left.0 (mark result) }
{
    let pivots = sides.left.intersection(sides.right);
    let mut out = reflexive(m);
    for k in 0..SignedRole::NUMBERS {
        if pivots.contains(SignedRole(k as u16)) {
            let next = pivot(out, k);
            out = next;
        }
    }
    out
}

/// The smallest reflexive and transitive relation that holds m, whatever it marks.
pub fn close_roles(m: RoleMatrix) -> RoleMatrix
    ensures { Closes role_width (mark m) (mark result) }
{
    let every = RoleSet(u64::MAX);
    let sides = Sides {
        left: every,
        right: every,
    };
    close(m, sides)
}

// The mark of one pair; a pair with a number out of range is passed over.
#[tactic(auto, using(crate::proofs::MarkLaws::marks))]
fn mark_pair(m: &mut RoleMatrix, left: SignedRole, right: SignedRole)
    requires { Square role_width m.old }
    ensures square { Square role_width m.new }
    ensures marks { Adds role_width role_width (mark m.old) (Pair left.0 right.0) (mark m.new) }
{
    let i = left.0 as usize;
    let j = right.0 as usize;
    if i < SignedRole::NUMBERS && j < SignedRole::NUMBERS {
        m[i][j] = true;
    }
}

// A rule and its inverse are marked.
fn mark_rule(m: &mut RoleMatrix, rule: RolePair)
    requires { Square role_width m.old }
    ensures square { Square role_width m.new }
    ensures marks { Adds role_width role_width (mark m.old)
        (WithInverses (Pair rule.left.0 rule.right.0)) (mark m.new) }
{
    let back = RolePair {
        left: rule.left.inverse(),
        right: rule.right.inverse(),
    };
    mark_pair(m, rule.left, rule.right);
    mark_pair(m, back.left, back.right);
}

// Every rule of a table and its inverse are marked.
#[tactic(auto, using(crate::proofs::MarkLaws::marks))]
fn mark_rules(m: &mut RoleMatrix, rules: Table<RolePair>)
    requires { Square role_width m.old }
    ensures { Adds role_width role_width (mark m.old)
        (RoleListed rules.entry.numbers.now) (mark m.new) }
{
    for rule in rules.iter() {
        mark_rule(m, rule);
    }
}

// The marks of a row as a set.
#[tactic(auto, using(crate::proofs::RowLaws::packing_start, crate::proofs::RowLaws::packing_more, crate::proofs::RowLaws::packing_end))]
fn pack_row(row: &RoleRow) -> RoleSet
    ensures { Packs row.now result.0 }
{
    let mut out = RoleSet::EMPTY;
    for (j, on) in row.iter().enumerate() {
        out.insert_if(SignedRole(j as u16), *on);
    }
    out
}

// Row i as a set. The row of a role that is on the left of no rule marks only that role, and is not read.
fn pack_row_of(m: &RoleMatrix, left: RoleSet, i: usize) -> RoleSet
    requires below { i < role_width }
    requires own { OwnRows left.0 (mark m.now) }
    ensures { Packs (slice_index_or m.now i []) result.0 }
{
    let role = SignedRole(i as u16);
    if left.contains(role) {
        return pack_row(&m[i]);
    }
    RoleSet::only(role)
}

// The rows as sets.
#[tactic(auto, using(crate::proofs::RowLaws::packed_start, crate::proofs::RowLaws::packed_more, crate::proofs::RowLaws::packed_end))]
fn pack(m: &RoleMatrix, left: RoleSet) -> [RoleSet; SignedRole::NUMBERS]
    requires { OwnRows left.0 (mark m.now) }
    ensures { PacksRows m.now result }
{
    let mut out = [RoleSet::EMPTY; SignedRole::NUMBERS];
    for i in 0..SignedRole::NUMBERS {
        out[i] = pack_row_of(m, left, i);
    }
    out
}

// For each role the set of that role alone: the order where no rule is in range.
fn own_rows() -> [RoleSet; SignedRole::NUMBERS]
    ensures { AreOwn result }
{
    let mut out = [RoleSet::EMPTY; SignedRole::NUMBERS];
    for i in 0..SignedRole::NUMBERS {
        out[i] = RoleSet::only(SignedRole(i as u16));
    }
    out
}

// The rules are marked in a matrix, which is closed and packed. Never put into its caller, which would pay for the matrix where there are no rules.
#[inline(never)]
#[tactic(auto, using(crate::proofs::RowLaws::packed_order))]
fn closed_rows(rules: Table<RolePair>, sides: Sides) -> [RoleSet; SignedRole::NUMBERS]
    requires { Leads sides.left.0 sides.right.0 (RoleListed rules.numbers.now) }
    ensures { IsRoleOrder rules.entry.numbers.now (role_marks result) }
{
    let mut marks = [[false; SignedRole::NUMBERS]; SignedRole::NUMBERS];
    mark_rules(&mut marks, rules);
    let closed = close(marks, sides);
    pack(&closed, sides.left)
}

// R ≤ S by the rules of a table.
fn rows_of(rules: Table<RolePair>) -> [RoleSet; SignedRole::NUMBERS]
    ensures { IsRoleOrder rules.entry.numbers.now (role_marks result) }
{
    let sides = sides_of(rules);
    if sides.left.is_empty() {
        return own_rows();
    }
    closed_rows(rules, sides)
}

/// R ≤ S: for each role the roles above it.
#[derive(Clone, Copy)]
pub struct RoleOrder {
    pub above: [RoleSet; SignedRole::NUMBERS],
}

impl RoleOrder {
    /// From the rules of a table; a rule with a number out of range is passed over.
    pub fn new(rules: Table<RolePair>) -> RoleOrder
        ensures { IsRoleOrder rules.entry.numbers.now (role_marks result.above) }
    {
        let above = rows_of(rules);
        RoleOrder { above }
    }
}
