// The images of one set of states by the transitions of each role, each worked out where it is asked for first.

ghost use Rattle.std.specs.Prelude.{◌<◌};
ghost use Rattle.sets.specs.Bits.{role_width};
ghost use Rattle.sets.specs.Relations.{relation_at, Relates, IsImage};
ghost use Rattle.walk.specs.Images.{AreImages};

use kinds::SignedRole;
use sets::{RoleSet, StateSet, Transitions, image};

/// The roles whose images are made, and for each of them the image.
#[derive(Clone, Copy)]
pub struct Images {
    made: RoleSet,
    sets: [StateSet; SignedRole::NUMBERS],
}

impl Images {
    /// None is made.
    pub(crate) const NONE: Images = Images {
        made: RoleSet::EMPTY,
        sets: [StateSet::EMPTY; SignedRole::NUMBERS],
    };

    /// The image of m by one role.
    pub(crate) fn by(
        &mut self,
        transitions: &Transitions,
        role: SignedRole,
        m: StateSet,
    ) -> StateSet
        requires role { role.0 < role_width }
        requires made { AreImages transitions.now m.0 self.old }
        ensures made { AreImages transitions.now m.0 self.new }
        ensures image { IsImage (Relates (relation_at transitions.now role.0)) m.0 result.0 }
    {
        let r = role.0 as usize;
        if self.made.contains(role) {
            return self.sets[r];
        }
        let set = image(&transitions[r], m);
        self.made.insert(role);
        self.sets[r] = set;
        set
    }
}
