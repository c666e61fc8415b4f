// What is asked of walks, and what they follow.

ghost use Rattle.walk.specs.Guides.{IsForward};

use crate::batch::Batch;
use crate::directed::Directed;
use crate::question::Question;
use crate::strides::Strides;

/// A batch of asks, their question, and what walks forward go by, which is made once.
#[derive(Clone, Copy)]
pub struct Asking<'q, 's, 'a> {
    pub strides: Strides<'s, 'a>,
    pub forward: &'q Directed<'q>,
    pub question: Question<'q>,
    pub batch: Batch<'q>,
    ghost goes_forward: { IsForward strides.transitions.now forward.now },
}
