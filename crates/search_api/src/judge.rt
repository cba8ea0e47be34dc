//! What a judge of boxes answers for.
ghost use Rattle.std.specs.Prelude.{◌≡◌, IfOk};
ghost use Rattle.box_split.specs.Boxes.{IsBox};
ghost use Rattle.box_split.specs.BoxIn.{box_in};
ghost use Rattle.search_api.specs.Meaning.{Meaning, IsLawful};

use crate::verdict::Verdict;
use box_split::BoxBuf;
use choice_rank::Shape;
use res_base::OutOfMemory;
use std::alloc::Global;

/// What decides which choices of a shape are legal, box by box.
///
/// The verdict is a function of the box alone: what the scratch holds makes no difference to it.
pub trait Judge {
    type Scratch: Send + Drop;

    ghost meaning: { Self → Meaning };

    ghost fits: { Self → Self.Scratch → Type 0 };

    fn shape(&self) -> &Shape
        ensures { result.now ≡ (meaning self.now).shape };

    /// Room to work in, which fits this judge and which each call of `judge` keeps so.
    fn scratch(&self, alloc: Global) -> Result<Self::Scratch, OutOfMemory>
        ensures { IfOk result (fits self.now) };

    /// The verdict on a box of the shape.
    fn judge(&self, scratch: &mut Self::Scratch, b: &BoxBuf) -> Verdict
        requires is_box { IsBox (meaning self.now).shape (box_in (meaning self.now).shape b.now) }
        requires fits { fits self.now scratch.old }
        ensures verdict { result ≡ (meaning self.now).verdict (box_in (meaning self.now).shape b.now) }
        ensures fits { fits self.now scratch.new };

    ghost lawful: { (j : Self) → IsLawful (meaning j) };
}
