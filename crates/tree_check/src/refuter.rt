//! What a refuter of boxes answers for.
ghost use Rattle.std.specs.Prelude.{◌≡◌};
ghost use Rattle.choice_rank.specs.Choices.{IsChoice};
ghost use Rattle.box_split.specs.Boxes.{IsBox};
ghost use Rattle.box_split.specs.BoxIn.{box_in};
ghost use Rattle.search_api.specs.Meaning.{Meaning};
ghost use Rattle.tree_check.specs.Sound.{HasSoundReasons};

use box_split::BoxBuf;
use choice_rank::Shape;
use search_api::Reason;

/// What refutes boxes of a shape, and tells which choices are legal.
///
/// It finds no reason by itself: it is asked whether a reason that somebody names holds.
pub trait Refuter {
    ghost meaning: { Self → Meaning };

    /// What a refuter has to keep so that its reasons are sound.
    ghost serves: { Self → Type 0 };

    fn shape(&self) -> &Shape
        requires { serves self.now }
        ensures { result.now ≡ (meaning self.now).shape };

    /// Whether a reason refutes a box.
    fn refutes(&self, reason: Reason, b: &BoxBuf) -> bool
        requires serves { serves self.now }
        requires is_box { IsBox (meaning self.now).shape (box_in (meaning self.now).shape b.now) }
        ensures { result ≡ (meaning self.now).refutes reason (box_in (meaning self.now).shape b.now) };

    /// Whether a choice is legal.
    fn meets(&self, at: &[u16]) -> bool
        requires serves { serves self.now }
        requires choice { IsChoice (meaning self.now).shape at.now }
        ensures { result ≡ (meaning self.now).legal at.now };

    ghost sound: { (r : Self) → serves r → HasSoundReasons (meaning r) };
}
