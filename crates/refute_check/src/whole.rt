//! What refutes a box of a whole problem.
ghost use Rattle.std.specs.Prelude.{◌≡◌, ◌≢◌};
ghost use Rattle.box_split.specs.Boxes.{IsBox};
ghost use Rattle.box_split.specs.BoxIn.{box_in};
ghost use Rattle.box_rules.specs.Judged.{IsWhole, refutes_whole, whole_meaning};
ghost use Rattle.box_rules.proofs.WholeLemmas.{whole_lawful};
ghost use Rattle.tree_check.specs.Sound.{of_judge};

use crate::halls::hall_refutes;
use crate::limits::limit_refutes;
use box_split::BoxBuf;
use choice_rank::Shape;
use problem::Problem;
use search_api::Reason;
use tree_check::Refuter;

/// That a whole problem has what its reasons rest on.
pub(crate) fn is_whole(p: &Problem)
    requires { p.now.first ≢ 0 }
    ensures { IsWhole p.now }
{
    p.parts_agree();
    p.parts().tables.keeps_rules();
}

/// Refutes boxes of a whole problem, by Hall sets and limits.
#[derive(Drop)]
pub(crate) struct WholeRefuter<'p> {
    pub(crate) problem: &'p Problem,
}

impl Refuter for WholeRefuter<'_> {
    ghost meaning = { λ r. whole_meaning r.problem.now };

    ghost serves = { λ r. IsWhole r.problem.now };

    fn shape(&self) -> &Shape {
        &self.problem.parts().shape
    }

    fn refutes(&self, reason: Reason, b: &BoxBuf) -> bool {
        reason_refutes(self.problem, reason, b)
    }

    fn meets(&self, at: &[u16]) -> bool {
        self.problem.meets(at)
    }

    ghost sound = { λ r whole. of_judge (whole_meaning r.problem.now) (whole_lawful r.problem.now whole) };
}

/// Whether a reason says that no choice of a box meets the limits.
fn reason_refutes(p: &Problem, reason: Reason, b: &BoxBuf) -> bool
    requires whole { IsWhole p.now }
    requires is_box { IsBox p.now.shape (box_in p.now.shape b.now) }
    ensures { result ≡ refutes_whole p.now reason (box_in p.now.shape b.now) }
{
    match reason {
        Reason::Hall { class, vars } => hall_refutes(p, class, &vars, b),
        Reason::Limit(limit) => limit_refutes(p, limit, b),
    }
}
