//! One event.
ghost use Rattle.search_core.specs.Events.{Answers, Step};
ghost use Rattle.search_core.specs.Fits.{Fits};

use crate::closes::{close_bad, cut, keep, split};
use crate::event::Event;
use crate::moves::{offer, pop, see, steal};
use crate::state::Core;
use res_base::OutOfMemory;
use search_api::Judge;

impl Core {
    /// Makes an event happen, and answers whether it was possible.
    ///
    /// Where it was not, and also where memory ran out, the core is as it was before.
    pub fn step<J: Judge>(
        &mut self,
        j: &J,
        scratch: &mut J::Scratch,
        e: Event,
    ) -> Result<bool, OutOfMemory>
        requires core { Fits (J.meaning j.now) self.old }
        requires scratch { J.fits j.now scratch.old }
        ensures answer { Answers (Step (J.meaning j.now) self.old e) self.old self.new result }
        ensures core { Fits (J.meaning j.now) self.new }
        ensures scratch { J.fits j.now scratch.new }
    {
        go(self, j, scratch, e)
    }
}

/// The same, without a word on what holds of the core after it.
fn go<J: Judge>(
    core: &mut Core,
    j: &J,
    scratch: &mut J::Scratch,
    e: Event,
) -> Result<bool, OutOfMemory>
    requires core { Fits (J.meaning j.now) core.old }
    requires scratch { J.fits j.now scratch.old }
    ensures answer { Answers (Step (J.meaning j.now) core.old e) core.old core.new result }
    ensures scratch { J.fits j.now scratch.new }
{
    match e {
        Event::Pop { worker } => Ok(pop(core, worker)),
        Event::Steal { worker, from } => Ok(steal(core, worker, from)),
        Event::Split { worker } => split(core, j, scratch, worker),
        Event::CloseBad { worker } => close_bad(core, j, scratch, worker),
        Event::Cut { worker } => cut(core, j, worker),
        Event::Keep { worker } => keep(core, j, scratch, worker),
        Event::Offer { worker } => Ok(offer(core, worker)),
        Event::See { worker } => Ok(see(core, worker)),
    }
}
