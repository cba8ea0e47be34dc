//! The lines of a made case.
ghost use Rattle.std.specs.Prelude.{◌≡◌, ◌≢◌, ◌++◌, IfOk, OnOk, string_bytes};
ghost use Rattle.choice_rank.specs.Choices.{IsChoice};
ghost use Rattle.clock_tree.specs.ClockText.{node_line};
ghost use Rattle.report.specs.Cases.{case_text, hclk_hertz};

use crate::clocks::clock_in;
use clock_tree::nodes;
use problem::Problem;
use res_base::OutOfMemory;
use std::alloc::{AllocError, Global};

#[tactic(auto, unfolding(clock_tree::specs::ClockText::node_line))]
fn number_line(alloc: Global, name: &str, n: u64) -> Result<String, AllocError>
    ensures { IfOk result (λ x. string_bytes x ≡ node_line name.now n) }
{
    let mut line = String::from_str(alloc, name)?;
    let digits = n.to_string(alloc)?;
    line.push_str(" ")?;
    line.push_str(digits.as_str())?;
    line.push_str("\n")?;
    Ok(line)
}

/// Appends a line of a name and a number.
fn put_number_line(alloc: Global, out: &mut Vec<u8>, name: &str, n: u64) -> Result<(), AllocError>
    ensures { OnOk result (out.new.items ≡ out.old.items ++ node_line name.now n) }
{
    let line = number_line(alloc, name, n)?;
    out.extend_from_slice(line.as_bytes())
}

/// HCLK of a choice, in whole hertz.
#[tactic(auto, unfolding(res_model::specs::Clock::nodes_of))]
fn hclk_hertz(p: &Problem, at: &[u16]) -> u64
    requires choice { IsChoice p.now.shape at.now }
    requires whole { p.now.first ≢ 0 }
    ensures { result ≡ hclk_hertz p.now at.now }
{
    let c = clock_in(p, at);
    nodes(&p.parts().facts, &c).hclk.floor()
}

/// The number of a made case, and of a choice of its whole problem the rank, the cost, and HCLK in hertz.
#[tactic(auto, unfolding(crate::specs::Cases::case_text))]
pub fn case_text(
    alloc: Global,
    number: u64,
    p: &Problem,
    at: &[u16],
) -> Result<Vec<u8>, OutOfMemory>
    requires choice { IsChoice p.now.shape at.now }
    requires whole { p.now.first ≢ 0 }
    ensures { IfOk result (λ x. x.items ≡ case_text number p.now at.now) }
{
    let shape = &p.parts().shape;
    let _vars = shape.vars();
    let mut out = Vec::new(alloc);
    put_number_line(alloc, &mut out, "case", number)?;
    put_number_line(alloc, &mut out, "rank", shape.rank(at))?;
    put_number_line(alloc, &mut out, "cost", u64::from(shape.cost(at)))?;
    put_number_line(alloc, &mut out, "HCLK", hclk_hertz(p, at))?;
    Ok(out)
}
