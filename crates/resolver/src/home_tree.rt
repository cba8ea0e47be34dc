//! The clock tree of a project's homes.
ghost use Rattle.std.specs.Prelude.{◌≡◌, ◌<◌, ◌^◌, ◌++◌, [], ◌∷◌, true, Ok, IfOk, string_bytes};
ghost use Rattle.res_model.specs.Clock.{AreFacts, IsInRange, facts_of};
ghost use Rattle.res_model.specs.declared.opts.Free.TheVariants.{Pins};
ghost use Rattle.ioc_project.specs.Read.{IsRead};
ghost use Rattle.ioc_project.specs.Project.{all_within, domain_tests};
ghost use Rattle.resolver.specs.HomeTree.{AreHomes, choice_text, home_at, home_choice, home_nodes, home_text, limits_line};

use clock_limits::broken;
use clock_tree::{nodes, tree_text};
use ioc_project::facts;
use power_flash::wait_at;
use res_base::OutOfMemory;
use res_model::{ClockChoice, Facts, Home, Nodes, Opts, Project, Src, Tables};
use std::alloc::{AllocError, Global};

/// The choice that leaves each clock variable at home.
#[tactic(auto, unfolding(crate::specs::HomeTree::home_choice))]
fn home_choice(homes: &[Home; 10]) -> ClockChoice
    requires { AreHomes homes.now }
    ensures { result ≡ home_choice homes.now }
{
    ClockChoice {
        src: Src::of(homes[0].value),
        psrc: Src::of(homes[1].value),
        hpre: homes[2].value as u16,
        p: homes[3].value as u8,
        m: homes[4].value as u8,
        n: homes[5].value as u16,
        q: homes[6].value as u8,
        ppre1: homes[7].value as u8,
        ppre2: homes[8].value as u8,
        vos: homes[9].value as u8,
    }
}

fn limits_line(alloc: Global, limit: Option<u8>) -> Result<String, AllocError>
    ensures { IfOk result (λ x. string_bytes x ≡ limits_line limit) }
{
    match limit {
        None => String::from_str(alloc, "limits met"),
        Some(limit) => format!(in alloc; "limits broken L {limit}"),
    }
}

/// The text of a clock choice, and the least limit that it breaks.
#[tactic(auto, unfolding(crate::specs::HomeTree::choice_text))]
fn choice_text(
    alloc: Global,
    t: &Tables,
    f: &Facts,
    c: &ClockChoice,
) -> Result<Vec<u8>, OutOfMemory>
    requires facts { AreFacts f.now }
    requires choice { IsInRange c.now }
    ensures { IfOk result (λ x. x.items ≡ choice_text t.now f.now c.now) }
{
    let mut out = tree_text(alloc, f, c, wait_at(t, f, c))?;
    let line = limits_line(alloc, broken(t, f, c))?;
    out.extend_from_slice(line.as_bytes())?;
    out.push(b'\n')?;
    Ok(out)
}

/// That homes in their domains are a choice that a table may allow.
fn homes_fit(t: &Tables, homes: &[Home; 10])
    requires { all_within (domain_tests t.now.clock) homes.now ≡ Ok tt }
    ensures { AreHomes homes.now }
{
    t.keeps_rules();
}

/// That the HSE's frequency is a u32.
pub(crate) fn hertz_fit(t: &Tables)
    ensures { t.now.hse_hz < 2 ^ 32 }
{
    t.keeps_rules();
}

#[tactic(auto, unfolding(res_model::specs::Clock::facts_of))]
fn facts_fit(t: &Tables, p: &Project, opts: &Opts) -> Facts
    requires { p.now.hse_hz < 2 ^ 32 }
    ensures facts { result ≡ facts_of t.now p.now opts.now }
    ensures fit { AreFacts result }
{
    facts(t, p, opts)
}

/// The clocks of a project's homes: what is known of them, and the choice that leaves them there.
pub(crate) struct Homes {
    pub facts: Facts,
    pub choice: ClockChoice,
}

/// The homes of a project's clocks.
pub(crate) fn homes_of(t: &Tables, p: &Project, opts: &Opts) -> Homes
    requires read { IsRead t.now opts.now true p.now }
    requires fixed { opts.now.free ≡ Pins }
    ensures facts { result.facts ≡ facts_of t.now p.now opts.now }
    ensures choice { result.choice ≡ home_choice p.now.clock }
    ensures fit { AreFacts result.facts }
    ensures in_range { IsInRange result.choice }
{
    hertz_fit(t);
    homes_fit(t, &p.clock);
    Homes {
        facts: facts_fit(t, p, opts),
        choice: home_choice(&p.clock),
    }
}

/// The clock tree of a project's homes, and the least limit that it breaks.
pub(crate) fn home_text(
    alloc: Global,
    t: &Tables,
    p: &Project,
    opts: &Opts,
) -> Result<Vec<u8>, OutOfMemory>
    requires read { IsRead t.now opts.now true p.now }
    requires fixed { opts.now.free ≡ Pins }
    ensures { IfOk result (λ x. x.items ≡ home_text t.now p.now opts.now) }
{
    let Homes { facts, choice } = homes_of(t, p, opts);
    choice_text(alloc, t, &facts, &choice)
}

/// The nodes of a project's homes.
pub(crate) fn home_nodes(t: &Tables, p: &Project, opts: &Opts) -> Nodes
    requires read { IsRead t.now opts.now true p.now }
    requires fixed { opts.now.free ≡ Pins }
    ensures { result ≡ home_nodes t.now p.now opts.now }
{
    let Homes { facts, choice } = homes_of(t, p, opts);
    nodes(&facts, &choice)
}
