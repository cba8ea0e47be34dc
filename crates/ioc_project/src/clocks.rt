//! What a project and the options say of the clocks.
ghost use Rattle.std.specs.Prelude.{◌≡◌, ◌&&◌, ◌||◌, max, if◌then◌else◌};
ghost use Rattle.std.specs.List.{list_any};
ghost use Rattle.res_model.specs.Clock.{has_signal, has_mark, belongs, is_in_use, is_exact, is_most, needs_exact, needs_most, greatest_floor, facts_of};

use res_model::{Facts, Ip, Need48, Opts, Project, TableParts, TableSignal, Tables};

fn has_signal(p: &Project, name: &[u8]) -> bool
    ensures { result ≡ has_signal p.now name.now }
{
    p.signals
        .as_slice()
        .iter()
        .any(|s| s.name.as_str().as_bytes() == name)
}

fn has_mark(p: &Project, mark: &[u8]) -> bool
    ensures { result ≡ has_mark p.now mark.now }
{
    p.marks
        .as_slice()
        .iter()
        .any(|m| m.as_str().as_bytes() == mark)
}

fn belongs(s: &TableSignal, name: &[u8]) -> bool
    ensures { result ≡ belongs s.now.ip name.now }
{
    match &s.ip {
        None => false,
        Some(ip) => ip.as_str().as_bytes() == name,
    }
}

/// Whether the project has this signal, and it belongs to the IP of this name.
fn is_of(s: &TableSignal, p: &Project, name: &[u8]) -> bool
    ensures { result ≡ (belongs s.now.ip name.now && has_signal p.now s.now.name) }
{
    belongs(s, name) && has_signal(p, s.name.as_str().as_bytes())
}

fn some_signal_of(t: &TableParts, p: &Project, name: &[u8]) -> bool
    ensures { result ≡ list_any (λ s. belongs s.ip name.now && has_signal p.now s.name) t.now.signals }
{
    t.signals.as_slice().iter().any(|s| is_of(s, p, name))
}

fn some_mark_of(p: &Project, ip: &Ip) -> bool
    ensures { result ≡ list_any (has_mark p.now) ip.now.marks }
{
    ip.marks
        .as_slice()
        .iter()
        .any(|mark| has_mark(p, mark.as_str().as_bytes()))
}

/// Whether the project has a signal of the IP, or one of its marks.
#[tactic(auto, unfolding(res_model::specs::Clock::is_in_use))]
fn is_in_use(t: &TableParts, p: &Project, ip: &Ip) -> bool
    ensures { result ≡ is_in_use t.now p.now ip.now }
{
    some_signal_of(t, p, ip.name.as_str().as_bytes()) || some_mark_of(p, ip)
}

/// What IPs in use need: the 48 MHz output exactly or at most, and the least HCLK in hertz.
#[derive(Clone, Copy)]
struct Needs {
    exact: bool,
    most: bool,
    floor: u64,
}

/// The needs with those of one IP more, which may be in use.
fn with_ip(needs: Needs, ip: &Ip, used: bool) -> Needs
    ensures exact { result.exact ≡ (needs.exact || (is_exact ip.now.clock48 && used)) }
    ensures most { result.most ≡ (needs.most || (is_most ip.now.clock48 && used)) }
    ensures floor { result.floor ≡ max needs.floor (if used then ip.now.floor else 0) }
{
    if !used {
        return needs;
    }
    Needs {
        exact: needs.exact || ip.clock48 == Need48::Exact,
        most: needs.most || ip.clock48 == Need48::Most,
        floor: needs.floor.max(ip.floor),
    }
}

#[tactic(auto, unfolding(res_model::specs::Clock::needs_exact, res_model::specs::Clock::needs_most))]
fn needs_of(t: &TableParts, p: &Project) -> Needs
    ensures exact { result.exact ≡ needs_exact t.now p.now }
    ensures most { result.most ≡ needs_most t.now p.now }
    ensures floor { result.floor ≡ greatest_floor t.now p.now t.now.ips }
{
    let mut needs = Needs {
        exact: false,
        most: false,
        floor: 0,
    };
    for ip in t.ips.as_slice() {
        needs = with_ip(needs, ip, is_in_use(t, p, ip));
    }
    needs
}

/// What a project and the options say of the clocks.
#[tactic(auto, unfolding(res_model::specs::Clock::facts_of))]
pub fn facts(t: &Tables, p: &Project, opts: &Opts) -> Facts
    ensures facts { result ≡ facts_of t.now p.now opts.now }
    ensures need48 { result.need48 ≡ (result.exact48 || result.most48) }
{
    let parts = t.parts();
    let needs = needs_of(parts, p);
    let osc_in = has_signal(p, parts.hse_in.as_str().as_bytes());
    let osc_out = has_signal(p, parts.hse_out.as_str().as_bytes());
    Facts {
        hse_hz: p.hse_hz,
        osc_in,
        bypass: osc_in && !osc_out,
        need48: needs.exact || needs.most,
        exact48: needs.exact,
        most48: needs.most,
        floor: needs.floor,
        vdd: opts.vdd,
        hclk: opts.hclk,
        pclk1: opts.pclk1,
        pclk2: opts.pclk2,
    }
}
