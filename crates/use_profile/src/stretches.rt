// Stretches of samples of kinds 0 and 1: of one sample more, of some samples behind others, and of the same ones many times in a row.
ghost use Rattle.std.specs.Prelude.{◌≡◌, ◌&&◌, ◌+◌, ◌*◌, ◌≤◌, max};
ghost use Rattle.base_fields.specs.Answer.{choose};
ghost use Rattle.table_views.specs.Stretches.{no_samples_of, step, join, times};
ghost use Rattle.use_profile.specs.Survey.{told_gaps, AtMost, Fit, largest};

use super::Gaps;

// With some more where all are of these kinds.
fn grown(all: bool, n: u64, more: u64) -> u64
    requires { n + more ≤ largest }
    ensures { result ≡ choose all (n + more) n }
{
    if all { n + more } else { n }
}

pub fn both(a: bool, b: bool) -> bool
    ensures { result ≡ (a && b) }
{
    if a { b } else { false }
}

pub fn no_gaps() -> Gaps
    ensures { told_gaps result ≡ no_samples_of }
{
    Gaps {
        whole: true,
        front: 0,
        back: 0,
        longest: 0,
    }
}

// One sample more, of these kinds or of kind 2.
pub fn one_more(gap: bool, g: Gaps) -> Gaps
    requires { AtMost 4294967295 g }
    ensures { told_gaps result ≡ step gap (told_gaps g) }
{
    if gap {
        let back = g.back + 1;
        return Gaps {
            whole: g.whole,
            front: grown(g.whole, g.front, 1),
            back,
            longest: g.longest.max(back),
        };
    }
    Gaps {
        whole: false,
        front: g.front,
        back: 0,
        longest: g.longest,
    }
}

// Some samples behind others.
pub fn joined(a: Gaps, b: Gaps) -> Gaps
    requires { Fit a b }
    ensures { told_gaps result ≡ join (told_gaps a) (told_gaps b) }
{
    Gaps {
        whole: both(a.whole, b.whole),
        front: grown(a.whole, a.front, b.front),
        back: grown(b.whole, b.back, a.back),
        longest: a.longest.max(b.longest).max(a.back + b.front),
    }
}

// The same samples m times in a row: of two and more, all of these kinds or with stretches that cross from one to the next.
pub fn repeated(m: u32, g: Gaps) -> Gaps
    requires { (AtMost 4294967295 g) × (m * g.front ≤ 4294967295) × (m * g.back ≤ 4294967295) × (m * g.longest ≤ 4294967295) }
    ensures { told_gaps result ≡ times m (told_gaps g) }
{
    if m == 0 {
        return no_gaps();
    }
    if m == 1 {
        return g;
    }
    if g.whole {
        let n = m as u64;
        return Gaps {
            whole: true,
            front: n * g.front,
            back: n * g.back,
            longest: n * g.longest,
        };
    }
    Gaps {
        whole: false,
        front: g.front,
        back: g.back,
        longest: g.longest.max(g.back + g.front),
    }
}
