// Work on the tables of a description that CHECK accepts. They lie on the stack while the work goes on.
#![tactic(auto)]

ghost use Rattle.std.specs.Prelude.{◌≡◌, true, Err, MatchResult};
ghost use Rattle.file.specs.Sections.{rule_d1};
ghost use Rattle.unpacked.specs.Head.{head_of};
ghost use Rattle.description.specs.Check.{checked};
ghost use Rattle.description.specs.Facts.{TableRoom};
ghost use Rattle.opened.specs.Opened.{MayWork, Worked};

use tables::{Head, Tables};
use verdict::BrokenRule;

// The work in a table that has just room for the numbers of a description that keeps D1.
fn work_in<R, F: FnOnce(&Tables<'_>, &mut [u8]) -> R>(
    d: &[u8],
    h: Head,
    numbers: &mut [u16],
    out: &mut [u8],
    work: F,
) -> Result<R, BrokenRule>
    requires room { TableRoom d.now h numbers.old }
    requires may { MayWork F.FnOnce work d.now out.old }
    ensures { MatchResult result (λ r. Worked F.FnOnce work d.now out.old r out.new) (λ k. (checked d.now ≡ Err k) × (out.new ≡ out.old)) }
{
    description::check_in(d, h, numbers)?;
    let t = Tables::new(h, numbers, description::characters_in(d, h));
    Ok(work(&t, out))
}

// The same in the front of a table of the most numbers, which has a place on the stack only while it is needed.
#[inline(never)]
fn work_in_most<R, F: FnOnce(&Tables<'_>, &mut [u8]) -> R>(
    d: &[u8],
    h: Head,
    out: &mut [u8],
    work: F,
) -> Result<R, BrokenRule>
    requires head { (rule_d1 d.now ≡ true) × (h ≡ head_of d.now) }
    requires may { MayWork F.FnOnce work d.now out.old }
    ensures { MatchResult result (λ r. Worked F.FnOnce work d.now out.old r out.new) (λ k. (checked d.now ≡ Err k) × (out.new ≡ out.old)) }
{
    let n = unpacked::numbers_of(h);
    let mut numbers = [unpacked::UNSET; unpacked::NUMBERS_MAX];
    work_in(d, h, &mut numbers[..n], out, work)
}

// Of what a closure changes in what it captured the check knows nothing after the call, so the output is lent to it as a parameter.

// Does work on the tables of a description that CHECK accepts, or answers with the first rule that it breaks and leaves the output as it is. The
// tables are made in the front of a small array where that has room for them.
pub fn on_tables<R, F: FnOnce(&Tables<'_>, &mut [u8]) -> R>(
    d: &[u8],
    out: &mut [u8],
    work: F,
) -> Result<R, BrokenRule>
    requires { MayWork F.FnOnce work d.now out.old }
    ensures { MatchResult result (λ r. Worked F.FnOnce work d.now out.old r out.new) (λ k. (checked d.now ≡ Err k) × (out.new ≡ out.old)) }
{
    let Some(h) = unpacked::opening_of(d) else {
        return Err(BrokenRule::Sections);
    };
    let n = unpacked::numbers_of(h);
    if unpacked::SMALL_TABLE < n {
        return work_in_most(d, h, out, work);
    }
    let mut numbers = [unpacked::UNSET; unpacked::SMALL_TABLE];
    work_in(d, h, &mut numbers[..n], out, work)
}
