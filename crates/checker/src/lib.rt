// Checking evidence from anywhere against a picture. It follows the forests that the evidence brings and never searches for a chain.
#![tactic(auto)]

ghost use Rattle.std.specs.Prelude.{◌≡◌, []};
ghost use Rattle.lists.specs.Lists.{outcome};
ghost use Rattle.picture.specs.Refusals.{fault_of};
ghost use Rattle.evidence.specs.Checks.{check_fault};
ghost use Rattle.evidence.specs.Calls.{shown, shown_part};
ghost use Rattle.checker.specs.Answers.{checking, checking_numbers, past};

mod forests;
mod form;
mod verdict;

use evidence::{BYTE_BITS, Part};
use picture::{BLOCKS_MAX, Picture, Refusal};

// Evidence for an accepted picture has no fault.
fn judge(p: &Picture, ev: &[u8]) -> Result<(), Refusal>
    ensures { fault_of result ≡ check_fault p.now ev.now }
{
    let rows = network::slot_rows(p);
    let Some(count) = form::form_of(ev, p.header(), rows.near) else {
        return Err(Refusal::Form);
    };
    // The header is asked for twice: kept while the parts are judged, it takes 48 bytes more of stack.
    let mut cuts = [0u8; BLOCKS_MAX];
    forests::judge_parts(p, ev, rows.held, &mut cuts[..count])?;
    if !verdict::verdict_right(ev, p.header(), &cuts[..count]) {
        return Err(Refusal::Verdict);
    }
    Ok(())
}

// Checks evidence from anywhere against a picture: it passes, or it is refused for its first fault.
pub fn check(s: &[u8], ev: &[u8]) -> Result<(), Refusal>
    ensures answer { result ≡ checking s.now ev.now }
    ensures numbers { checking_numbers result ≡ outcome (check_fault s.now ev.now) [] }
{
    let p = Picture::read(s)?;
    judge(&p, ev)
}

// The part that show gives: the chosen candidate's section, or the empty part where the check fails or the verdict is none.
// Kept: the empty part for none, the form that is asked for.
#[tactic(auto, using(evidence::proofs::Showing::shown_none))]
fn shown_part(s: &[u8], ev: &[u8]) -> Part
    ensures { result ≡ shown_part s.now ev.now }
{
    let none = Part { start: 0, size: 0 };
    let Ok(p) = Picture::read(s) else {
        return none;
    };
    if judge(&p, ev).is_err() {
        return none;
    }
    let head = evidence::head_of(ev);
    if head.verdict != 1 {
        return none;
    }
    let h = p.header();
    let i = verdict::section_named(ev, h, head.count, head.block);
    Part {
        start: evidence::section_at(h, i) / BYTE_BITS,
        size: evidence::section_bytes(h),
    }
}

// The chosen candidate's section of the evidence itself, or the empty part at its start.
#[tactic(auto, using(evidence::proofs::Showing::shown_room), unfolding(evidence::specs::Calls::shown))]
pub fn show<'p, 'e>(s: &'p [u8], ev: &'e [u8]) -> &'e [u8]
    ensures bytes { result.now ≡ shown s.now ev.now }
    ensures place { result.ref_ptr ≡ past ev.entry.ref_ptr (shown_part s.now ev.now).start }
{
    let part = shown_part(s, ev);
    &ev[part.start..part.start + part.size]
}
