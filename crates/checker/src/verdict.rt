// The verdict that the sections of evidence imply, and the section that it names.
ghost use Rattle.std.specs.Prelude.{◌≡◌, ◌≤◌, ◌<◌, length, get_or};
ghost use Rattle.lists.specs.Lists.{any};
ghost use Rattle.picture.specs.Inner.{Limited};
ghost use Rattle.evidence.specs.Canonical.{no_cost, least};
ghost use Rattle.evidence.specs.Checks.{is_named, verdict_right};
ghost use Rattle.checker.specs.Verdict.{cost_in, stated, section_named};

use network::Cost;
use picture::Header;
use std::marker::Model;

// The sections of evidence, and for each how many endpoints its block cuts.
#[derive(Drop)]
struct Sections<'s> {
    ev: &'s [u8],
    h: Header,
    cuts: &'s [u8],
}

// They are seen as what they state.
impl<'s> Model for Sections<'s> {
    ghost use Rattle.std.specs.Prelude.{List, length, ◌≤◌};
    ghost use Rattle.network.specs.declared.Cost.{Cost};
    ghost use Rattle.picture.specs.Inner.{Limited};
    ghost use Rattle.checker.specs.Verdict.{stated};

    ghost Value = { List Cost };

    ghost view = { λ s. stated s.h.edition s.h.slots s.ev.now s.cuts.now };

    ghost invariant = { λ s. Limited s.h × (length s.cuts.now ≤ 255) };
}

impl Sections<'_> {
    // How many they are.
    #[tactic(auto, using(crate::proofs::Verdicts::stated_length))]
    fn count(&self) -> usize
        ensures { result ≡ length self.now }
    {
        self.cuts.len()
    }

    // What section i states.
    #[tactic(auto, using(crate::proofs::Verdicts::stating), unfolding(crate::specs::Verdict::cost_in))]
    fn cost_at(&self, i: usize) -> Cost
        requires { i < length self.now }
        ensures { result ≡ get_or self.now i no_cost }
    {
        let w = evidence::section_of(self.ev, self.h, i);
        Cost {
            block: w.block,
            loss: w.loss,
            cuts: usize::from(self.cuts[i]),
            mark: w.mark,
        }
    }

    // The choice that the sections imply: they are gone over in the order of choice.
    #[tactic(auto, using(crate::proofs::Verdicts::choosing))]
    fn implied(&self) -> Option<Cost>
        ensures { result ≡ least self.now }
    {
        let mut best = None;
        for i in 0..self.count() {
            best = evidence::better(best, self.cost_at(i));
        }
        best
    }

    // Whether one of the sections is of this block, admissible, and loses and cuts as much as the choice.
    fn any_named(&self, block: usize, c: Cost) -> bool
        ensures { result ≡ any (is_named block c) self.now }
    {
        (0..self.count()).any(|i| is_named(self.cost_at(i), block, c))
    }
}

// Whether a section is of this block, admissible, and loses and cuts as much as the choice.
#[tactic(auto, unfolding(evidence::specs::Checks::is_named))]
fn is_named(w: Cost, block: usize, c: Cost) -> bool
    ensures { result ≡ is_named block c w }
{
    w.block == block && w.mark == 0 && w.loss == c.loss && w.cuts == c.cuts
}

// Whether the verdict, its block and its loss are as the sections imply; `cuts` has how many endpoints the block of each section cuts.
#[tactic(auto, unfolding(evidence::specs::Checks::verdict_right, evidence::specs::Checks::head_states))]
pub fn verdict_right(ev: &[u8], h: Header, cuts: &[u8]) -> bool
    requires { Limited h × (length cuts.now ≤ 255) }
    ensures { result ≡ verdict_right ev.now (stated h.edition h.slots ev.now cuts.now) }
{
    let sections = Sections { ev, h, cuts };
    let head = evidence::head_of(ev);
    match sections.implied() {
        None => head.verdict == 0 && head.loss == 0 && head.block == 0,
        Some(c) => { head.verdict == 1 && head.loss == c.loss && sections.any_named(head.block, c) }
    }
}

// The place of the first section that is of block b, or their number where none is.
// Kept: a number in both cases, as in the definition, by which the part of a section that is there is told.
pub fn section_named(ev: &[u8], h: Header, count: usize, b: usize) -> usize
    requires { Limited h × (count ≤ 255) }
    ensures { result ≡ section_named h.edition h.slots ev.now count b }
{
    (0..count)
        .position(|i| evidence::section_of(ev, h, i).block == b)
        .unwrap_or(count)
}
