// Evidence for a choice: its layout as the numbers that the code uses, what it says at each place, and the order of choice.
// `specs/Layout.antt` has the widths that the contracts cite.
#![tactic(auto)]

ghost use Rattle.std.specs.Prelude.{◌≡◌, ◌≤◌};
ghost use Rattle.lists.specs.Lists.{sum};
ghost use Rattle.picture.specs.Inner.{Known, Limited};
ghost use Rattle.evidence.specs.Layout.{node_widths, forest_bits, section_bits, section_bytes, section_at, forest_at, evidence_bytes};
ghost use Rattle.evidence.specs.Canonical.{is_less, bettered};
ghost use Rattle.evidence.specs.Choices.{bettered_numbers};
ghost use Rattle.evidence.specs.Contents.{head_in, section_in};

use network::Cost;
use picture::{BLOCKS_MAX, Edition, Header, WIDE_LOCATION_BITS};

// Widths in bits, in the order of the fields.
pub const EDITION_BITS: usize = 4;

pub const VERDICT_BITS: usize = 4;

pub const BLOCK_BITS: usize = 8;

pub const COUNT_BITS: usize = 8;

// Served weight and loss.
pub const SUM_BITS: usize = 24;

pub const MARK_BITS: usize = 8;

// Where the fields of the head start, and its end.
pub const VERDICT_AT: usize = EDITION_BITS;

pub const BLOCK_AT: usize = VERDICT_AT + VERDICT_BITS;

pub const COUNT_AT: usize = BLOCK_AT + BLOCK_BITS;

pub const SERVED_AT: usize = COUNT_AT + COUNT_BITS;

pub const LOSS_AT: usize = SERVED_AT + SUM_BITS;

pub const HEAD_BITS: usize = LOSS_AT + SUM_BITS;

// The same of a section: what it has before its forest is its head.
pub const SECTION_LOSS_AT: usize = BLOCK_BITS;

pub const SECTION_MARK_AT: usize = SECTION_LOSS_AT + SUM_BITS;

pub const SECTION_HEAD_BITS: usize = SECTION_MARK_AT + MARK_BITS;

// The same in bytes.
pub const BYTE_BITS: usize = 8;

pub const HEAD_BYTES: usize = HEAD_BITS / BYTE_BITS;

pub const SECTION_HEAD_BYTES: usize = SECTION_HEAD_BITS / BYTE_BITS;

// The longest evidence, in bytes: 55,209. In edition 2 it has sixty blocks of five slots, and with more slots there are fewer blocks.
const LONGEST_FOREST: usize = BLOCKS_MAX * 5 * (2 * WIDE_LOCATION_BITS) / BYTE_BITS;

pub const EVIDENCE_MAX: usize = HEAD_BYTES
    + LONGEST_FOREST
    + BLOCKS_MAX * (SECTION_HEAD_BYTES + LONGEST_FOREST);

// What the head says.
// Kept: the verdict is a number as it is read, since evidence from anywhere may have one over 1, and the check names that fault.
#[derive(Clone, Copy)]
pub struct Head {
    pub edition: usize,
    pub verdict: usize,
    pub block: usize,
    pub count: usize,
    pub served: usize,
    pub loss: usize,
}

// What a section states before its forest.
// Kept: the mark is a number as it is read, since evidence from anywhere may have one over 1, and the check names that fault.
#[derive(Clone, Copy)]
pub struct Stated {
    pub block: usize,
    pub loss: usize,
    pub mark: usize,
}

// A choice by numbers: verdict 1 with a block, its loss and how many endpoints it cuts, or all 0. Choose and the check have an `Option<Cost>`.
#[derive(Clone, Copy)]
pub struct Choice {
    pub verdict: usize,
    pub block: usize,
    pub loss: usize,
    pub cuts: usize,
}

// A part of the evidence, in bytes.
#[derive(Clone, Copy)]
pub struct Part {
    pub start: usize,
    pub size: usize,
}

// The bits of a node of a forest.
#[tactic(auto, unfolding(crate::specs::Layout::node_widths, lists::specs::Lists::sum))]
pub fn node_bits(e: Edition) -> usize
    requires { Known e }
    ensures { result ≡ sum (node_widths e) }
{
    e.location_bits + e.location_bits
}

// The bits of a forest.
#[tactic(auto, using(crate::proofs::Places::places), unfolding(crate::specs::Layout::forest_bits))]
pub fn forest_bits(h: Header) -> usize
    requires { Limited h }
    ensures { result ≡ forest_bits h.edition h.slots }
{
    h.slots * node_bits(h.edition)
}

// The bits of a section.
#[tactic(auto, using(crate::proofs::Places::places), unfolding(crate::specs::Layout::section_bits))]
pub fn section_bits(h: Header) -> usize
    requires { Limited h }
    ensures { result ≡ section_bits h.edition h.slots }
{
    SECTION_HEAD_BITS + forest_bits(h)
}

// The same in bytes: a section has whole ones.
#[tactic(auto, unfolding(crate::specs::Layout::section_bytes))]
pub fn section_bytes(h: Header) -> usize
    requires { Limited h }
    ensures { result ≡ section_bytes h.edition h.slots }
{
    section_bits(h) / BYTE_BITS
}

// Where section i starts, in bits.
#[tactic(auto, using(crate::proofs::Places::places), unfolding(crate::specs::Layout::section_at))]
pub fn section_at(h: Header, i: usize) -> usize
    requires { Limited h × (i ≤ 255) }
    ensures { result ≡ section_at h.edition h.slots i }
{
    HEAD_BITS + forest_bits(h) + i * section_bits(h)
}

// Where forest k starts, in bits: forest 0 is the first one, and forest i + 1 that of section i.
#[tactic(auto, using(crate::proofs::Places::places))]
pub fn forest_at(h: Header, k: usize) -> usize
    requires { Limited h × (k ≤ 255) }
    ensures { result ≡ forest_at h.edition h.slots k }
{
    HEAD_BITS + k * section_bits(h)
}

// The length of evidence in bytes, for so many candidates.
#[tactic(auto, unfolding(crate::specs::Layout::evidence_bytes))]
pub fn evidence_bytes(h: Header, count: usize) -> usize
    requires { Limited h × (count ≤ 255) }
    ensures { result ≡ evidence_bytes h.edition h.slots count }
{
    section_at(h, count) / BYTE_BITS
}

// The head of evidence.
pub fn head_of(ev: &[u8]) -> Head
    ensures { result ≡ head_in ev.now }
{
    Head {
        edition: bits::field(ev, 0, EDITION_BITS),
        verdict: bits::field(ev, VERDICT_AT, VERDICT_BITS),
        block: bits::field(ev, BLOCK_AT, BLOCK_BITS),
        count: bits::field(ev, COUNT_AT, COUNT_BITS),
        served: bits::field(ev, SERVED_AT, SUM_BITS),
        loss: bits::field(ev, LOSS_AT, SUM_BITS),
    }
}

// What section i of evidence under a header states.
// Kept: evidence, header and the number of a section go beside each other, here and in the check: the definitions (`section_in`) take all of them,
// and a struct would be taken apart in each clause.
#[tactic(auto, using(crate::proofs::Places::places))]
pub fn section_of(ev: &[u8], h: Header, i: usize) -> Stated
    requires { Limited h × (i ≤ 255) }
    ensures { result ≡ section_in h.edition h.slots ev.now i }
{
    let at = section_at(h, i);
    Stated {
        block: bits::field(ev, at, BLOCK_BITS),
        loss: bits::field(ev, at + SECTION_LOSS_AT, SUM_BITS),
        mark: bits::field(ev, at + SECTION_MARK_AT, MARK_BITS),
    }
}

// Whether a candidate comes before another: it loses less or, where it loses as much, it cuts fewer endpoints.
#[tactic(auto, unfolding(crate::specs::Canonical::is_less))]
fn is_less(w: Cost, c: Cost) -> bool
    ensures { result ≡ is_less w c }
{
    (w.loss, w.cuts) < (c.loss, c.cuts)
}

// The choice with one candidate more: it is taken where it cuts no protected endpoint, and none was chosen before or it comes before that one.
#[tactic(auto, unfolding(crate::specs::Canonical::bettered))]
pub fn better(best: Option<Cost>, w: Cost) -> Option<Cost>
    ensures { result ≡ bettered best w }
{
    match best {
        _ if w.mark != 0 => best,
        Some(c) if !is_less(w, c) => best,
        _ => Some(w),
    }
}

// The same of a choice by numbers, whatever these are: any verdict but 0 names a block.
#[tactic(auto, unfolding(crate::specs::Choices::bettered_numbers))]
pub fn better_by_numbers(c: Choice, w: Cost) -> Choice
    ensures { result ≡ bettered_numbers c w }
{
    let chosen = Cost {
        block: c.block,
        loss: c.loss,
        cuts: c.cuts,
        mark: 0,
    };
    if w.mark == 0 && (c.verdict == 0 || is_less(w, chosen)) {
        return Choice {
            verdict: 1,
            block: w.block,
            loss: w.loss,
            cuts: w.cuts,
        };
    }
    c
}
