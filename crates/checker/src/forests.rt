// Following the forests that evidence brings: part by part, slot by slot, and the links of each location in the forest.
ghost use Rattle.std.specs.Prelude.{◌≡◌, true, List, ℕ, ◌+◌, ◌-◌, ◌*◌, ◌≤◌, length};
ghost use Rattle.rows.specs.Rows.{marked, linked_in, Narrow, Meet, locations_max, row_words, slots_max};
ghost use Rattle.rows.specs.Ranges.{without};
ghost use Rattle.graph.specs.Held.{held_in};
ghost use Rattle.picture.specs.Layout.{edition_of};
ghost use Rattle.picture.specs.Refusals.{fault_of};
ghost use Rattle.picture.specs.Picture.{picture_of};
ghost use Rattle.picture.specs.Inner.{Limited};
ghost use Rattle.network.specs.Tests.{candidates};
ghost use Rattle.network.specs.Rows.{SlotRowsOf};
ghost use Rattle.evidence.specs.Contents.{section_in, forest_in};
ghost use Rattle.evidence.specs.Checks.{node_right, form_right};
ghost use Rattle.checker.specs.Forests.{Room, node_from, evicted_in, stated_test, parts_fault, CutsOf};

use evidence::BYTE_BITS;
use graph::Node;
use network::Tables;
use picture::{Header, Picture, Refusal};
use rows::{LOCATIONS, Range, Row, WORDS};
use weigh::Lost;

// Node v of the forest that starts at byte `at`: whole bytes, the parent before the depth.
fn node_at(ev: &[u8], h: Header, at: usize, v: usize) -> Node
    requires { Limited h × (1 ≤ v) × (v ≤ h.slots) × Room h ev.now at }
    ensures { result ≡ node_from h.edition ev.now (at * 8) v }
{
    let w = h.edition.location_bits;
    let size = evidence::node_bits(h.edition) / BYTE_BITS;
    let both = bits::bytes(ev, at + (v - 1) * size, size);
    Node {
        parent: both >> w,
        depth: both & ((1 << w) - 1),
    }
}

// Whether the node x of slot v keeps its rule in the forest that starts at byte `at`, where nothing is evicted.
#[tactic(auto, using(crate::proofs::Nodes::node_tests))]
fn node_right(
    links: &[Row; LOCATIONS],
    held: &Row,
    ev: &[u8],
    h: Header,
    at: usize,
    v: usize,
    x: Node,
) -> bool
    requires links_len { (length links.now ≡ locations_max) × (1 ≤ v) × (v ≤ h.slots) × Limited h × Room h ev.now at }
    requires x_value { x ≡ node_from h.edition ev.now (at * 8) v }
    ensures { result ≡ node_right (linked_in links.now) (held_in held.now) (forest_in h.edition h.slots ev.now (at * 8)) v }
{
    if x.depth == 0 {
        return x.parent == 0;
    }
    if !rows::has(held, v) || h.slots < x.parent || !rows::has(&links[x.parent], v) {
        return false;
    }
    if x.parent == 0 {
        return x.depth == 1;
    }
    let above = node_at(ev, h, at, x.parent).depth;
    above != 0 && above + 1 == x.depth
}

// The slots that are evicted in part k: those of a section's block.
#[tactic(auto, unfolding(crate::specs::Forests::evicted_in))]
fn evicted_in(ev: &[u8], h: Header, k: usize) -> Range
    requires { Limited h × (k ≤ 255)
        × (1 ≤ k → (section_in h.edition h.slots ev.now (k - 1)).block * h.block_size + h.block_size ≤ slots_max) }
    ensures { result ≡ evicted_in h.block_size (section_in h.edition h.slots ev.now (k - 1)).block k }
{
    if k == 0 {
        return rows::no_range();
    }
    network::block_range(h.block_size, evidence::section_of(ev, h, k - 1).block)
}

// Whether two rows have a mark in common that is not of an evicted slot.
#[tactic(auto, using(crate::proofs::Outside::apart_next, crate::proofs::Outside::apart_found))]
fn meet_unevicted(row: &Row, other: &Row, words: usize, evicted: Range) -> bool
    requires { (length other.now ≡ row_words) × Narrow words other.now }
    ensures { Meet (marked row.now) (without evicted (marked other.now)) result }
{
    for i in 0..words {
        if rows::leave_out(row[i] & other[i], i * 64, evicted) != 0 {
            return true;
        }
    }
    false
}

// The same for a location's row of links and what is held outside the forest. Most rows lead to nothing there, so the first look is the only
// one.
#[tactic(auto, using(crate::proofs::Outside::apart_all))]
fn leads_out(row: &Row, outside: &Row, words: usize, evicted: Range) -> bool
    requires { (length outside.now ≡ row_words) × Narrow words outside.now }
    ensures { Meet (marked row.now) (without evicted (marked outside.now)) result }
{
    rows::meet(row, outside, words) && meet_unevicted(row, outside, words, evicted)
}

// Whether part k states this weight and mark: the served weight, or the loss and the mark of a section.
#[tactic(auto, unfolding(crate::specs::Forests::stated_test))]
fn stated_right(ev: &[u8], h: Header, k: usize, lost: Lost) -> bool
    requires { Limited h × (k ≤ 255) }
    ensures { result ≡ stated_test h.edition h.slots ev.now k lost.weight lost.mark }
{
    // Kept: usize has no From<u32>.
    let weight = lost.weight as usize;
    let mark = usize::from(lost.mark);
    if k == 0 {
        return evidence::head_of(ev).served == weight;
    }
    let w = evidence::section_of(ev, h, k - 1);
    w.loss == weight && w.mark == mark
}

// The forests and the weights that are stated of them have no fault: part by part, slot by slot, and the links of each location in the
// forest. Part 0 is the first forest, and part i + 1 is section i. `cuts` has a byte for each section: without a fault, it then is how many
// endpoints the section's block cuts, by these forests.
// Kept: nested loops that a label leaves, the form that is asked for; one loop goes over the first forest and the sections, by their numbers.
pub fn judge_parts(p: &Picture, ev: &[u8], held: Row, cuts: &mut [u8]) -> Result<(), Refusal>
    requires read { ((near : List ℕ) × SlotRowsOf (picture_of p.now) held near) × (form_right (edition_of p.now) (picture_of p.now) ev.now ≡ true) }
    requires cuts_len { length cuts.old ≡ length (candidates (picture_of p.now)) }
    ensures value { fault_of result ≡ parts_fault p.now ev.now }
    ensures cuts_of { fault_of result ≡ 0 → CutsOf (picture_of p.now) cuts.new }
{
    let count = cuts.len();
    let mut tables = Tables::empty();
    tables.fill(p);
    let h = p.header();
    let n = h.slots;
    let d = h.endpoints;
    let words = rows::words_for(n);
    let none = [0u64; WORDS];
    let mut now = none;
    let mut fault = Ok(());
    'check: for k in 0..=count {
        let at = evidence::forest_at(h, k) / BYTE_BITS;
        let evicted = evicted_in(ev, h, k);
        let mut slots = none;
        // Kept: a `for` here takes three percent more instructions for a check of a full picture, since the loop then ends by another test.
        let mut v = 1;
        while v <= n {
            let x = node_at(ev, h, at, v);
            if !node_right(&tables.links, &held, ev, h, at, v, x) {
                fault = Err(Refusal::Forest);
                break 'check;
            }
            if x.depth != 0 {
                rows::add(&mut slots, v);
            }
            v += 1;
        }
        // The rules of the slots were judged as if nothing were evicted.
        if rows::marks_any(&slots, evicted) {
            fault = Err(Refusal::Forest);
            break 'check;
        }
        let mut inside = slots;
        rows::add(&mut inside, 0);
        let outside = rows::minus(held, inside, words);
        // Where only evicted slots are outside, no link that counts leads there, and none need be looked at.
        let first = if meet_unevicted(&outside, &outside, words, evicted) {
            0
        } else {
            n + 1
        };
        for a in first..=n {
            if rows::has(&inside, a) && leads_out(&tables.links[a], &outside, words, evicted) {
                fault = Err(Refusal::Forest);
                break 'check;
            }
        }
        let mut still = none;
        if k == 0 {
            now = inside;
        } else {
            still = inside;
        }
        let lost = weigh::lost_between(
            &tables.services,
            &tables.weights,
            tables.protected,
            d,
            now,
            still,
            words,
        );
        if !stated_right(ev, h, k, lost) {
            fault = Err(Refusal::Weight);
            break 'check;
        }
        if k != 0 {
            cuts[k - 1] = lost.count;
        }
    }
    fault
}
