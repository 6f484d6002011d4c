// Choosing a block, with evidence in a lent buffer.
#![tactic(auto)]

ghost use Rattle.std.specs.Prelude.{◌≡◌, List, [], ◌∷◌, ◌++◌, ℕ, ◌*◌, ◌≤◌, length, drop};
ghost use Rattle.lists.specs.Lists.{outcome};
ghost use Rattle.packing.specs.Holding.{Put};
ghost use Rattle.rows.specs.Rows.{slots_max, words_for, Narrow};
ghost use Rattle.picture.specs.Picture.{picture_of};
ghost use Rattle.network.specs.Rows.{blocks_marked};
ghost use Rattle.evidence.specs.Canonical.{verdict_of, chosen_block, chosen_loss, head_fields, forest_fields, evidence_of};
ghost use Rattle.evidence.specs.Calls.{length_for, choose_fault, chosen_bytes};
ghost use Rattle.choose.specs.Answers.{choosing, choosing_numbers};
ghost use Rattle.choose.specs.Writing.{nodes_in, array_section, ForestFits, SectionFits, HeadFits};
ghost use Rattle.choose.specs.Sections.{Planned, WeighRows, LostNow, SectionReady, SectionDone, SectionsReady, Sectioned, EvidenceReady};

use evidence::{
    BLOCK_AT, BLOCK_BITS, BYTE_BITS, COUNT_AT, COUNT_BITS, EDITION_BITS, HEAD_BYTES, LOSS_AT,
    MARK_BITS, SECTION_HEAD_BYTES, SECTION_LOSS_AT, SECTION_MARK_AT, SERVED_AT, SUM_BITS,
    VERDICT_AT, VERDICT_BITS,
};
use graph::Forest;
use network::{Cost, SlotRows, Tables};
use picture::{Edition, Header, LOCATION_BITS, Picture, Refusal, WIDE_LOCATION_BITS};
use rows::{Row, WORDS};
use weigh::Lost;

// What is known of an accepted picture before its evidence is written: the rows of its held and of its held near slots, the number of its
// candidates, and the evidence's length.
#[derive(Clone, Copy)]
pub struct Plan {
    pub slots: SlotRows,
    pub count: usize,
    pub length: usize,
}

// Kept: here and below a buffer, a place and a header go beside each other: each section has a place of its own.
// Parent and depth of each slot from byte `at` on, W bits each, which take whole bytes together. W is a constant, so that the loop is compiled
// for each edition by itself: that of edition 1 writes several nodes at a time.
fn put_nodes<const W: usize>(buf: &mut [u8], at: usize, h: Header, forest: &Forest)
    requires fits { ForestFits h at forest.now buf.old }
    requires width { h.edition.location_bits ≡ W }
    ensures { Put buf.old (at * 8) (forest_fields h.edition (nodes_in forest.now h.slots)) buf.new }
{
    let size = (W + W) / BYTE_BITS;
    for v in 0..h.slots {
        let above = usize::from(forest.parent[v + 1]) << W;
        let node = above | usize::from(forest.depth[v + 1]);
        bits::put_bytes(buf, at + v * size, size, node);
    }
}

// Parent and depth of each slot from byte `at` on, by the edition's width.
fn put_forest(buf: &mut [u8], at: usize, h: Header, forest: &Forest)
    requires { ForestFits h at forest.now buf.old }
    ensures { Put buf.old (at * 8) (forest_fields h.edition (nodes_in forest.now h.slots)) buf.new }
{
    if h.edition.location_bits == LOCATION_BITS {
        put_nodes::<LOCATION_BITS>(buf, at, h, forest);
    } else {
        put_nodes::<WIDE_LOCATION_BITS>(buf, at, h, forest);
    }
}

// The number of candidates among so many blocks.
fn count_candidates(size: usize, blocks: usize, near: Row) -> usize
    requires { blocks * size ≤ slots_max }
    ensures { result ≡ length (blocks_marked near size blocks) }
{
    (0..blocks)
        .filter(|b| network::is_candidate(&near, size, *b))
        .count()
}

// What is known before the evidence of an accepted picture is written.
pub fn make_plan(p: &Picture) -> Plan
    ensures { Planned p.now result.slots result.count result.length }
{
    let h = p.header();
    let n = h.slots;
    let size = h.block_size;
    let slots = network::slot_rows(p);
    let count = count_candidates(size, n / size, slots.near);
    let length = evidence::evidence_bytes(h, count);
    Plan {
        slots,
        count,
        length,
    }
}

// A section from byte `at` on: block, loss and mark, then the forest.
fn put_section(buf: &mut [u8], at: usize, h: Header, w: Cost, forest: &Forest)
    requires { SectionFits h at w forest.now buf.old }
    ensures { Put buf.old (at * 8) (array_section h.edition w forest.now h.slots) buf.new }
{
    let q = at * BYTE_BITS;
    bits::put_field(buf, q, BLOCK_BITS, w.block);
    bits::put_field(buf, q + SECTION_LOSS_AT, SUM_BITS, w.loss);
    bits::put_field(buf, q + SECTION_MARK_AT, MARK_BITS, w.mark);
    put_forest(buf, at + SECTION_HEAD_BYTES, h, forest);
}

// What the candidates of an accepted picture are weighed by: its tables, its held and its held near slots, and what is reached now.
#[derive(Drop)]
struct Weighing<'a> {
    tables: &'a Tables,
    slots: &'a SlotRows,
    reached: &'a Row,
}

impl Weighing<'_> {
    // What is served now and is not where no more is reached than the row says.
    fn lost(&self, h: Header, still: Row) -> Lost
        requires rows { (bs : List ℕ) × WeighRows bs h self.now }
        requires narrow { Narrow (words_for h.slots) still }
        ensures { LostNow h self.now still result }
    {
        let words = rows::words_for(h.slots);
        weigh::lost_between(
            &self.tables.services,
            &self.tables.weights,
            self.tables.protected,
            h.endpoints,
            *self.reached,
            still,
            words,
        )
    }
}

// The section of candidate b from byte `at` on, and what giving it up costs.
fn add_section(buf: &mut [u8], at: usize, b: usize, h: Header, weighing: &Weighing) -> Cost
    requires { SectionReady h weighing.now b at buf.old }
    ensures { (bs : List ℕ) → WeighRows bs h weighing.now → SectionDone h.edition (picture_of bs) b at buf.old buf.new result }
{
    let block = network::block_range(h.block_size, b);
    let forest = graph::walk_without(weighing.tables.links, weighing.slots.held, h.slots, block);
    let lost = weighing.lost(h, forest.reached);
    let w = Cost {
        block: b,
        // Kept: usize has no From<u32>, and `try_from` with `unwrap` says no more.
        loss: lost.weight as usize,
        cuts: usize::from(lost.count),
        mark: usize::from(lost.mark),
    };
    put_section(buf, at, h, w, &forest);
    w
}

// The sections of the candidates in rising order from byte `at` on, and the choice among them.
fn put_sections(buf: &mut [u8], at: usize, h: Header, weighing: &Weighing) -> Option<Cost>
    requires { SectionsReady h weighing.now at buf.old }
    ensures { (bs : List ℕ) → WeighRows bs h weighing.now → Sectioned h.edition (picture_of bs) at buf.old buf.new result }
{
    let size = h.block_size;
    let blocks = h.slots / size;
    let mut best = None;
    // Kept: the place goes on by hand, since blocks that are no candidates have no section.
    let mut q = at;
    for b in 0..blocks {
        if network::is_candidate(&weighing.slots.near, size, b) {
            let w = add_section(buf, q, b, h, weighing);
            best = evidence::better(best, w);
            q += evidence::section_bytes(h);
        }
    }
    best
}

// What the head states of a choice: verdict 1 with its block and loss, or "none", which is verdict 0 with block 0 and loss 0.
fn verdict_of(c: Option<Cost>) -> usize
    ensures { result ≡ verdict_of c }
{
    usize::from(c.is_some())
}

fn chosen_block(c: Option<Cost>) -> usize
    ensures { result ≡ chosen_block c }
{
    c.map_or(0, |w| w.block)
}

fn chosen_loss(c: Option<Cost>) -> usize
    ensures { result ≡ chosen_loss c }
{
    c.map_or(0, |w| w.loss)
}

// The head of the evidence.
#[tactic(auto, using(evidence::proofs::Places::head_whole))]
fn put_head(buf: &mut [u8], e: Edition, c: Option<Cost>, count: usize, served: usize)
    requires { HeadFits e c count served buf.old }
    ensures { Put buf.old 0 (head_fields e c count served) buf.new }
{
    bits::put_field(buf, 0, EDITION_BITS, e.number);
    bits::put_field(buf, VERDICT_AT, VERDICT_BITS, verdict_of(c));
    bits::put_field(buf, BLOCK_AT, BLOCK_BITS, chosen_block(c));
    bits::put_field(buf, COUNT_AT, COUNT_BITS, count);
    bits::put_field(buf, SERVED_AT, SUM_BITS, served);
    bits::put_field(buf, LOSS_AT, SUM_BITS, chosen_loss(c));
}

// The evidence of an accepted picture, over the front of a buffer that is long enough.
pub fn write_evidence(p: &Picture, plan: Plan, buf: &mut [u8])
    requires { EvidenceReady p.now plan.slots plan.count plan.length buf.old }
    ensures { buf.new ≡ evidence_of p.now ++ drop (length_for p.now) buf.old }
{
    let h = p.header();
    let mut tables = Tables::empty();
    tables.fill(p);
    let forest = graph::walk(tables.links, plan.slots.held, h.slots);
    let none = [0u64; WORDS];
    let weighing = Weighing {
        tables: &tables,
        slots: &plan.slots,
        reached: &forest.reached,
    };
    let all = weighing.lost(h, none);
    put_forest(buf, HEAD_BYTES, h, &forest);
    let at = evidence::section_at(h, 0) / BYTE_BITS;
    let c = put_sections(buf, at, h, &weighing);
    // Kept: usize has no From<u32>, and `try_from` with `unwrap` says no more.
    let served = all.weight as usize;
    put_head(buf, h.edition, c, plan.count, served);
}

// Chooses a block of a picture of any bytes and writes the evidence into the buffer: its length.
pub fn choose(s: &[u8], buf: &mut [u8]) -> Result<usize, Refusal>
    ensures answer { result ≡ choosing s.now buf.old }
    ensures numbers { choosing_numbers result ≡ outcome (choose_fault s.now buf.old) (length_for s.now ∷ []) }
    ensures bytes { buf.new ≡ chosen_bytes s.now buf.old }
{
    let p = Picture::read(s)?;
    let plan = make_plan(&p);
    if buf.len() < plan.length {
        return Err(Refusal::Buffer);
    }
    write_evidence(&p, plan, buf);
    Ok(plan.length)
}
