// A picture's network as rows of marks: links, service links, held and near slots; a block's numbers, and the endpoints' weights.
#![tactic(auto)]

ghost use Rattle.std.specs.Prelude.{◌≡◌, suc, ◌+◌, ◌*◌, ◌≤◌, replicate};
ghost use Rattle.rows.specs.Rows.{slots_max, locations_max};
ghost use Rattle.picture.specs.Layout.{endpoints_max};
ghost use Rattle.picture.specs.Picture.{header_of, picture_of};
ghost use Rattle.network.specs.Words.{joins, is_held};
ghost use Rattle.network.specs.Rows.{Clear, RowsOf, SlotRowsOf, block_range, block_marked, EndpointsOf, Empty, TablesOf};

use picture::{ENDPOINTS_MAX, Picture, State};
use rows::{LOCATIONS, Range, Row, WORDS};

// A place for each endpoint by its number, and for 0.
pub const ENDPOINTS: usize = ENDPOINTS_MAX + 1;

// The held slots, and those of them that are near.
#[derive(Clone, Copy)]
pub struct SlotRows {
    pub held: Row,
    pub near: Row,
}

// What a picture's blocks are weighed by: its links and service links, the weights of its endpoints, and the protected ones.
// Kept: what an endpoint weighs lies apart from what serves it: the sums take each table by itself, for the reason that they state.
#[derive(Drop)]
pub struct Tables {
    pub links: [Row; LOCATIONS],
    pub services: [Row; ENDPOINTS],
    pub weights: [u32; ENDPOINTS],
    pub protected: Row,
}

// What giving up a block costs: the weight that is lost, how many endpoints are cut, and the mark (1 if a protected one is, else 0).
#[derive(Clone, Copy)]
pub struct Cost {
    pub block: usize,
    pub loss: usize,
    pub cuts: usize,
    // Kept: a number, 1 or 0, as evidence has it and as the definitions weigh it.
    pub mark: usize,
}

// Marks the links in a clear table: row a marks b where a link leads from a to b.
// Kept: this loop and the next are alike but for the list and the end that has the row; one over both would take a closure for each.
pub fn link_rows(p: &Picture, table: &mut [Row; LOCATIONS])
    requires { Clear locations_max table.old }
    ensures { RowsOf locations_max (joins (picture_of p.now).links) table.new }
{
    let s = p.bytes();
    let h = p.header();
    for i in 0..h.links {
        let l = picture::nth_link(s, h, h.edition.location_bits, i);
        rows::mark(table, l.from, l.to);
    }
}

// Marks the service links in a clear table: row c marks each location that serves endpoint c.
pub fn service_link_rows(p: &Picture, table: &mut [Row; ENDPOINTS])
    requires { Clear (suc endpoints_max) table.old }
    ensures { RowsOf (suc endpoints_max) (λ c a. joins (picture_of p.now).service_links a c) table.new }
{
    let s = p.bytes();
    let h = p.header();
    for i in 0..h.service_links {
        let l = picture::nth_service_link(s, h, h.edition.location_bits, i);
        rows::mark(table, l.to, l.from);
    }
}

// Whether slot v is held.
fn is_held(p: &Picture, v: usize) -> bool
    requires { (1 ≤ v) × (v ≤ (header_of p.now).slots) }
    ensures { result ≡ is_held (picture_of p.now) v }
{
    p.slot_state(v) == State::Held
}

// The held slots and the held near slots.
pub fn slot_rows(p: &Picture) -> SlotRows
    ensures { SlotRowsOf (picture_of p.now) result.held result.near }
{
    let n = p.header().slots;
    let mut held = [0u64; WORDS];
    let mut near = [0u64; WORDS];
    // Down to the first: so the loop has one count to keep.
    for v in (1..=n).rev() {
        if is_held(p, v) {
            rows::add(&mut held, v);
            if p.is_near(v) {
                rows::add(&mut near, v);
            }
        }
    }
    SlotRows { held, near }
}

// The slots of block b.
pub fn block_range(size: usize, b: usize) -> Range
    requires { b * size + size ≤ slots_max }
    ensures { result ≡ block_range size b }
{
    let start = b * size;
    Range {
        after: start,
        last: start + size,
    }
}

// Whether block b has a held near slot, by the row of these.
pub fn is_candidate(near: &Row, size: usize, b: usize) -> bool
    requires { b * size + size ≤ slots_max }
    ensures { result ≡ block_marked near.now size b }
{
    rows::marks_any(near, block_range(size, b))
}

// Writes the endpoints' weights into an array of zeros, and gives the row of the protected ones.
pub fn endpoint_rows(p: &Picture, weights: &mut [u32; ENDPOINTS]) -> Row
    requires { weights.old ≡ replicate (suc endpoints_max) 0 }
    ensures { EndpointsOf (picture_of p.now) weights.new result }
{
    let mut protected = [0u64; WORDS];
    // Down to the first, as the slots.
    for c in (1..=p.header().endpoints).rev() {
        let weight = p.endpoint_weight(c);
        let guarded = p.is_protected(c);
        // Kept: `weight` is proved to fit, and `try_from` with `unwrap` says no more.
        weights[c] = weight as u32;
        if guarded {
            rows::add(&mut protected, c);
        }
    }
    protected
}

impl Tables {
    // Tables of nothing, to be filled where they lie: they are too large to be handed on.
    pub fn empty() -> Self
        ensures { Empty result }
    {
        Tables {
            links: [[0; WORDS]; LOCATIONS],
            services: [[0; WORDS]; ENDPOINTS],
            weights: [0; ENDPOINTS],
            protected: [0; WORDS],
        }
    }

    // Empty tables become a picture's.
    pub fn fill(&mut self, p: &Picture)
        requires { Empty self.old }
        ensures { TablesOf (picture_of p.now) self.new }
    {
        link_rows(p, &mut self.links);
        service_link_rows(p, &mut self.services);
        self.protected = endpoint_rows(p, &mut self.weights);
    }
}
