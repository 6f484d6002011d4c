// Weighing a block: the served weight, the weight that is lost without the block, and whether a protected endpoint is cut.
#![tactic(auto)]

ghost use Rattle.std.specs.Prelude.{◌≡◌, ◌≤◌, ◌<◌};
ghost use Rattle.lists.specs.Lists.{outcome};
ghost use Rattle.rows.specs.Rows.{Narrow};
ghost use Rattle.picture.specs.Picture.{picture_of};
ghost use Rattle.picture.specs.Layout.{endpoints_max};
ghost use Rattle.network.specs.Words.{block_count};
ghost use Rattle.weigh.specs.Sums.{Small, LostRow, LostBetween};
ghost use Rattle.weigh.specs.Weighing.{weigh_fault, weights_of, weighing, weight_values, weighing_numbers};

use network::{ENDPOINTS, Tables};
use picture::{Picture, Refusal};
use rows::{Row, WORDS};

// What weighing gives.
#[derive(Clone, Copy)]
pub struct Weights {
    pub served: u32,
    pub loss: u32,
    // Kept: a number, 1 or 0, as evidence has it and as the definitions weigh it.
    pub mark: u8,
}

// The weight of some endpoints, how many they are, and 1 if one of them is protected, else 0.
#[derive(Clone, Copy)]
pub struct Lost {
    pub weight: u32,
    pub count: u8,
    // Kept: a number, as the mark of `Weights`, which takes it over.
    pub mark: u8,
}

// Whether an endpoint is lost, which the locations of the row serve: none of `after` does, and one of `before` did. Most endpoints are served
// after as before, so the first look is the only one.
fn is_lost(row: &Row, before: &Row, after: &Row, words: usize) -> bool
    requires { Narrow words before.now × Narrow words after.now }
    ensures { LostRow row.now before.now after.now result }
{
    !rows::meet(row, after, words) && rows::meet(row, before, words)
}

// The endpoints that the locations of `before` serve and those of `after` do not.
// Kept: the tables one by one and not as `Tables`: from one address the loop takes 14 of 100 instructions more, and choose 2.5.
pub fn lost_between(
    services: &[Row; ENDPOINTS],
    weights: &[u32; ENDPOINTS],
    protected: Row,
    d: usize,
    before: Row,
    after: Row,
    words: usize,
) -> Lost
    requires { Small weights.now × (d ≤ endpoints_max) × Narrow words before × Narrow words after }
    ensures { LostBetween services.now weights.now protected d before after result }
{
    let mut weight: u32 = 0;
    let mut count: u8 = 0;
    let mut mark: u8 = 0;
    // Down to the first: so the loop has one count to keep. All that a lost endpoint adds stands under one test, since most are not lost, and the
    // loop over these then keeps its registers.
    for c in (1..=d).rev() {
        if is_lost(&services[c], &before, &after, words) {
            weight += weights[c];
            count += 1;
            if rows::has(&protected, c) {
                mark = 1;
            }
        }
    }
    Lost {
        weight,
        count,
        mark,
    }
}

// Weighs a block of an accepted picture.
fn weigh_block(p: &Picture, b: usize) -> Weights
    requires { b < block_count (picture_of p.now) }
    ensures { result ≡ weights_of (picture_of p.now) b }
{
    let h = p.header();
    let n = h.slots;
    let size = h.block_size;
    let d = h.endpoints;
    let words = rows::words_for(n);
    let mut tables = Tables::empty();
    tables.fill(p);
    let slots = network::slot_rows(p);
    let held = slots.held;
    let before = graph::walk(tables.links, held, n);
    let after = graph::walk_without(tables.links, held, n, network::block_range(size, b));
    let reached = before.reached;
    let still = after.reached;
    let none = [0u64; WORDS];
    let services = &tables.services;
    let weights = &tables.weights;
    let protected = tables.protected;
    let all = lost_between(services, weights, protected, d, reached, none, words);
    let lost = lost_between(services, weights, protected, d, reached, still, words);
    Weights {
        served: all.weight,
        loss: lost.weight,
        mark: lost.mark,
    }
}

// Weighs block b of a picture of any bytes.
pub fn weigh(s: &[u8], b: u32) -> Result<Weights, Refusal>
    ensures answer { result ≡ weighing s.now b }
    ensures numbers { weighing_numbers result ≡ outcome (weigh_fault s.now b) (weight_values (weights_of (picture_of s.now) b)) }
{
    let p = Picture::read(s)?;
    let h = p.header();
    // Kept: usize has no From<u32>.
    if h.slots / h.block_size <= b as usize {
        return Err(Refusal::NoBlock);
    }
    Ok(weigh_block(&p, b as usize))
}
