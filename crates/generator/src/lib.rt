// Pictures filled by draws from a seed, in a lent buffer: the same picture on every machine.
#![tactic(auto)]

ghost use Rattle.std.specs.Prelude.{◌≡◌, ◌≤◌, ◌++◌, drop};
ghost use Rattle.lists.specs.Lists.{first};
ghost use Rattle.picture.specs.Refusals.{fault_of};
ghost use Rattle.picture.specs.Layout.{size_of};
ghost use Rattle.draws.specs.Draws.{draw_of};
ghost use Rattle.generator.specs.Generated.{asked_header};
ghost use Rattle.generator.specs.Faults.{asked_faults};
ghost use Rattle.generator.specs.Answers.{generated_picture, Generates};
ghost use Rattle.generator.specs.Inner.{taken, Roomy, RowFits, RowsFit, RowDrawn, RowsDrawn, Ready};

use picture::{ENDPOINT_BITS, Header, LOCATION_BITS, NEAR_BITS, Refusal, STATE_BITS, WEIGHT_BITS};
use write::tail::Tail;

// The only edition that is generated.
const EDITION: usize = 1;

// A field that takes a draw: as many values as this, from the least on.
#[derive(Clone, Copy)]
pub struct DrawnField {
    pub bits: usize,
    pub values: u64,
    pub least: usize,
}

// The fields that take the same draws in every picture: near and protected, a slot's state, and a weight.
const FLAG: DrawnField = DrawnField {
    bits: NEAR_BITS,
    values: 2,
    least: 0,
};

const STATE: DrawnField = DrawnField {
    bits: STATE_BITS,
    values: 3,
    least: 0,
};

const WEIGHT: DrawnField = DrawnField {
    bits: WEIGHT_BITS,
    values: 65536,
    least: 0,
};

// How far a picture is filled, and the state of the draws.
#[derive(Clone, Copy)]
pub struct Progress {
    pub tail: Tail,
    pub state: u64,
}

// What a field takes of the draw of a state.
#[tactic(auto, unfolding(crate::specs::Inner::taken))]
fn take(f: DrawnField, state: u64) -> usize
    requires { Roomy f × (f.bits ≤ 32) }
    ensures { result ≡ taken f (draw_of state) }
{
    // Kept: usize has no From<u64>, nor u64 one of usize, here and below.
    (draws::draw_of(state) % f.values) as usize + f.least
}

// A row of two fields behind what is written, filled by the next two draws.
fn push_row(buf: &mut [u8], from: Progress, first: DrawnField, second: DrawnField) -> Progress
    requires { RowFits from first second buf.old }
    ensures { RowDrawn from first second buf.old buf.new result }
{
    let one = draws::next_state(from.state);
    let two = draws::next_state(one);
    let x = take(first, one);
    let y = take(second, two);
    Progress {
        tail: from.tail.push_pair(buf, first.bits, second.bits, x, y),
        state: two,
    }
}

// Rows of two fields each behind what is written, filled by the next draws.
fn push_rows(
    buf: &mut [u8],
    from: Progress,
    first: DrawnField,
    second: DrawnField,
    count: usize,
) -> Progress
    requires { RowsFit from first second count buf.old }
    ensures { RowsDrawn from first second count buf.old buf.new result }
{
    let mut progress = from;
    for _ in 0..count {
        progress = push_row(buf, progress, first, second);
    }
    progress
}

// The picture that the draws of a seed fill, over the front of a buffer that is long enough, under a header without a fault.
fn put_generated(buf: &mut [u8], seed: u64, h: Header)
    requires { Ready h buf.old }
    ensures { buf.new ≡ generated_picture seed h ++ drop (size_of h) buf.old }
{
    let location = DrawnField {
        bits: LOCATION_BITS,
        values: h.slots as u64 + 1,
        least: 0,
    };
    let endpoint = DrawnField {
        bits: ENDPOINT_BITS,
        values: h.endpoints as u64,
        least: 1,
    };
    let header = Progress {
        tail: write::push_header(buf, h),
        state: seed,
    };
    let slots = push_rows(buf, header, STATE, FLAG, h.slots);
    let endpoints = push_rows(buf, slots, WEIGHT, FLAG, h.endpoints);
    let links = push_rows(buf, endpoints, location, location, h.links);
    let end = push_rows(buf, links, location, endpoint, h.service_links);
    end.tail.push_fill(buf);
}

// The header that is asked for has no fault.
#[tactic(auto, unfolding(crate::specs::Faults::asked_faults, lists::specs::Lists::on, lists::specs::Lists::first))]
fn judge(h: Header) -> Result<(), Refusal>
    ensures { fault_of result ≡ first (asked_faults h) }
{
    if !picture::sizes_right(h) {
        return Err(Refusal::Blocks);
    }
    if !picture::counts_right(h) {
        return Err(Refusal::Counts);
    }
    if h.endpoints == 0 && h.service_links != 0 {
        return Err(Refusal::Counts);
    }
    Ok(())
}

// Fills a picture of edition 1 with draws from a seed: its length. It has as many slots as the blocks have together, and all of them may be near.
pub fn generate(
    seed: u64,
    block_size: u32,
    blocks: u32,
    endpoints: u32,
    links: u32,
    service_links: u32,
    buf: &mut [u8],
) -> Result<usize, Refusal>
    ensures { Generates seed (asked_header block_size blocks endpoints links service_links) buf.old result buf.new }
{
    // Kept: usize has no From<u32>.
    let slots = block_size as usize * blocks as usize;
    let h = Header {
        edition: picture::edition_for(EDITION),
        block_size: block_size as usize,
        slots,
        near_limit: slots,
        endpoints: endpoints as usize,
        links: links as usize,
        service_links: service_links as usize,
    };
    judge(h)?;
    let size = picture::size_of(h);
    if buf.len() < size {
        return Err(Refusal::Buffer);
    }
    put_generated(buf, seed, h);
    Ok(size)
}
