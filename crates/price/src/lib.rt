// Pricing the blocks of a flat network, where every link starts at the origin: what each block would lose, by one pass over records of traffic.
#![tactic(auto)]

ghost use Rattle.std.specs.Prelude.{◌≡◌, ◌+◌, ◌*◌, ◌≤◌, length, get_or};
ghost use Rattle.lists.specs.Lists.{outcome};
ghost use Rattle.picture.specs.Layout.{endpoints_max};
ghost use Rattle.picture.specs.Picture.{picture_of};
ghost use Rattle.price.specs.Traffic.{no_record, record_bytes, records_max, records_of};
ghost use Rattle.price.specs.Faults.{price_fault};
ghost use Rattle.price.specs.Answers.{counters, pricing, pricing_numbers};
ghost use Rattle.price.specs.Inner.{SlotsReached, ReachedRow, joint, LocationsTell, EndpointsTell, Adding};

use network::ENDPOINTS;
use picture::{BLOCKS_MAX, Picture, Refusal};
use rows::{LOCATIONS, Row, WORDS};

// The bytes of a record: its endpoint in the first, its weight in two more, high byte first.
pub const RECORD_BYTES: usize = 3;

// So many records of the largest weight together have room in a counter.
pub const RECORDS_MAX: usize = 60_000;

// What service links tell of an endpoint: the number of the one block that feeds it; or that nothing does, or that no block is the one.
const NO_FEEDER: u8 = 254;

const NOT_ONE: u8 = 255;

// A traffic record.
#[derive(Clone, Copy)]
pub struct Record {
    pub endpoint: usize,
    pub weight: u32,
}

// Record i, counted from 0.
fn nth_record(records: &[u8], i: usize) -> Record
    requires { i * record_bytes + record_bytes ≤ length records.now }
    ensures { result ≡ get_or (records_of records.now) i no_record }
{
    let at = i * RECORD_BYTES;
    Record {
        endpoint: usize::from(records[at]),
        // Kept: two bytes are proved to fit, and `try_from` with `unwrap` says no more. So is a block's number, below.
        weight: bits::bytes(records, at + 1, 2) as u32,
    }
}

// The row of the slots that are reached: in a flat network these are the held ones with a link from the origin. A link from elsewhere is refused.
fn reached_slots(p: &Picture) -> Result<Row, Refusal>
    ensures { SlotsReached (picture_of p.now) result }
{
    let s = p.bytes();
    let h = p.header();
    let held = network::slot_rows(p).held;
    let mut reached = [0u64; WORDS];
    for i in 0..h.links {
        let l = picture::nth_link(s, h, h.edition.location_bits, i);
        if l.from != 0 {
            return Err(Refusal::LinkStart);
        }
        if rows::has(&held, l.to) {
            rows::add(&mut reached, l.to);
        }
    }
    Ok(reached)
}

// What a service link from each location tells of its endpoint: one from a reached slot its block, one from any other slot nothing, and one from
// the origin that no block is the one feeder.
fn location_feeders(p: &Picture, reached: &Row) -> [u8; LOCATIONS]
    requires { ReachedRow (picture_of p.now) reached.now }
    ensures { LocationsTell (picture_of p.now) result }
{
    let h = p.header();
    let mut feeders = [NO_FEEDER; LOCATIONS];
    // Down to the first, here and in the next loop: so each has one count to keep.
    for v in (1..=h.slots).rev() {
        if rows::has(reached, v) {
            feeders[v] = ((v - 1) / h.block_size) as u8;
        }
    }
    feeders[0] = NOT_ONE;
    feeders
}

// What two service links to one endpoint tell together.
#[tactic(auto, unfolding(crate::specs::Inner::joint))]
fn joint(one: u8, other: u8) -> u8
    ensures { result ≡ joint one other }
{
    if one == NO_FEEDER || one == other {
        return other;
    }
    if other == NO_FEEDER {
        return one;
    }
    NOT_ONE
}

// The one feeder of each endpoint: what all service links to it tell together.
fn endpoint_feeders(p: &Picture, locations: &[u8; LOCATIONS]) -> [u8; ENDPOINTS]
    requires { LocationsTell (picture_of p.now) locations.now }
    ensures { EndpointsTell (picture_of p.now) result }
{
    let s = p.bytes();
    let h = p.header();
    let mut feeders = [NO_FEEDER; ENDPOINTS];
    for i in (1..=h.service_links).rev() {
        let l = picture::nth_service_link(s, h, h.edition.location_bits, i - 1);
        feeders[l.to] = joint(locations[l.from], feeders[l.to]);
    }
    feeders
}

// The pass over the records: each adds its weight to the one feeder of its endpoint, if it has one.
fn add_up(records: &[u8], feeders: &[u8; ENDPOINTS], d: usize) -> Result<[u32; BLOCKS_MAX], Refusal>
    requires { (length records.now ≤ records_max * record_bytes) × (d ≤ endpoints_max) }
    ensures { Adding feeders.now d (records_of records.now) result }
{
    let mut counters = [0u32; BLOCKS_MAX];
    for i in 0..records.len() / RECORD_BYTES {
        let r = nth_record(records, i);
        if r.endpoint == 0 || d < r.endpoint {
            return Err(Refusal::RecordEndpoint);
        }
        let b = usize::from(feeders[r.endpoint]);
        if b < BLOCKS_MAX {
            counters[b] += r.weight;
        }
    }
    Ok(counters)
}

// Prices the blocks of a flat network: of each block, candidate or not, the weight that it loses where an endpoint weighs the sum of its records; 0
// past the last block. Picture and records may have any bytes.
pub fn price(s: &[u8], records: &[u8]) -> Result<[u32; BLOCKS_MAX], Refusal>
    ensures answer { result ≡ pricing s.now records.now }
    ensures numbers { pricing_numbers result ≡ outcome (price_fault s.now records.now) (counters (picture_of s.now) (records_of records.now)) }
{
    let p = Picture::read(s)?;
    let reached = reached_slots(&p)?;
    if records.len() % RECORD_BYTES != 0 || RECORDS_MAX * RECORD_BYTES < records.len() {
        return Err(Refusal::Records);
    }
    let locations = location_feeders(&p, &reached);
    let feeders = endpoint_feeders(&p, &locations);
    add_up(records, &feeders, p.header().endpoints)
}
