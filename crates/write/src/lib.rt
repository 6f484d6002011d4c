// Writing a picture from lists, in a lent buffer.
#![tactic(auto)]

ghost use Rattle.std.specs.Prelude.{◌≡◌, ℕ, ◌<◌, length, get_or};
ghost use mathlib.Core.List.{[], ◌∷◌, map, zip_with};
ghost use Rattle.lists.specs.Lists.{first, flat};
ghost use Rattle.picture.specs.Inner.{Known};
ghost use Rattle.picture.specs.declared.Link.{Link};
ghost use Rattle.picture.specs.Refusals.{fault_of};
ghost use Rattle.picture.specs.Faults.{state_fault, link_fault, service_link_fault};
ghost use Rattle.write.specs.Columns.{handed, slot_from, endpoint_from, link_from};
ghost use Rattle.write.specs.Fields.{header_fields, slot_fields, endpoint_fields, link_fields};
ghost use Rattle.write.specs.Faults.{handed_faults};
ghost use Rattle.write.specs.Answers.{Writes};
ghost use Rattle.write.specs.Inner.{columns_header, under, SlotsFit, EndpointsFit, LinksFit, HeaderFits, Ready, Written};
ghost use Rattle.write.specs.Tails.{start, Follows};

pub mod tail;

use picture::{
    BLOCK_SIZE_BITS, EDITION_BITS, ENDPOINT_BITS, ENDPOINTS_BITS, Header, LINKS_BITS,
    LOCATION_BITS, Link, NEAR_BITS, PROTECTED_BITS, Refusal, STATE_BITS, State, WEIGHT_BITS,
};
use tail::Tail;

// The lists that are handed over, column by column.
// Kept: columns and not rows, since C hands an array for each.
#[derive(Clone, Copy)]
struct Columns<'a> {
    states: &'a [u8],
    is_near: &'a [bool],
    weights: &'a [u16],
    is_protected: &'a [bool],
    links: &'a [[u16; 2]],
    service_links: &'a [[u16; 2]],
}

// The link of a pair. By reference: of a pair by value both ends are read as one word and taken apart, and the loop over pairs takes three
// instructions a pair more.
// Kept: no From, since a `Link` is picture's, which knows of no pairs.
#[tactic(auto, unfolding(crate::specs::Columns::link_from))]
fn link_from(pair: &[u16; 2]) -> Link
    ensures { result ≡ link_from pair.now }
{
    Link {
        from: usize::from(pair[0]),
        to: usize::from(pair[1]),
    }
}

// Each state is one of the three.
fn judge_states(states: &[u8]) -> Result<(), Refusal>
    ensures { fault_of result ≡ first (map state_fault states.now) }
{
    for state in states {
        State::try_from(usize::from(*state))?;
    }
    Ok(())
}

// Each pair is a link that the judgement lets pass.
fn judge_pairs<F: Fn(Link) -> Result<(), Refusal>>(
    pairs: &[[u16; 2]],
    judge: F,
) -> Result<(), Refusal>
    requires { F.IsAlwaysCallable judge }
    ensures { (fault : Link → ℕ) → ((l : Link) (r : _) → F.post judge l r → fault_of r ≡ fault l)
        → fault_of result ≡ first (map fault (map link_from pairs.now)) }
{
    for pair in pairs {
        judge(link_from(pair))?;
    }
    Ok(())
}

// The states, the links and the service links.
fn judge_lists(columns: Columns, n: usize, d: usize) -> Result<(), Refusal>
    ensures { fault_of result ≡ first (first (map state_fault columns.entry.states.now)
        ∷ first (map (link_fault n) (map link_from columns.entry.links.now))
        ∷ first (map (service_link_fault n d) (map link_from columns.entry.service_links.now))
        ∷ []) }
{
    judge_states(columns.states)?;
    judge_pairs(columns.links, |l| picture::judge_link(l, n))?;
    judge_pairs(
        columns.service_links,
        |l| picture::judge_service_link(l, n, d),
    )
}

// The lists, in the reader's order. The header has an edition, and the lengths of their first columns.
fn judge(h: Header, columns: Columns) -> Result<(), Refusal>
    requires known { Known h.edition }
    requires h_value { h ≡ columns_header (under h columns) }
    ensures { fault_of result ≡ first (handed_faults (under h columns.entry)) }
{
    if columns.states.len() != columns.is_near.len() {
        return Err(Refusal::Blocks);
    }
    if !picture::sizes_right(h) {
        return Err(Refusal::Blocks);
    }
    if 1 << h.edition.location_bits <= h.near_limit {
        return Err(Refusal::Blocks);
    }
    if columns.weights.len() != columns.is_protected.len() {
        return Err(Refusal::Counts);
    }
    if !picture::counts_right(h) {
        return Err(Refusal::Counts);
    }
    judge_lists(columns, h.slots, h.endpoints)
}

// State and near of each slot.
// Kept: this and the next are one call each, which differ in what they read and in its widths.
#[tactic(auto, using(crate::proofs::Rows::mark_small), unfolding(picture::specs::Layout::slot_widths, lists::specs::Lists::sum))]
fn push_slots(buf: &mut [u8], from: Tail, states: &[u8], is_near: &[bool]) -> Tail
    requires { SlotsFit from states.now is_near.now buf.old }
    ensures { Follows buf.old from (flat (map slot_fields (zip_with slot_from states.now is_near.now))) buf.new result }
{
    from.push_rows(buf, STATE_BITS, NEAR_BITS, states.len(), |i| {
        (usize::from(states[i]), usize::from(is_near[i]))
    })
}

// Weight and protection of each endpoint.
#[tactic(auto, using(crate::proofs::Rows::mark_small), unfolding(picture::specs::Layout::endpoint_widths, lists::specs::Lists::sum))]
fn push_endpoints(buf: &mut [u8], from: Tail, weights: &[u16], is_protected: &[bool]) -> Tail
    requires { EndpointsFit from weights.now is_protected.now buf.old }
    ensures { Follows buf.old from (flat (map endpoint_fields (zip_with endpoint_from weights.now is_protected.now))) buf.new result }
{
    from.push_rows(buf, WEIGHT_BITS, PROTECTED_BITS, weights.len(), |i| {
        (usize::from(weights[i]), usize::from(is_protected[i]))
    })
}

// The links or the service links, whose ends have these widths.
fn push_links(
    buf: &mut [u8],
    from: Tail,
    pairs: &[[u16; 2]],
    from_bits: usize,
    to_bits: usize,
) -> Tail
    requires { LinksFit from from_bits to_bits pairs.now buf.old }
    ensures { Follows buf.old from (flat (map (link_fields (from_bits ∷ to_bits ∷ [])) (map link_from pairs.now))) buf.new result }
{
    let row = |i: usize| {
        let l = link_from(&pairs[i]);
        (l.from, l.to)
    };
    // Where the widths are those of edition 1, they are told as the constants that they are: the loop is then compiled for them by itself.
    if from_bits == LOCATION_BITS && to_bits == LOCATION_BITS {
        return from.push_rows(buf, LOCATION_BITS, LOCATION_BITS, pairs.len(), row);
    }
    from.push_rows(buf, from_bits, to_bits, pairs.len(), row)
}

// The header, from the first bit on.
#[tactic(auto, unfolding(picture::specs::Layout::slots_at, picture::specs::Layout::header_widths, lists::specs::Lists::sum))]
pub fn push_header(buf: &mut [u8], h: Header) -> Tail
    requires { HeaderFits h buf.old }
    ensures { Follows buf.old start (header_fields h) buf.new result }
{
    let w = h.edition.location_bits;
    Tail { at: 0, held: 0 }
        .push(buf, EDITION_BITS, h.edition.number)
        .push(buf, BLOCK_SIZE_BITS, h.block_size)
        .push(buf, w, h.slots)
        .push(buf, w, h.near_limit)
        .push(buf, ENDPOINTS_BITS, h.endpoints)
        .push(buf, LINKS_BITS, h.links)
        .push(buf, LINKS_BITS, h.service_links)
}

// The picture of lists that keep the rules, over the front of a buffer that is long enough.
fn put_picture(buf: &mut [u8], h: Header, columns: Columns)
    requires { Ready (under h columns) h buf.old }
    ensures { Written (under h columns.entry) buf.old buf.new }
{
    let w = h.edition.location_bits;
    let header = push_header(buf, h);
    let slots = push_slots(buf, header, columns.states, columns.is_near);
    let endpoints = push_endpoints(buf, slots, columns.weights, columns.is_protected);
    let links = push_links(buf, endpoints, columns.links, w, w);
    let end = push_links(buf, links, columns.service_links, w, ENDPOINT_BITS);
    end.push_fill(buf);
}

// Writes the picture of any lists in an edition into the buffer: its length.
pub fn write(
    edition: u32,
    block_size: u32,
    near_limit: u16,
    states: &[u8],
    is_near: &[bool],
    weights: &[u16],
    is_protected: &[bool],
    links: &[[u16; 2]],
    service_links: &[[u16; 2]],
    buf: &mut [u8],
) -> Result<usize, Refusal>
    ensures { Writes (handed edition block_size near_limit states.now is_near.now weights.now is_protected.now links.now service_links.now)
        buf.old result buf.new }
{
    // Kept: usize has no From<u32>.
    let e = picture::edition_for(edition as usize);
    if e.number != edition as usize {
        return Err(Refusal::Edition);
    }
    let columns = Columns {
        states,
        is_near,
        weights,
        is_protected,
        links,
        service_links,
    };
    let h = Header {
        edition: e,
        block_size: block_size as usize,
        slots: states.len(),
        near_limit: usize::from(near_limit),
        endpoints: weights.len(),
        links: links.len(),
        service_links: service_links.len(),
    };
    judge(h, columns)?;
    let size = picture::size_of(h);
    if buf.len() < size {
        return Err(Refusal::Buffer);
    }
    put_picture(buf, h, columns);
    Ok(size)
}
