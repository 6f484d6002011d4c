// The acts on a block of a lent picture: evict, reload and free.
#![tactic(auto)]

ghost use Rattle.std.specs.Prelude.{Bool, ℕ, ◌≡◌, ◌&&◌, ◌||◌, not, cond, [], ◌≤◌, ◌<◌, eqb};
ghost use Rattle.lists.specs.Lists.{range, any, outcome};
ghost use Rattle.picture.specs.Refusals.{fault_of};
ghost use Rattle.picture.specs.Layout.{state_number};
ghost use Rattle.picture.specs.Picture.{header_of, picture_of, slot_of};
ghost use Rattle.picture.specs.Inner.{Read};
ghost use Rattle.network.specs.Words.{slot_count, block_count};
ghost use Rattle.network.specs.Rows.{HeldRow, TablesOf};
ghost use Rattle.network.specs.Tests.{is_near_held};
ghost use Rattle.acts.specs.Faults.{changes, cuts_over, cut_fault, near_fault, act_fault};
ghost use Rattle.acts.specs.Answers.{act_bytes, acting, acting_numbers};
ghost use Rattle.acts.specs.Acts.{after, held_or_recoverable, recoverable_near, near_after, done_bytes};

use network::Tables;
use picture::{Header, Picture, Refusal, State};
use rows::{Row, WORDS};

// What is done to a block.
#[derive(Clone, Copy)]
pub enum Act {
    Evict,
    Reload,
    Free,
}

// A slot's state after an act on its block.
#[tactic(auto, unfolding(crate::specs::Acts::after))]
fn after(a: Act, state: State) -> State
    ensures { state_number result ≡ after a (state_number state) }
{
    match (a, state) {
        (Act::Evict, State::Held) => State::Recoverable,
        (Act::Reload, State::Recoverable) => State::Held,
        (Act::Free, _) => State::Freed,
        _ => state,
    }
}

// Whether the act changes slot v.
// Kept: here and below a picture stands beside the number of a slot or a block, with its bounds in the clause: the definitions that the clauses
// name take both, and a struct of them would be taken apart in each.
#[tactic(auto, using(picture::proofs::States::same_number))]
fn is_changed(p: &Picture, a: Act, v: usize) -> bool
    requires { (1 ≤ v) × (v ≤ (header_of p.now).slots) }
    ensures { result ≡ not (eqb (after a (slot_of (picture_of p.now) v).state) (slot_of (picture_of p.now) v).state) }
{
    let state = p.slot_state(v);
    after(a, state) != state
}

// Whether the act changes a slot of block b.
#[tactic(auto, using(crate::proofs::Headers::read_within))]
fn changes(p: &Picture, a: Act, b: usize) -> bool
    requires { b < block_count (picture_of p.now) }
    ensures { result ≡ changes a (picture_of p.now) b }
{
    let h = p.header();
    let start = b * h.block_size + 1;
    (start..start + h.block_size).any(|v| is_changed(p, a, v))
}

// Whether slot v is near and in this state.
#[tactic(auto, using(picture::proofs::States::same_number))]
fn is_near_in(p: &Picture, v: usize, state: State) -> bool
    requires { (1 ≤ v) × (v ≤ (header_of p.now).slots) }
    ensures { result ≡ ((slot_of (picture_of p.now) v).near && eqb (slot_of (picture_of p.now) v).state (state_number state)) }
{
    p.is_near(v) && p.slot_state(v) == state
}

// Whether slot v is one of the near slots that a reload of block b adds to the held ones.
#[tactic(auto, using(crate::proofs::Headers::read_within))]
fn is_added_near(p: &Picture, b: usize, v: usize) -> bool
    requires { (b < block_count (picture_of p.now)) × (1 ≤ v) × (v ≤ (header_of p.now).slots) }
    ensures { result ≡ recoverable_near (picture_of p.now) b v }
{
    let h = p.header();
    let before = b * h.block_size;
    before < v && v <= before + h.block_size && is_near_in(p, v, State::Recoverable)
}

// Whether slot v is near and held after a reload of block b.
#[tactic(auto, using(crate::proofs::Headers::near_held))]
fn is_near_after(p: &Picture, b: usize, v: usize) -> bool
    requires { (b < block_count (picture_of p.now)) × (1 ≤ v) × (v ≤ (header_of p.now).slots) }
    ensures { result ≡ (is_near_held (picture_of p.now) v || recoverable_near (picture_of p.now) b v) }
{
    is_near_in(p, v, State::Held) || is_added_near(p, b, v)
}

// Whether a reload of block b adds a held near slot.
#[tactic(auto, using(picture::proofs::Facts::read_slots_most))]
fn adds_near(p: &Picture, b: usize) -> bool
    requires { b < block_count (picture_of p.now) }
    ensures { result ≡ any (recoverable_near (picture_of p.now) b) (range 1 (slot_count (picture_of p.now))) }
{
    (1..p.header().slots + 1).any(|v| is_added_near(p, b, v))
}

// The number of held near slots after a reload of block b.
#[tactic(auto, using(picture::proofs::Facts::read_slots_most))]
fn near_after(p: &Picture, b: usize) -> usize
    requires { b < block_count (picture_of p.now) }
    ensures { result ≡ near_after (picture_of p.now) b }
{
    (1..p.header().slots + 1)
        .filter(|v| is_near_after(p, b, *v))
        .count()
}

// The slots that are held or recoverable.
fn held_or_recoverable(p: &Picture) -> Row
    ensures { HeldRow (picture_of p.now) (held_or_recoverable (picture_of p.now)) result }
{
    let mut slots = [0u64; WORDS];
    // Down to the first: so the loop has one count to keep.
    for v in (1..=p.header().slots).rev() {
        if p.slot_state(v) != State::Freed {
            rows::add(&mut slots, v);
        }
    }
    slots
}

// Whether a protected endpoint has a chain through these slots, and has none without those of block b.
fn cuts_over(p: &Picture, tables: &Tables, slots: Row, b: usize) -> bool
    requires block { b < block_count (picture_of p.now) }
    requires tables { TablesOf (picture_of p.now) tables.now }
    requires slots { (held : ℕ → Bool) × HeldRow (picture_of p.now) held slots }
    ensures { (held : ℕ → Bool) → HeldRow (picture_of p.now) held slots → result ≡ cuts_over (picture_of p.now) held b }
{
    let h = p.header();
    let n = h.slots;
    let words = rows::words_for(n);
    let block = network::block_range(h.block_size, b);
    let before = graph::walk(tables.links, slots, n);
    let after = graph::walk_without(tables.links, slots, n, block);
    let lost = weigh::lost_between(
        &tables.services,
        &tables.weights,
        tables.protected,
        h.endpoints,
        before.reached,
        after.reached,
        words,
    );
    lost.mark == 1
}

// Giving up block b cuts no protected endpoint; for good, by a free, it also takes from none its last chain of held or recoverable slots.
#[tactic(auto, unfolding(crate::specs::Faults::cut_fault, lists::specs::Lists::on))]
fn judge_block_cut(p: &Picture, b: usize, for_good: bool) -> Result<(), Refusal>
    requires { b < block_count (picture_of p.now) }
    ensures { fault_of result ≡ cut_fault (cond for_good Act.Free Act.Evict) (picture_of p.now) b }
{
    let mut tables = Tables::empty();
    tables.fill(p);
    let held = network::slot_rows(p).held;
    if cuts_over(p, &tables, held, b)
        || for_good && cuts_over(p, &tables, held_or_recoverable(p), b)
    {
        return Err(Refusal::Protected);
    }
    Ok(())
}

// The same of an act: a reload cuts nothing.
// Kept: called in one place, it is compiled into the act, and a reload then takes 33,272 bytes of stack in place of 4,520.
#[tactic(auto, unfolding(crate::specs::Faults::cut_fault))]
fn judge_cut(p: &Picture, a: Act, b: usize) -> Result<(), Refusal>
    requires { b < block_count (picture_of p.now) }
    ensures { fault_of result ≡ cut_fault a (picture_of p.now) b }
{
    match a {
        Act::Evict => judge_block_cut(p, b, false),
        Act::Reload => Ok(()),
        Act::Free => judge_block_cut(p, b, true),
    }
}

// A reload of block b adds no held near slot, or leaves no more of them than the near limit.
#[tactic(auto, using(crate::proofs::Headers::read_near_limit), unfolding(crate::specs::Faults::near_fault, lists::specs::Lists::on))]
fn judge_block_near(p: &Picture, b: usize) -> Result<(), Refusal>
    requires { b < block_count (picture_of p.now) }
    ensures { fault_of result ≡ near_fault Act.Reload (picture_of p.now) b }
{
    let limit = p.header().near_limit;
    if adds_near(p, b) && limit < near_after(p, b) {
        return Err(Refusal::Near);
    }
    Ok(())
}

// The same of an act: an evict and a free hold no more than before.
#[tactic(auto, unfolding(crate::specs::Faults::near_fault))]
fn judge_near(p: &Picture, a: Act, b: usize) -> Result<(), Refusal>
    requires { b < block_count (picture_of p.now) }
    ensures { fault_of result ≡ near_fault a (picture_of p.now) b }
{
    match a {
        Act::Reload => judge_block_near(p, b),
        Act::Evict | Act::Free => Ok(()),
    }
}

// An act on block b of an accepted picture has no fault.
#[tactic(auto, using(network::proofs::Blocks::read_blocks))]
fn judge(p: &Picture, a: Act, b: usize) -> Result<(), Refusal>
    ensures { fault_of result ≡ act_fault a p.now b }
{
    let h = p.header();
    if h.slots / h.block_size <= b {
        return Err(Refusal::NoBlock);
    }
    if !changes(p, a, b) {
        return Err(Refusal::NoChange);
    }
    judge_cut(p, a, b)?;
    judge_near(p, a, b)
}

// Each slot of block b takes its state after the act, the last slot first.
// Kept: the bytes and their header, since it changes the bytes that a Picture lends.
#[tactic(auto, using(crate::proofs::Headers::read_within))]
fn put_states(s: &mut [u8], h: Header, a: Act, b: usize)
    requires { Read s.old h × (b < block_count (picture_of s.old)) }
    ensures { s.new ≡ done_bytes a s.old b }
{
    let start = b * h.block_size + 1;
    for v in (start..start + h.block_size).rev() {
        let state = picture::state_of(s, h, v);
        picture::put_state(s, h, v, after(a, state).number());
    }
}

// An act on block b of a picture of any bytes: done, or refused, and then no byte is written.
fn apply(s: &mut [u8], a: Act, b: u32) -> Result<(), Refusal>
    ensures answer { result ≡ acting a s.old b }
    ensures numbers { acting_numbers result ≡ outcome (act_fault a s.old b) [] }
    ensures bytes { s.new ≡ act_bytes a s.old b }
{
    let p = Picture::read(s)?;
    // Kept: usize has no From<u32>.
    judge(&p, a, b as usize)?;
    let h = p.header();
    put_states(s, h, a, b as usize);
    Ok(())
}

// The held slots of block b become recoverable.
pub fn evict(s: &mut [u8], b: u32) -> Result<(), Refusal>
    ensures answer { result ≡ acting Act.Evict s.old b }
    ensures numbers { acting_numbers result ≡ outcome (act_fault Act.Evict s.old b) [] }
    ensures bytes { s.new ≡ act_bytes Act.Evict s.old b }
{
    apply(s, Act::Evict, b)
}

// The recoverable slots of block b become held.
pub fn reload(s: &mut [u8], b: u32) -> Result<(), Refusal>
    ensures answer { result ≡ acting Act.Reload s.old b }
    ensures numbers { acting_numbers result ≡ outcome (act_fault Act.Reload s.old b) [] }
    ensures bytes { s.new ≡ act_bytes Act.Reload s.old b }
{
    apply(s, Act::Reload, b)
}

// The held and the recoverable slots of block b become freed.
pub fn free(s: &mut [u8], b: u32) -> Result<(), Refusal>
    ensures answer { result ≡ acting Act.Free s.old b }
    ensures numbers { acting_numbers result ≡ outcome (act_fault Act.Free s.old b) [] }
    ensures bytes { s.new ≡ act_bytes Act.Free s.old b }
{
    apply(s, Act::Free, b)
}
