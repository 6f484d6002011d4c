// The calls for C: each is one call of the library, and answers one number.
#![tactic(auto)]

ghost use Rattle.std.specs.Prelude.{◌≡◌, [], ◌∷◌, ℕ, ◌^◌, ◌<◌, pos, neg_ℤ};
ghost use Rattle.std.specs.Int.{w32};
ghost use Rattle.std.proofs.Common.{SFits};
ghost use Rattle.lists.specs.Lists.{outcome};
ghost use Rattle.picture.specs.Refusals.{answer_numbers};
ghost use Rattle.evidence.specs.Calls.{chosen_bytes};
ghost use Rattle.choose.specs.Answers.{choosing, choosing_numbers};
ghost use Rattle.checker.specs.Answers.{checking, checking_numbers};
ghost use Rattle.acts.specs.declared.Act.TheVariants.{Evict, Reload, Free};
ghost use Rattle.acts.specs.Answers.{acting, act_bytes, acting_numbers};
ghost use Rattle.write.specs.Columns.{handed};
ghost use Rattle.write.specs.Answers.{writing_numbers};
ghost use Rattle.generator.specs.Generated.{asked_header};
ghost use Rattle.generator.specs.Answers.{generating, generated_bytes};
ghost use Rattle.blockplan_c.specs.Answers.{to_c, WritesForC, price_into_fault, priced_into, PricesInto};

use picture::{BLOCKS_MAX, Refusal};

// A refusal is minus its number.
// Kept: one i32 for a length and for a refusal, the form that C gets.
fn refusal(number: u8) -> i32
    ensures number { result ≡ neg_ℤ (pos number) }
    ensures fits { SFits w32 result }
{
    -i32::from(number)
}

// A length of evidence or of a picture.
fn length_number(length: usize) -> i32
    requires { length < 2 ^ 31 }
    ensures number { result ≡ pos length }
    ensures fits { SFits w32 result }
{
    i32::try_from(length).unwrap()
}

// An answer that has a length: no evidence and no picture is too long for a number.
#[tactic(auto, using(crate::proofs::Numbers::refused_number), unfolding(crate::specs::Answers::to_c, picture::specs::Refusals::answer_numbers))]
fn number(answer: Result<usize, Refusal>) -> i32
    requires { (n : ℕ) → answer ≡ Ok n → n < 2 ^ 31 }
    ensures number { result ≡ to_c (answer_numbers (λ n. n ∷ []) answer) }
    ensures fits { SFits w32 result }
{
    match answer {
        Ok(length) => length_number(length),
        Err(e) => refusal(e.number()),
    }
}

// An answer without a value: 0 where the call is done.
#[tactic(auto, using(crate::proofs::Numbers::done_length, crate::proofs::Numbers::done_told))]
fn done_number(answer: Result<(), Refusal>) -> i32
    ensures number { result ≡ to_c (answer_numbers (λ _. []) answer) }
    ensures fits { SFits w32 result }
{
    number(answer.and(Ok(0)))
}

// Chooses a block and writes the evidence: its length, or minus the number of the first fault.
#[tactic(auto, using(crate::proofs::Lengths::chosen_small), unfolding(picture::specs::Refusals::answer_numbers))]
#[unsafe(no_mangle)]
pub extern "C" fn blockplan_choose(picture: &[u8], evidence: &mut [u8]) -> i32
    ensures answer { result ≡ to_c (choosing_numbers (choosing picture.now evidence.old)) }
    ensures bytes { evidence.new ≡ chosen_bytes picture.now evidence.old }
{
    number(choose::choose(picture, evidence))
}

// Checks evidence against a picture: 0, or minus the number of the first fault.
#[unsafe(no_mangle)]
pub extern "C" fn blockplan_check(picture: &[u8], evidence: &[u8]) -> i32
    ensures { result ≡ to_c (checking_numbers (checking picture.now evidence.now)) }
{
    done_number(checker::check(picture, evidence))
}

// The held slots of a block become recoverable: 0, or minus the number of the first fault.
#[unsafe(no_mangle)]
pub extern "C" fn blockplan_evict(picture: &mut [u8], block: u32) -> i32
    ensures answer { result ≡ to_c (acting_numbers (acting Evict picture.old block)) }
    ensures bytes { picture.new ≡ act_bytes Evict picture.old block }
{
    done_number(acts::evict(picture, block))
}

// The recoverable slots of a block become held: 0, or minus the number of the first fault.
#[unsafe(no_mangle)]
pub extern "C" fn blockplan_reload(picture: &mut [u8], block: u32) -> i32
    ensures answer { result ≡ to_c (acting_numbers (acting Reload picture.old block)) }
    ensures bytes { picture.new ≡ act_bytes Reload picture.old block }
{
    done_number(acts::reload(picture, block))
}

// The held and the recoverable slots of a block become freed: 0, or minus the number of the first fault.
#[unsafe(no_mangle)]
pub extern "C" fn blockplan_free(picture: &mut [u8], block: u32) -> i32
    ensures answer { result ≡ to_c (acting_numbers (acting Free picture.old block)) }
    ensures bytes { picture.new ≡ act_bytes Free picture.old block }
{
    done_number(acts::free(picture, block))
}

// Writes a picture of an edition from lists: its length, or minus the number of the first fault.
#[tactic(auto, unfolding(write::specs::Answers::writing, write::specs::Answers::written_bytes))]
#[unsafe(no_mangle)]
pub extern "C" fn blockplan_write(
    edition: u32,
    block_size: u32,
    near_limit: u16,
    states: &[u8],
    is_near: &[bool],
    weights: &[u16],
    is_protected: &[bool],
    links: &[[u16; 2]],
    service_links: &[[u16; 2]],
    picture: &mut [u8],
) -> i32
    ensures { WritesForC (handed edition block_size near_limit states.now is_near.now weights.now is_protected.now links.now service_links.now)
        picture.old result picture.new }
{
    number(write::write(
        edition,
        block_size,
        near_limit,
        states,
        is_near,
        weights,
        is_protected,
        links,
        service_links,
        picture,
    ))
}

// Fills a picture of edition 1 with draws from a seed: its length, or minus the number of the first fault.
#[tactic(auto, unfolding(generator::specs::Answers::generating, generator::specs::Answers::generated_bytes))]
#[unsafe(no_mangle)]
pub extern "C" fn blockplan_generate(
    seed: u64,
    block_size: u32,
    blocks: u32,
    endpoints: u32,
    links: u32,
    service_links: u32,
    picture: &mut [u8],
) -> i32
    ensures answer { result ≡ to_c (writing_numbers (generating (asked_header block_size blocks endpoints links service_links) picture.old)) }
    ensures bytes { picture.new ≡ generated_bytes seed (asked_header block_size blocks endpoints links service_links) picture.old }
{
    number(generator::generate(
        seed,
        block_size,
        blocks,
        endpoints,
        links,
        service_links,
        picture,
    ))
}

// Prices blocks into a buffer, which is judged last: how many counters it wrote.
fn price_into(picture: &[u8], records: &[u8], counters: &mut [u32]) -> Result<usize, Refusal>
    ensures { PricesInto picture.now records.now counters.old result counters.new }
{
    let prices = price::price(picture, records)?;
    if counters.len() < BLOCKS_MAX {
        return Err(Refusal::Buffer);
    }
    counters[..BLOCKS_MAX].copy_from_slice(&prices);
    Ok(BLOCKS_MAX)
}

// Prices the blocks of a flat network from traffic records, into the first sixty counters: 0, or minus the number of the first fault.
#[tactic(auto, unfolding(crate::specs::Answers::priced_into))]
#[unsafe(no_mangle)]
pub extern "C" fn blockplan_price(picture: &[u8], records: &[u8], counters: &mut [u32]) -> i32
    ensures answer { result ≡ to_c (outcome (price_into_fault picture.now records.now counters.old) []) }
    ensures bytes { counters.new ≡ priced_into picture.now records.now counters.old }
{
    done_number(price_into(picture, records, counters).and(Ok(())))
}
