// Draws of SplitMix64: numbers that look random, and are the same on every machine.
#![tactic(auto)]

ghost use Rattle.std.specs.Prelude.{◌≡◌, ◌*◌, ◌%◌, ◌^◌};
ghost use Rattle.draws.specs.Draws.{state_after, draw_of};

// As many numbers as half a word of 64 bits has.
const HALF: u64 = 0x1_0000_0000;

// What the state grows by with each draw.
const GROWTH: u64 = 0x9E37_79B9_7F4A_7C15;

// What the state is multiplied with on its way to a draw.
const FIRST_FACTOR: u64 = 0xBF58_476D_1CE4_E5B9;

const SECOND_FACTOR: u64 = 0x94D0_49BB_1331_11EB;

// The product modulo 2^64, by halves: that of the two high ones is a multiple of 2^64.
// Kept: the form that is asked for is the supplied wrapping add, with a wrapping product of the library's own.
#[tactic(auto, using(crate::proofs::Products::product_halves))]
fn wrapping_mul(a: u64, b: u64) -> u64
    ensures { result ≡ a * b % 2 ^ 64 }
{
    let low = (a % HALF) * (b % HALF);
    let cross = ((a / HALF) * (b % HALF)).wrapping_add((a % HALF) * (b / HALF));
    low.wrapping_add(cross << 32)
}

// The state after one draw more.
#[tactic(auto, unfolding(crate::specs::Draws::state_after))]
pub fn next_state(state: u64) -> u64
    ensures { result ≡ state_after state 1 }
{
    state.wrapping_add(GROWTH)
}

// What a state draws.
#[tactic(auto, unfolding(crate::specs::Draws::draw_of, crate::specs::Draws::folded))]
pub fn draw_of(state: u64) -> u64
    ensures { result ≡ draw_of state }
{
    let once = wrapping_mul(state ^ (state >> 30), FIRST_FACTOR);
    let twice = wrapping_mul(once ^ (once >> 27), SECOND_FACTOR);
    twice ^ (twice >> 31)
}
