// Prints a picture that draws from a seed fill: the seed and the sizes are the arguments.
#![tactic(auto)]

ghost use Rattle.std.specs.Prelude.{◌≡◌, ◌+◌, ◌-◌, ◌*◌, ◌^◌, cond, min};
ghost use Rattle.generate.specs.Arguments.{goes_on, given};

use picture::PICTURE_MAX;
use std::env::{Env, FillError};
use std::io;

// The seed, β, the block count, D, L and S.
const ARGUMENTS: usize = 6;

// The number with one more digit behind it, if the byte is a digit and the number has 64 bits.
#[tactic(auto, unfolding(crate::specs::Arguments::goes_on))]
fn with_digit(n: u64, c: u8) -> Option<u64>
    ensures { result ≡ cond (goes_on n c) (Some (n * 10 + (c - 48))) None }
{
    match c {
        b'0'..=b'9' => n.checked_mul(10)?.checked_add(u64::from(c - b'0')),
        _ => None,
    }
}

// The number that an argument says in decimal, if it says one of 64 bits.
// Kept: digit by digit, since `parse` takes a sign too.
fn number(text: &[u8]) -> Option<u64>
    ensures { result ≡ given text.now }
{
    if text.is_empty() {
        return None;
    }
    let mut n = 0;
    for c in text {
        n = with_digit(n, *c)?;
    }
    Some(n)
}

// The number that argument i says. One that is missing, or longer than any number, says none.
fn nth_number(rt: &impl Env, i: usize) -> Option<u64> {
    let mut text = [0u8; 64];
    let k = rt.arg(i, &mut text).ok()?;
    number(&text[..k])
}

// Whether there is an argument i.
fn is_given(rt: &impl Env, i: usize) -> bool {
    !matches!(rt.arg(i, &mut [0u8; 1]), Err(FillError::NotPresent))
}

// The numbers of the arguments, if there are as many and each says one.
fn read_numbers(rt: &impl Env) -> Option<[u64; ARGUMENTS]> {
    if is_given(rt, ARGUMENTS + 1) {
        return None;
    }
    let mut numbers = [0; ARGUMENTS];
    for (i, number) in numbers.iter_mut().enumerate() {
        *number = nth_number(rt, i + 1)?;
    }
    Some(numbers)
}

// A size in 32 bits: one that has more is too large for a picture, and so is the largest.
fn size(n: u64) -> u32
    ensures { result ≡ min n (2 ^ 32 - 1) }
{
    u32::try_from(n).unwrap_or(u32::MAX)
}

// Writes the picture, or the number of the refusal to standard error.
fn print(rt: &(impl Print + Eprint), numbers: [u64; ARGUMENTS]) -> io::Result<()> {
    let [seed, block_size, blocks, endpoints, links, service_links] = numbers;
    let mut picture = [0u8; PICTURE_MAX];
    match generator::generate(
        seed,
        size(block_size),
        size(blocks),
        size(endpoints),
        size(links),
        size(service_links),
        &mut picture,
    ) {
        Ok(length) => rt.write_all(&picture[..length]),
        Err(refusal) => eprintln!(rt; "{refusal}"),
    }
}

fn main(rt: HostRuntime) -> io::Result<()> {
    match read_numbers(&rt) {
        Some(numbers) => print(&rt, numbers),
        None => eprintln!(rt;
            "usage: generate SEED BLOCK_SIZE BLOCKS ENDPOINTS LINKS SERVICE_LINKS"
        ),
    }
}
