// Bit fields of a general width at any bit position of a byte slice, the most significant bit first.
// A field is read from a window of four bytes and written a byte at a time, with shifts and masks; fields that follow each other are pushed,
// and those of whole bytes are read and stored as such.
#![tactic(auto)]

ghost use Rattle.std.specs.Prelude.{◌≡◌, ◌+◌, ◌*◌, ◌/◌, ◌%◌, ◌^◌, ◌≤◌, ◌<◌, length, set};
ghost use Rattle.bits.specs.Bits.{field_at, put_field};
ghost use Rattle.bits.specs.Pushing.{Pushable, Pushed};

// The four bytes from byte k on, as one number.
#[tactic(auto, using(crate::proofs::Reading::field_at_four))]
fn four_bytes(s: &[u8], k: usize) -> usize
    requires { k + 4 ≤ length s.now }
    ensures { result ≡ field_at s.now (k * 8) 32 }
{
    usize::from_be_bytes([0, 0, 0, 0, s[k], s[k + 1], s[k + 2], s[k + 3]])
}

// The same where the slice ends within them: what is not there counts as zeros.
// Kept: beside the one above, since read by this alone a check of a full picture takes 15 of 100 instructions more.
fn last_bytes(s: &[u8], k: usize) -> usize
    requires { k < 2 ^ 62 }
    ensures { result ≡ field_at s.now (k * 8) 32 }
{
    let byte = |i: usize| s.get(i).copied().unwrap_or(0);
    usize::from_be_bytes([0, 0, 0, 0, byte(k), byte(k + 1), byte(k + 2), byte(k + 3)])
}

// The field of w bits that starts at bit p. Bits past the end of the slice are read as zeros.
#[tactic(auto, using(crate::proofs::Masks::masked, crate::proofs::Reading::field_at_window))]
pub fn field(s: &[u8], p: usize, w: usize) -> usize
    requires { w ≤ 25 }
    ensures { result ≡ field_at s.now p w }
{
    let k = p / 8;
    let below = 32 - p % 8 - w;
    let mask = (1 << w) - 1;
    let window = if k + 4 <= s.len() {
        four_bytes(s, k)
    } else {
        last_bytes(s, k)
    };
    (window >> below) & mask
}

// The w bits from bit p on, all of them in one byte, become the w low digits of v.
fn put_in_byte(s: &mut [u8], p: usize, w: usize, v: usize)
    requires { (p / 8 < length s.old) × (p % 8 + w ≤ 8) }
    ensures { s.new ≡ put_field s.old p w v }
{
    let k = p / 8;
    let below = 8 - p % 8 - w;
    let mask = (1 << w) - 1;
    let b = usize::from(s[k]);
    let old = (b >> below) & mask;
    let new = b - (old << below) + ((v & mask) << below);
    // Kept: u8 has no From<usize>, and `try_from` with `unwrap` says no more; so below.
    s[k] = (new % 256) as u8;
}

// The field of w bits that starts at bit p becomes the w low digits of v: as many bits at a time as its bytes hold of it.
// Kept: a `for` over the bytes, with the part in each by `min` and `max`, proves, but takes 74 instructions for a field in one byte in place of 61.
pub fn put_field(s: &mut [u8], p: usize, w: usize, v: usize)
    requires { (p + w ≤ length s.old * 8) × (w ≤ 32) × (p < 2 ^ 32) }
    ensures { s.new ≡ put_field s.old p w v }
{
    let mut done = 0;
    while done < w {
        let at = p + done;
        let room = 8 - at % 8;
        let left = w - done;
        let next = left.min(room);
        put_in_byte(s, at, next, v >> (left - next));
        done += next;
    }
}

// The number in the bytes from byte k on, two of them or three: a field of whole bytes.
// Kept: all three by one `from_be_bytes` prove too, but then `check` takes 2 of 100 instructions more in edition 2.
pub fn bytes(s: &[u8], k: usize, count: usize) -> usize
    requires { (k + count ≤ length s.now) × (2 ≤ count) × (count ≤ 3) }
    ensures { result ≡ field_at s.now (k * 8) (count * 8) }
{
    let two = usize::from(u16::from_be_bytes([s[k], s[k + 1]]));
    if 2 < count {
        return two * 256 + usize::from(s[k + 2]);
    }
    two
}

// The bytes from byte k on, two of them or three, become the low digits of v: a field of whole bytes.
pub fn put_bytes(s: &mut [u8], k: usize, count: usize, v: usize)
    requires { (k + count ≤ length s.old) × (2 ≤ count) × (count ≤ 3) }
    ensures { s.new ≡ put_field s.old (k * 8) (count * 8) v }
{
    s[k..k + count].copy_from_slice(&v.to_be_bytes()[8 - count..]);
}

// The field of w bits behind what is written up to bit p, of which the last p % 8 bits are held and stand in no byte yet. Whole bytes are
// stored, none is read, and what fills no byte is held for the next field.
// Kept: a `for` over the bytes proves, but takes 12 of 100 instructions more where a picture of edition 2 is written.
pub fn push_field(s: &mut [u8], p: usize, held: usize, w: usize, v: usize) -> usize
    requires { Pushable s.old p held w v }
    ensures { Pushed s.old p held w v s.new result }
{
    let all = (held << w) | v;
    let mut left = p % 8 + w;
    let mut k = p / 8;
    while 8 <= left {
        left -= 8;
        s[k] = ((all >> left) % 256) as u8;
        k += 1;
    }
    all & ((1 << left) - 1)
}
