// A picture of one bundle: its layout, the first fault of any bytes, and the fields of an accepted one.
#![tactic(auto)]

ghost use Rattle.std.specs.Prelude.{◌≡◌, [], ◌∷◌, map, ◌+◌, ◌-◌, ◌*◌, ◌≤◌, ◌<◌, length, get_or, take, drop};
ghost use Rattle.bits.specs.Bits.{put_field};
ghost use Rattle.lists.specs.Lists.{first, sum, outcome};
ghost use Rattle.picture.specs.Layout.{state_number, state_max, edition_for, header_widths, state_bits, slot_widths, slots_at, size_of};
ghost use Rattle.picture.specs.Picture.{header_in, header_of, link_at, picture_with, slot_of, endpoint_of};
ghost use Rattle.picture.specs.Faults.{sizes_right, counts_right, state_fault, link_fault, service_link_fault, end_right, body_faults, faults_with, picture_fault};
ghost use Rattle.picture.specs.Refusals.{fault_of};
ghost use Rattle.picture.specs.Answers.{reading, header_values, reading_numbers};
ghost use Rattle.picture.specs.Rules.{no_link};
ghost use Rattle.picture.specs.Inner.{StateOf, Known, Limited, places_of};

pub mod reading;
pub mod refusals;

pub use reading::Picture;
pub use refusals::Refusal;

// Widths in bits, in the order of the fields.
pub const EDITION_BITS: usize = 4;

pub const BLOCK_SIZE_BITS: usize = 4;

pub const ENDPOINTS_BITS: usize = 8;

pub const LINKS_BITS: usize = 12;

pub const STATE_BITS: usize = 2;

pub const NEAR_BITS: usize = 1;

pub const WEIGHT_BITS: usize = 16;

pub const PROTECTED_BITS: usize = 1;

pub const ENDPOINT_BITS: usize = 8;

// Where β and n stand in the header. n and κ have the width of a location, which is the edition's.
pub const BLOCK_SIZE_AT: usize = EDITION_BITS;

pub const SLOT_COUNT_AT: usize = BLOCK_SIZE_AT + BLOCK_SIZE_BITS;

// Where L, S and the slots start, from D on.
pub const LINK_COUNT_AFTER: usize = ENDPOINTS_BITS;

pub const SERVICE_LINK_COUNT_AFTER: usize = LINK_COUNT_AFTER + LINKS_BITS;

const SLOTS_AFTER: usize = SERVICE_LINK_COUNT_AFTER + LINKS_BITS;

// A row of each of the four lists.
pub const SLOT_ROW: usize = STATE_BITS + NEAR_BITS;

pub const ENDPOINT_ROW: usize = WEIGHT_BITS + PROTECTED_BITS;

// Limits.
const LEAST_BYTES: usize = 7;

const BLOCK_SIZE_MAX: usize = 15;

pub const BLOCKS_MAX: usize = 60;

pub const ENDPOINTS_MAX: usize = 200;

const LINKS_MAX: usize = 2000;

// The width of a location and the largest n, in edition 1 and in edition 2.
pub const LOCATION_BITS: usize = 8;

const SLOTS_MAX: usize = 240;

pub const WIDE_LOCATION_BITS: usize = 12;

const WIDE_SLOTS_MAX: usize = 320;

// The longest picture, in bytes: 11,553, in edition 2.
pub const PICTURE_MAX: usize = (SLOT_COUNT_AT
    + 2 * WIDE_LOCATION_BITS
    + SLOTS_AFTER
    + WIDE_SLOTS_MAX * SLOT_ROW
    + ENDPOINTS_MAX * ENDPOINT_ROW
    + LINKS_MAX * (2 * WIDE_LOCATION_BITS)
    + LINKS_MAX * (WIDE_LOCATION_BITS + ENDPOINT_BITS)
    + 7)
    / 8;

// The state of a slot.
#[derive(Clone, Copy, Debug, PartialEq, Eq)]
pub enum State {
    Held,
    Recoverable,
    Freed,
}

impl State {
    // The number that stands for it in a picture.
    // Kept: a match, so that each number stands beside its state.
    pub fn number(self) -> usize
        ensures { result ≡ state_number self }
    {
        match self {
            State::Held => 0,
            State::Recoverable => 1,
            State::Freed => 2,
        }
    }
}

impl TryFrom<usize> for State {
    type Error = Refusal;

    ghost try_from_gives = { StateOf };

    #[tactic(auto, unfolding(crate::specs::Faults::state_fault, lists::specs::Lists::on))]
    fn try_from(number: usize) -> Result<Self, Refusal> {
        match number {
            0 => Ok(State::Held),
            1 => Ok(State::Recoverable),
            2 => Ok(State::Freed),
            _ => Err(Refusal::State),
        }
    }
}

// An edition: its number; the width of n, of κ and of a location; the largest β and the largest n.
// Kept: a record of numbers and not an enum, and `Known` a fact of its own, since definitions and laws go over any edition by its widths.
#[derive(Clone, Copy)]
pub struct Edition {
    pub number: usize,
    pub location_bits: usize,
    pub block_size_max: usize,
    pub slots_max: usize,
}

// The header's numbers: its edition's, β, n, κ, D, L and S.
// Kept: no invariant says that they keep their limits, since a header is a value before it is judged, and is refused by these numbers.
#[derive(Clone, Copy)]
pub struct Header {
    pub edition: Edition,
    pub block_size: usize,
    pub slots: usize,
    pub near_limit: usize,
    pub endpoints: usize,
    pub links: usize,
    pub service_links: usize,
}

// Where the parts of a picture start, in bits: the slots follow the header.
#[derive(Clone, Copy)]
pub struct Places {
    pub endpoints: usize,
    pub links: usize,
    pub service_links: usize,
    pub end: usize,
}

// A link between two locations, or a service link from a location to an endpoint.
#[derive(Clone, Copy)]
pub struct Link {
    pub from: usize,
    pub to: usize,
}

// The edition of a number: for any that is none, the first.
// Kept: no Option, since it never failed, and a header is made by some edition of any bytes before their edition is judged.
pub fn edition_for(number: usize) -> Edition
    ensures { result ≡ edition_for number }
{
    if number == 2 {
        return Edition {
            number: 2,
            location_bits: WIDE_LOCATION_BITS,
            block_size_max: BLOCK_SIZE_MAX,
            slots_max: WIDE_SLOTS_MAX,
        };
    }
    Edition {
        number: 1,
        location_bits: LOCATION_BITS,
        block_size_max: BLOCK_SIZE_MAX,
        slots_max: SLOTS_MAX,
    }
}

// Where D stands in the header.
pub fn endpoint_count_at(e: Edition) -> usize
    requires { Known e }
    ensures { result ≡ sum (take 4 (header_widths e)) }
{
    SLOT_COUNT_AT + e.location_bits + e.location_bits
}

// Where the slots start.
pub fn slots_at(e: Edition) -> usize
    requires { Known e }
    ensures { result ≡ slots_at e }
{
    endpoint_count_at(e) + SLOTS_AFTER
}

// The header's numbers by an edition, whatever they are.
fn header_in(s: &[u8], e: Edition) -> Header
    requires { Known e }
    ensures { result ≡ header_in e s.now }
{
    let w = e.location_bits;
    let at = endpoint_count_at(e);
    Header {
        edition: e,
        block_size: bits::field(s, BLOCK_SIZE_AT, BLOCK_SIZE_BITS),
        slots: bits::field(s, SLOT_COUNT_AT, w),
        near_limit: bits::field(s, SLOT_COUNT_AT + w, w),
        endpoints: bits::field(s, at, ENDPOINTS_BITS),
        links: bits::field(s, at + LINK_COUNT_AFTER, LINKS_BITS),
        service_links: bits::field(s, at + SERVICE_LINK_COUNT_AFTER, LINKS_BITS),
    }
}

// The header's numbers, by the bytes' own edition.
fn header_of(s: &[u8]) -> Header
    ensures { result ≡ header_of s.now }
{
    header_in(s, edition_for(bits::field(s, 0, EDITION_BITS)))
}

// β and n keep their limits, and n is a multiple of β.
#[tactic(auto, unfolding(crate::specs::Faults::sizes_right))]
pub fn sizes_right(h: Header) -> bool
    ensures { result ≡ sizes_right h }
{
    let size = h.block_size;
    let n = h.slots;
    1 <= size
        && size <= h.edition.block_size_max
        && 1 <= n
        && n <= h.edition.slots_max
        && n % size == 0
        && n / size <= BLOCKS_MAX
}

// D, L and S keep their limits.
#[tactic(auto, unfolding(crate::specs::Faults::counts_right))]
pub fn counts_right(h: Header) -> bool
    ensures { result ≡ counts_right h }
{
    h.endpoints <= ENDPOINTS_MAX && h.links <= LINKS_MAX && h.service_links <= LINKS_MAX
}

// Where the parts after the slots start, and where the last field ends.
pub fn find_places(h: Header) -> Places
    requires { Limited h }
    ensures { result ≡ places_of h }
{
    let w = h.edition.location_bits;
    let endpoints = slots_at(h.edition) + h.slots * SLOT_ROW;
    let links = endpoints + h.endpoints * ENDPOINT_ROW;
    let service_links = links + h.links * (w + w);
    let end = service_links + h.service_links * (w + ENDPOINT_BITS);
    Places {
        endpoints,
        links,
        service_links,
        end,
    }
}

// The bytes that a picture with this header takes.
pub fn size_of(h: Header) -> usize
    requires { Limited h }
    ensures { result ≡ size_of h }
{
    (find_places(h).end + 7) / 8
}

// Where slot v starts.
fn slot_at(h: Header, v: usize) -> usize
    requires { Limited h × (1 ≤ v) × (v ≤ h.slots) }
    ensures { result ≡ slots_at h.edition + (v - 1) * sum slot_widths }
{
    slots_at(h.edition) + (v - 1) * SLOT_ROW
}

// The number of the state of slot v, whatever it is.
// Kept: a number, which it gives of any bytes, as before; `state_of` gives the state.
pub fn slot_state(s: &[u8], h: Header, v: usize) -> usize
    requires { Limited h × (1 ≤ v) × (v ≤ h.slots) }
    ensures { result ≡ (slot_of (picture_with h s.now) v).state }
{
    bits::field(s, slot_at(h, v), STATE_BITS)
}

// The state of slot v, where it is one of the three, as in every accepted picture.
pub fn state_of(s: &[u8], h: Header, v: usize) -> State
    requires { Limited h × (1 ≤ v) × (v ≤ h.slots) × ((slot_of (picture_with h s.now) v).state ≤ state_max) }
    ensures { state_number result ≡ (slot_of (picture_with h s.now) v).state }
{
    State::try_from(slot_state(s, h, v)).unwrap()
}

// The state of slot v becomes this number: its two bits only.
// Kept: any number, as before, since `State` is a narrower type.
pub fn put_state(s: &mut [u8], h: Header, v: usize, state: usize)
    requires { Limited h × (1 ≤ v) × (v ≤ h.slots) × (size_of h ≤ length s.old) }
    ensures { s.new ≡ put_field s.old (slots_at h.edition + (v - 1) * sum slot_widths) state_bits state }
{
    bits::put_field(s, slot_at(h, v), STATE_BITS, state);
}

// Whether slot v is near.
pub fn slot_near(s: &[u8], h: Header, v: usize) -> bool
    requires { Limited h × (1 ≤ v) × (v ≤ h.slots) }
    ensures { result ≡ (slot_of (picture_with h s.now) v).near }
{
    bits::field(s, slot_at(h, v) + STATE_BITS, NEAR_BITS) == 1
}

// The weight of endpoint c.
pub fn endpoint_weight(s: &[u8], h: Header, c: usize) -> usize
    requires { Limited h × (1 ≤ c) × (c ≤ h.endpoints) }
    ensures { result ≡ (endpoint_of (picture_with h s.now) c).weight }
{
    bits::field(
        s,
        find_places(h).endpoints + (c - 1) * ENDPOINT_ROW,
        WEIGHT_BITS,
    )
}

// Whether endpoint c is protected.
pub fn endpoint_protected(s: &[u8], h: Header, c: usize) -> bool
    requires { Limited h × (1 ≤ c) × (c ≤ h.endpoints) }
    ensures { result ≡ (endpoint_of (picture_with h s.now) c).protected }
{
    bits::field(
        s,
        find_places(h).endpoints + (c - 1) * ENDPOINT_ROW + WEIGHT_BITS,
        PROTECTED_BITS,
    ) == 1
}

// The link at bit p whose ends have these widths, read as one field.
fn link_at(s: &[u8], p: usize, from_bits: usize, to_bits: usize) -> Link
    requires { from_bits + to_bits ≤ 25 }
    ensures { result ≡ link_at (from_bits ∷ to_bits ∷ []) s.now p }
{
    let both = bits::field(s, p, from_bits + to_bits);
    Link {
        from: both >> to_bits,
        to: both & ((1 << to_bits) - 1),
    }
}

// Kept: this and the next differ in where their list starts and in a width; one over both would be told both.
// Link i, counted from 0. The width w of a location is the edition's, as a number of its own: see `judge_links`.
pub fn nth_link(s: &[u8], h: Header, w: usize, i: usize) -> Link
    requires { Limited h × (w ≡ h.edition.location_bits) × (i < h.links) }
    ensures { result ≡ get_or (picture_with h s.now).links i no_link }
{
    link_at(s, find_places(h).links + i * (w + w), w, w)
}

// Service link i, counted from 0.
pub fn nth_service_link(s: &[u8], h: Header, w: usize, i: usize) -> Link
    requires { Limited h × (w ≡ h.edition.location_bits) × (i < h.service_links) }
    ensures { result ≡ get_or (picture_with h s.now).service_links i no_link }
{
    link_at(
        s,
        find_places(h).service_links + i * (w + ENDPOINT_BITS),
        w,
        ENDPOINT_BITS,
    )
}

// Each slot has one of the three states.
// Kept: bytes and header go beside each other here and below, since the definitions (`picture_with`) take both, and no picture is accepted yet.
// Kept: this loop and the two for links are alike but for what they read; one over any judgement would take its law and two closures each.
fn judge_states(s: &[u8], h: Header) -> Result<(), Refusal>
    requires { Limited h }
    ensures { fault_of result ≡ first (map (λ q. state_fault q.state) (picture_with h s.now).slots) }
{
    for i in 0..h.slots {
        State::try_from(slot_state(s, h, i + 1))?;
    }
    Ok(())
}

// A link leads from a location that is there to another.
#[tactic(auto, unfolding(crate::specs::Faults::link_fault, lists::specs::Lists::on))]
pub fn judge_link(l: Link, n: usize) -> Result<(), Refusal>
    ensures { fault_of result ≡ link_fault n l }
{
    if n < l.from || n < l.to {
        return Err(Refusal::Link);
    }
    Ok(())
}

// Each link does, where W is the width of a location: it is told as a constant, so that the loop is compiled for each edition by itself.
fn judge_links<const W: usize>(s: &[u8], h: Header) -> Result<(), Refusal>
    requires { Limited h × (W ≡ h.edition.location_bits) }
    ensures { fault_of result ≡ first (map (link_fault h.slots) (picture_with h s.now).links) }
{
    for i in 0..h.links {
        judge_link(nth_link(s, h, W, i), h.slots)?;
    }
    Ok(())
}

// A service link leads from a location that is there to an endpoint that is: the location is judged before the endpoint.
#[tactic(auto, unfolding(crate::specs::Faults::service_link_fault, lists::specs::Lists::on, lists::specs::Lists::first))]
pub fn judge_service_link(l: Link, n: usize, d: usize) -> Result<(), Refusal>
    ensures { fault_of result ≡ service_link_fault n d l }
{
    if n < l.from {
        return Err(Refusal::ServiceLocation);
    }
    if l.to == 0 || d < l.to {
        return Err(Refusal::ServiceEndpoint);
    }
    Ok(())
}

// Each service link does, with the width told as for the links.
fn judge_service_links<const W: usize>(s: &[u8], h: Header) -> Result<(), Refusal>
    requires { Limited h × (W ≡ h.edition.location_bits) }
    ensures { fault_of result ≡ first (map (service_link_fault h.slots h.endpoints) (picture_with h s.now).service_links) }
{
    for i in 0..h.service_links {
        judge_service_link(nth_service_link(s, h, W, i), h.slots, h.endpoints)?;
    }
    Ok(())
}

// Zero bits up to the byte, then the end.
fn end_right(s: &[u8], h: Header) -> bool
    requires { Limited h }
    ensures { result ≡ end_right h s.now }
{
    let size = size_of(h);
    let end = find_places(h).end;
    bits::field(s, end, size * 8 - end) == 0 && s.len() == size
}

// The parts after the header, in bytes that are long enough for them.
fn judge_body<const W: usize>(s: &[u8], h: Header) -> Result<(), Refusal>
    requires { Limited h × (W ≡ h.edition.location_bits) }
    ensures { fault_of result ≡ first (body_faults h (picture_with h s.now) s.now) }
{
    judge_states(s, h)?;
    judge_links::<W>(s, h)?;
    judge_service_links::<W>(s, h)?;
    if !end_right(s, h) {
        return Err(Refusal::Fill);
    }
    Ok(())
}

// What follows the edition: the sizes and counts of the header, and then the parts.
fn judge_sizes(s: &[u8], h: Header) -> Result<(), Refusal>
    requires { Known h.edition }
    ensures { fault_of result ≡ first (drop 3 (faults_with h (picture_with h s.now) s.now)) }
{
    if !sizes_right(h) {
        return Err(Refusal::Blocks);
    }
    if !counts_right(h) {
        return Err(Refusal::Counts);
    }
    if s.len() < size_of(h) {
        return Err(Refusal::Short);
    }
    if h.edition.location_bits == LOCATION_BITS {
        judge_body::<LOCATION_BITS>(s, h)
    } else {
        judge_body::<WIDE_LOCATION_BITS>(s, h)
    }
}

// All of a picture, by its header.
fn judge(s: &[u8], h: Header) -> Result<(), Refusal>
    requires { Known h.edition }
    ensures { fault_of result ≡ first (faults_with h (picture_with h s.now) s.now) }
{
    if s.len() < LEAST_BYTES {
        return Err(Refusal::Short);
    }
    if bits::field(s, 0, EDITION_BITS) != h.edition.number {
        return Err(Refusal::Edition);
    }
    if s.len() < slots_at(h.edition) / 8 {
        return Err(Refusal::Short);
    }
    judge_sizes(s, h)
}

// Reads a picture of any bytes: the header's numbers, or the first fault.
pub fn read(s: &[u8]) -> Result<Header, Refusal>
    ensures answer { result ≡ reading s.now }
    ensures numbers { reading_numbers result ≡ outcome (picture_fault s.now) (header_values (header_of s.now)) }
{
    Ok(Picture::read(s)?.header())
}
