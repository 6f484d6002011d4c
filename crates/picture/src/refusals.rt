// The numbers of refusals, for every layer, by the names of the header for C. Every call judges the picture first (1 to 7, 17 and 18),
// write the lists of one (2 to 6, 17 and 18), and generate its sizes (3 and 4).
ghost use Rattle.std.specs.Prelude.{◌≡◌, Some};
ghost use Rattle.picture.specs.Refusals.{refusal_number, refusal_text};

use std::fmt;

// Why a call is refused.
#[derive(Clone, Copy, Debug, PartialEq, Eq)]
pub enum Refusal {
    // The picture is shorter than a header, or than its header says.
    Short,
    // Its edition is neither 1 nor 2.
    Edition,
    // Block size, slots or number of blocks out of range, or slots not a multiple of the block size. Write: columns of slots that differ in length,
    // or a near limit that the header has no room for.
    Blocks,
    // Number of endpoints, links or service links out of range. Write: columns of endpoints that differ in length. Generate: service links, and no
    // endpoint.
    Counts,
    // A slot in state 3, or above.
    State,
    // An end of a link is above n.
    Link,
    // Fill bits not zero, or bytes left.
    Fill,
    // Weigh and the acts: no block of this number.
    NoBlock,
    // Choose, write, generate: the buffer is under the length of the evidence, or of the picture. Price for C: there are fewer than sixty counters.
    Buffer,
    // Evict, free: a protected endpoint would be cut. Free: one would lose its last chain through held or recoverable slots.
    Protected,
    // The acts: no slot would change.
    NoChange,
    // Reload: it adds a held near slot, and more than the near limit would be held.
    Near,
    // Check: length, edition or candidate count wrong, a section of another block, a verdict or mark over 1.
    Form,
    // Check: a forest breaks its rules.
    Forest,
    // Check: served weight, a loss or a mark is wrong.
    Weight,
    // Check: verdict, block or loss is not what sections and forests imply.
    Verdict,
    // The location of a service link is above n.
    ServiceLocation,
    // The endpoint of a service link is 0 or above D.
    ServiceEndpoint,
    // Price: a link starts elsewhere than at the origin.
    LinkStart,
    // Price: the length of the records is no multiple of three, or there are more than 60,000.
    Records,
    // Price: the endpoint of a record is 0 or above D.
    RecordEndpoint,
}

impl Refusal {
    // Its number.
    // Kept: a match, so that each number stands beside its refusal.
    pub fn number(self) -> u8
        ensures { result ≡ refusal_number self }
    {
        match self {
            Refusal::Short => 1,
            Refusal::Edition => 2,
            Refusal::Blocks => 3,
            Refusal::Counts => 4,
            Refusal::State => 5,
            Refusal::Link => 6,
            Refusal::Fill => 7,
            Refusal::NoBlock => 8,
            Refusal::Buffer => 9,
            Refusal::Protected => 10,
            Refusal::NoChange => 11,
            Refusal::Near => 12,
            Refusal::Form => 13,
            Refusal::Forest => 14,
            Refusal::Weight => 15,
            Refusal::Verdict => 16,
            Refusal::ServiceLocation => 17,
            Refusal::ServiceEndpoint => 18,
            Refusal::LinkStart => 19,
            Refusal::Records => 20,
            Refusal::RecordEndpoint => 21,
        }
    }
}

// What the program that makes pictures says of one.
impl fmt::Display for Refusal {
    ghost output = { λ e. Some (refusal_text e) };

    fn fmt<W: fmt::Write>(&self, f: &mut fmt::Formatter<W>) -> fmt::Result {
        write!(f, "refused {}", self.number())
    }
}
