// What the program prints for a picture: the served weight, a line for each candidate and the choice, or a refusal. The numbers are read off
// the evidence that choose writes, so that nothing is weighed twice.
#![tactic(auto)]

ghost use Rattle.std.specs.Prelude.{◌≡◌, ◌≢◌, ◌++◌, ◌+◌, ◌^◌, ◌≤◌, ◌<◌, length, drop};
ghost use Rattle.picture.specs.Layout.{blocks_max};
ghost use Rattle.picture.specs.Inner.{Limited};
ghost use Rattle.picture.specs.Refusals.{refusal_number};
ghost use Rattle.evidence.specs.Contents.{head_in};
ghost use Rattle.listing.specs.Text.{text_max, line_max, HasRoom, Puts};
ghost use Rattle.listing.specs.Listing.{phrase, served_line, block_line, choice_line, refused_line, listing};
ghost use Rattle.listing.specs.ByEvidence.{evidence_lines};

use evidence::{EVIDENCE_MAX, Head, Stated};
use picture::{Header, Picture, Refusal};

// More than the longest text takes: 62 lines of at most 43 bytes.
pub const TEXT_MAX: usize = 4096;

// A text that is put into a buffer: it ends at byte `end` so far.
#[derive(Drop)]
struct Text<'a> {
    buf: &'a mut [u8],
    end: usize,
}

impl Text<'_> {
    // Puts a word.
    fn put_word(&mut self, word: &[u8])
        requires { HasRoom self.old (length word.now) }
        ensures { Puts self.old word.now self.new }
    {
        let end = self.end + word.len();
        self.buf[self.end..end].copy_from_slice(word);
        self.end = end;
    }

    // Puts a word and the number behind it, which has at most eight digits.
    // Kept: tried by `write!` over `impl fmt::Write`: its clause tells what is written only where it is Ok, and none tells when it is.
    fn put_phrase(&mut self, word: &[u8], number: usize)
        requires { (number < 10 ^ 8) × HasRoom self.old (length word.now + 8) }
        ensures text { Puts self.old (phrase word.now number) self.new }
        ensures short { self.new.end ≤ self.old.end + (length word.now + 8) }
    {
        let mut digits = [0u8; 20];
        // Kept: u64 has no From<usize>.
        let k = io::decimal(number as u64, &mut digits);
        self.put_word(word);
        self.put_word(&digits[..k]);
    }

    // Puts the line of the served weight.
    fn put_served_line(&mut self, weight: usize)
        requires { (weight < 10 ^ 8) × HasRoom self.old line_max }
        ensures { Puts self.old (served_line weight) self.new }
    {
        self.put_phrase(b"served ", weight);
        self.put_word(b"\n");
    }

    // Puts the line of a candidate.
    fn put_block_line(&mut self, w: Stated)
        requires { (w.block < 10 ^ 8) × (w.loss < 10 ^ 8) × (w.mark < 10 ^ 8) × HasRoom self.old line_max }
        ensures { Puts self.old (block_line w) self.new }
    {
        self.put_phrase(b"block ", w.block);
        self.put_phrase(b" lost ", w.loss);
        self.put_phrase(b" mark ", w.mark);
        self.put_word(b"\n");
    }

    // Puts the line of a choice that names a block.
    fn put_chosen_line(&mut self, head: Head)
        requires { (head.verdict ≢ 0) × (head.block < 10 ^ 8) × (head.loss < 10 ^ 8) × HasRoom self.old line_max }
        ensures { Puts self.old (choice_line head.verdict head.block head.loss) self.new }
    {
        self.put_phrase(b"choose ", head.block);
        self.put_phrase(b" lost ", head.loss);
        self.put_word(b"\n");
    }

    // Puts the line of the choice that the head of evidence states.
    #[tactic(auto, using(crate::proofs::Lines::choice_none))]
    fn put_choice_line(&mut self, head: Head)
        requires { (head.block < 10 ^ 8) × (head.loss < 10 ^ 8) × HasRoom self.old line_max }
        ensures { Puts self.old (choice_line head.verdict head.block head.loss) self.new }
    {
        if head.verdict == 0 {
            self.put_word(b"choose none\n");
        } else {
            self.put_chosen_line(head);
        }
    }

    // Puts all lines that the evidence tells of a picture with this header.
    fn put_lines(&mut self, ev: &[u8], h: Header)
        requires { Limited h × ((head_in ev.now).count ≤ blocks_max) × HasRoom self.old text_max }
        ensures { Puts self.old (evidence_lines h.edition h.slots ev.now) self.new }
    {
        let head = evidence::head_of(ev);
        self.put_served_line(head.served);
        for i in 0..head.count {
            self.put_block_line(evidence::section_of(ev, h, i));
        }
        self.put_choice_line(head);
    }

    // Puts all lines of an accepted picture.
    fn put_plan_lines(&mut self, p: &Picture)
        requires { HasRoom self.old text_max }
        ensures { Puts self.old (listing p.now) self.new }
    {
        let h = p.header();
        let mut space = [0u8; EVIDENCE_MAX];
        let plan = choose::make_plan(p);
        choose::write_evidence(p, plan, &mut space);
        self.put_lines(&space[..plan.length], h);
    }

    // Puts the line of a refusal.
    // Kept: its words, and not those of Display, for the reason at `put_phrase`.
    fn put_refused_line(&mut self, refusal: Refusal)
        requires { HasRoom self.old text_max }
        ensures { Puts self.old (refused_line (refusal_number refusal)) self.new }
    {
        self.put_phrase(b"refused ", usize::from(refusal.number()));
        self.put_word(b"\n");
    }
}

// Lists a picture of any bytes: the text from its first byte on, and its length.
// Kept: a lent buffer and a length, since there is no heap for a String.
pub fn list(s: &[u8], text: &mut [u8; TEXT_MAX]) -> usize
    ensures size { result ≡ length (listing s.now) }
    ensures bytes { text.new ≡ listing s.now ++ drop (length (listing s.now)) text.old }
{
    let mut out = Text { buf: text, end: 0 };
    match Picture::read(s) {
        Err(refusal) => out.put_refused_line(refusal),
        Ok(p) => out.put_plan_lines(&p),
    }
    out.end
}
