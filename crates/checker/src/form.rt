// The form of evidence for a picture: its length, the numbers of its head, and a section for each candidate.
ghost use Rattle.std.specs.Prelude.{◌≡◌, ◌/◌, ◌≤◌};
ghost use Rattle.picture.specs.Rules.{Sizes};
ghost use Rattle.picture.specs.Inner.{Limited};
ghost use Rattle.network.specs.Rows.{blocks_marked};
ghost use Rattle.evidence.specs.Checks.{head_right, section_right};
ghost use Rattle.checker.specs.Form.{form_of};

use picture::Header;
use rows::Row;

// Whether section i is of block b and has a mark of 0 or 1.
#[tactic(auto, unfolding(evidence::specs::Checks::section_right))]
fn section_right(ev: &[u8], h: Header, i: usize, b: usize) -> bool
    requires { Limited h × (i ≤ 255) }
    ensures { result ≡ section_right h.edition h.slots ev.now i b }
{
    let w = evidence::section_of(ev, h, i);
    w.block == b && w.mark <= 1
}

// Whether length, edition, verdict and count are right for so many candidates.
#[tactic(auto, unfolding(evidence::specs::Checks::head_right))]
fn head_right(ev: &[u8], h: Header, count: usize) -> bool
    requires { Limited h × (count ≤ 255) }
    ensures { result ≡ head_right h.edition h.slots ev.now count }
{
    let head = evidence::head_of(ev);
    ev.len() == evidence::evidence_bytes(h, count)
        && head.edition == h.edition.number
        && head.verdict <= 1
        && head.count == count
}

// How many candidates there are by the row of the held near slots, if the evidence has the form for them.
// Kept: the number of the next section is counted, since blocks that are no candidates have none.
#[tactic(auto, using(crate::proofs::Forms::forming_wrong, crate::proofs::Forms::forming_ended))]
pub fn form_of(ev: &[u8], h: Header, near: Row) -> Option<usize>
    requires { Limited h × Sizes h }
    ensures { result ≡ form_of h.edition h.slots ev.now (blocks_marked near h.block_size (h.slots / h.block_size)) }
{
    let size = h.block_size;
    let mut count: usize = 0;
    for b in 0..h.slots / size {
        if network::is_candidate(&near, size, b) {
            if !section_right(ev, h, count, b) {
                return None;
            }
            count += 1;
        }
    }
    head_right(ev, h, count).then_some(count)
}
