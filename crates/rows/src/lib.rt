// Rows of marks, 64 to a word: sets of locations; and ranges of locations by their numbers.
#![tactic(auto)]

ghost use Rattle.std.specs.Prelude.{Bool, ◌≡◌, ℕ, ◌+◌, ◌-◌, ◌≤◌, ◌<◌, length};
ghost use Rattle.lists.specs.Lists.{range, any};
ghost use Rattle.rows.specs.Ranges.{no_range, UpTo, LeftOut};
ghost use Rattle.rows.specs.Rows.{marked, words_for, Narrow, With, Linked, Differ, Minus, NoneMarked, Meet, Made, marks_max, row_words};

// The slots that rows have a place for.
pub const SLOTS: usize = 320;
// Locations are 0, the origin, and the slots from 1 on.
pub const LOCATIONS: usize = SLOTS + 1;
// The words of a row, with 64 marks each.
pub const WORDS: usize = 6;
// Most rows need no more than these.
const FEW_WORDS: usize = 4;

// A row: its marks are the digits of its words, the lowest of the first word for location 0.
pub type Row = [u64; WORDS];

// Locations by their numbers: those above the first number, up to the second (01: the slots of a block).
#[derive(Clone, Copy)]
pub struct Range {
    pub after: usize,
    pub last: usize,
}

// The words that the locations 0 to n take.
#[tactic(auto, unfolding(crate::specs::Rows::words_for))]
pub fn words_for(n: usize) -> usize
    ensures { result ≡ words_for n }
{
    n / 64 + 1
}

// Whether a loop over the words of rows can end at word i, because none from there on can have marks. It looks at one place alone: the loop
// then ends there or behind the last word, and is compiled without a test for each word.
pub fn is_end(i: usize, words: usize) -> bool
    ensures { result ≡ Bool.true → words ≤ i }
{
    i == FEW_WORDS && words <= FEW_WORDS
}

// Whether v is marked.
#[tactic(auto, using(std::proofs::lemmas::Nat::Bits::shr_and_one), unfolding(crate::specs::Rows::marked))]
pub fn has(row: &Row, v: usize) -> bool
    requires { v < marks_max }
    ensures { result ≡ marked row.now v }
{
    (row[v / 64] >> (v % 64)) & 1 == 1
}

// The row marks v too.
#[tactic(auto, using(crate::proofs::Marks::with_mark))]
pub fn add(row: &mut Row, v: usize)
    requires { v < marks_max }
    ensures { With row.old v row.new }
{
    row[v / 64] |= 1 << (v % 64);
}

// Row a gets the mark b: a link from a to b. A second mark of the same link changes nothing.
#[tactic(auto, using(crate::proofs::Marks::with_link))]
pub fn mark(rows: &mut [Row], a: usize, b: usize)
    requires { (a < length rows.old) × (b < marks_max) }
    ensures { Linked rows.old a b rows.new }
{
    add(&mut rows[a], b);
}

// Kept: how many words have marks goes beside the rows, here and in their callers: with it in the walker choose took 9 % more on a long chain.
// A row made word by word of two others, up to where none have marks. As a call it would cost the walk 2 of 100 instructions and some stack.
#[inline(always)]
fn word_by_word<F: Fn(u64, u64) -> u64>(one: Row, other: Row, words: usize, op: F) -> Row
    requires few { words ≤ row_words }
    requires callable { F.IsAlwaysCallable op }
    ensures { (end : ℕ) × (words ≤ end) × Made (F.post op) one other result end }
{
    let mut row = [0u64; WORDS];
    for i in 0..WORDS {
        if is_end(i, words) {
            break;
        }
        row[i] = op(one[i], other[i]);
    }
    row
}

// What one of two rows marks and the other does not.
pub fn differ(before: Row, after: Row, words: usize) -> Row
    requires { Narrow words before × Narrow words after }
    ensures { Differ before after result }
{
    word_by_word(before, after, words, |a, b| a ^ b)
}

// What the first row marks and the second does not.
pub fn minus(row: Row, less: Row, words: usize) -> Row
    requires { Narrow words row }
    ensures { Minus row less result }
{
    word_by_word(row, less, words, |a, b| a & !b)
}

// Whether a row marks nothing.
pub fn none_marked(row: Row, words: usize) -> bool
    requires { Narrow words row }
    ensures { NoneMarked row result }
{
    for i in 0..WORDS {
        if is_end(i, words) {
            break;
        }
        if row[i] != 0 {
            return false;
        }
    }
    true
}

// Whether two rows have a mark in common, of which the second has none but in its first words. All of these are looked at, since a branch for
// each costs more.
// Kept: `none_marked` of a row made by `word_by_word` proves, but takes 24 instructions for each endpoint that is weighed in place of 20.
pub fn meet(row: &Row, other: &Row, words: usize) -> bool
    requires { Narrow words other.now }
    ensures { Meet (marked row.now) (marked other.now) result }
{
    let mut common: u64 = 0;
    for i in 0..WORDS {
        if is_end(i, words) {
            break;
        }
        common |= row[i] & other[i];
    }
    common != 0
}

// The range of no location.
pub fn no_range() -> Range
    ensures { result ≡ no_range }
{
    Range { after: 0, last: 0 }
}

// Whether a row marks a location of a range.
pub fn marks_any(row: &Row, r: Range) -> bool
    requires { r.last < marks_max }
    ensures { result ≡ any (marked row.now) (range (r.after + 1) (r.last - r.after)) }
{
    (r.after..r.last).any(|v| has(row, v + 1))
}

// The word whose first place is location base, with every location up to v marked.
// Kept: two early returns, since `if` and `else` as one value take 27 instructions for a word before the range in place of 15.
fn up_to(base: usize, v: usize) -> u64
    requires { base < marks_max }
    ensures { UpTo base v result }
{
    if v < base {
        return 0;
    }
    if base + 63 <= v {
        return u64::MAX;
    }
    (2 << (v - base)) - 1
}

// The marks of a word, whose first place is location base, but for those of a range: these are told by their numbers.
// Kept: a word and its first place are two numbers, here and in the walk; a struct of both would be made for each word.
#[tactic(auto, using(crate::proofs::Ranges::left_out))]
pub fn leave_out(word: u64, base: usize, r: Range) -> u64
    requires { base < marks_max }
    ensures { LeftOut r word base result }
{
    let places = up_to(base, r.last) & !up_to(base, r.after);
    word & !places
}
