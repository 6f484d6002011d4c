// A walk over links between locations by levels: the parent and the depth of every slot that chains from the origin reach.
#![tactic(auto)]

ghost use Rattle.std.specs.Prelude.{◌<◌, eqb};
ghost use Rattle.rows.specs.Rows.{marked, linked_in, in_word, Narrow, marks_max};
ghost use Rattle.rows.specs.Ranges.{no_range, without};
ghost use Rattle.graph.specs.Held.{held_in, SlotsOnly};
ghost use Rattle.graph.specs.Steps.{Walked};
ghost use Rattle.graph.specs.Sweeps.{Locations, Whole, Ready, Entered, WordSwept, Swept};

use rows::{LOCATIONS, Range, Row, SLOTS, WORDS};

// No chain of fewest links steps to a slot twice.
// Kept: u16 has no From<usize>, and no `try_from` may be called in a constant.
const DEEPEST: u16 = SLOTS as u16;

// An entry of a forest (01: the parent and the depth of a slot).
#[derive(Clone, Copy)]
pub struct Node {
    pub parent: usize,
    pub depth: usize,
}

// The entries of all locations, and a row of what is reached.
// Kept: parents and depths in two arrays, the form that is asked for.
#[derive(Clone, Copy)]
pub struct Forest {
    pub parent: [u16; LOCATIONS],
    pub depth: [u16; LOCATIONS],
    pub reached: Row,
}

// How far a walk has come: the held slots that have no entry yet, and the entries of all locations. With the forest before them choose takes a
// quarter more at full size.
// Kept: contracts say that it is `Ready`; for an invariant the words would have to be in it, and choose then takes 9 % more on a long chain.
#[derive(Drop)]
struct Walker {
    fresh: Row,
    forest: Forest,
}

// What a level is swept by: how many words of a row can have marks, the range whose slots stay as they are, and the depth that the others get.
#[derive(Clone, Copy)]
struct Level {
    words: usize,
    block: Range,
    depth: u16,
}

impl Forest {
    // The slots that are marked in a word, whose first place is location base, get the parent u and the depth d.
    #[tactic(auto, using(crate::proofs::Entries::next_inside))]
    fn enter(&mut self, word: u64, base: usize, u: u16, d: u16)
        requires locations { Locations (in_word word base) }
        requires whole { Whole self.old }
        ensures { Entered (in_word word base) u d self.old self.new }
    {
        let mut w = word;
        // Kept: no index is counted, each round takes the lowest mark off; an iterator that gives the marks would be longer.
        while w != 0 {
            // Kept: usize has no From<u32>, here and in the sweep.
            let v = base + w.trailing_zeros() as usize;
            self.parent[v] = u;
            self.depth[v] = d;
            w &= w - 1;
        }
    }

    // One word of a row, whose first place is location base: the fresh slots that it marks get the parent u and the level's depth, and those that
    // are left are fresh still. Those of the level's range stay as they are.
    fn sweep_at(&mut self, word: u64, fresh: u64, base: usize, u: u16, level: Level) -> u64
        requires { Locations (in_word fresh base) × Whole self.old × (base < marks_max) }
        ensures { WordSwept level word fresh base u self.old self.new result }
    {
        let found = rows::leave_out(word & fresh, base, level.block);
        if found == 0 {
            return fresh;
        }
        self.enter(found, base, u, level.depth);
        fresh ^ found
    }
}

impl Walker {
    // One row: the fresh slots that are marked in it get the parent u and the level's depth, and are fresh no more. Those of the level's range
    // stay as they are.
    fn sweep_row(&mut self, row: Row, u: u16, level: Level)
        requires { Ready level.words self.old }
        ensures { Swept level (eqb u) (λ _. marked row) self.old self.new }
    {
        for k in 0..WORDS {
            if rows::is_end(k, level.words) {
                break;
            }
            let fresh = self.fresh[k];
            self.fresh[k] = self.forest.sweep_at(row[k], fresh, k * 64, u, level);
        }
    }

    // The rows of the locations that are marked in a word, in rising order.
    #[tactic(auto, using(crate::proofs::Entries::next_inside))]
    fn sweep_word(&mut self, links: &[Row; LOCATIONS], word: u64, base: usize, level: Level)
        requires locations { Locations (in_word word base) }
        requires ready { Ready level.words self.old }
        ensures { Swept level (in_word word base) (linked_in links.now) self.old self.new }
    {
        let mut w = word;
        // Kept: as in `enter`.
        while w != 0 {
            let u = base + w.trailing_zeros() as usize;
            // Kept: `u` is proved to fit, and `try_from` with `unwrap` says no more.
            self.sweep_row(links[u], u as u16, level);
            w &= w - 1;
        }
    }

    // One level: the rows of the frontier, in rising order.
    fn sweep_frontier(&mut self, links: &[Row; LOCATIONS], frontier: Row, level: Level)
        requires locations { Locations (marked frontier) × Narrow level.words frontier }
        requires ready { Ready level.words self.old }
        ensures { Swept level (marked frontier) (linked_in links.now) self.old self.new }
    {
        for i in 0..level.words {
            self.sweep_word(links, frontier[i], i * 64, level);
        }
    }
}

// The forest of the chains over the links through those of the slots 1 to n that are held, but for those of a range. These are told by their
// numbers where they would be entered, so `fresh` keeps their marks to the end.
fn walk_over(links: &[Row; LOCATIONS], held: Row, n: usize, block: Range) -> Forest
    requires { SlotsOnly n held }
    ensures { Walked (linked_in links.now) (without block (held_in held)) (marked result.reached) result.parent result.depth }
{
    let words = rows::words_for(n);
    let mut walker = Walker {
        fresh: held,
        forest: Forest {
            parent: [0; LOCATIONS],
            depth: [0; LOCATIONS],
            reached: [0; WORDS],
        },
    };
    let mut frontier = [0u64; WORDS];
    frontier[0] = 1;
    for depth in 1..=DEEPEST {
        if rows::none_marked(frontier, words) {
            break;
        }
        let before = walker.fresh;
        let level = Level {
            words,
            block,
            depth,
        };
        walker.sweep_frontier(links, frontier, level);
        frontier = rows::differ(before, walker.fresh, words);
    }
    walker.forest.reached = rows::differ(held, walker.fresh, words);
    walker.forest.reached[0] |= 1;
    walker.forest
}

// The walks take their table by value and lend it, so that the compiler need not copy it: through the held slots,
pub fn walk(links: [Row; LOCATIONS], held: Row, n: usize) -> Forest
    requires { SlotsOnly n held }
    ensures { Walked (linked_in links) (without no_range (held_in held)) (marked result.reached) result.parent result.depth }
{
    walk_over(&links, held, n, rows::no_range())
}

// and through those that are not of a range.
pub fn walk_without(links: [Row; LOCATIONS], held: Row, n: usize, block: Range) -> Forest
    requires { SlotsOnly n held }
    ensures { Walked (linked_in links) (without block (held_in held)) (marked result.reached) result.parent result.depth }
{
    walk_over(&links, held, n, block)
}
