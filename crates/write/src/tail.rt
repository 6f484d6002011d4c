// Where a picture that is being written ends, and the fields that follow there.
#![tactic(auto)]

ghost use Rattle.std.specs.Prelude.{◌%◌, ◌^◌, ◌<◌};

// The bit up to which a buffer is written. The last bits before it, which fill no byte yet, are held as a number and stand in no byte.
#[derive(Clone, Copy)]
pub struct Tail {
    pub at: usize,
    pub held: usize,
    pub ghost few: { held < 2 ^ (at % 8) },
}

// Kept: the buffer is lent to each step and not held: a tail with the buffer in it is seen with all its bytes wherever it is named.
impl Tail {
    ghost use Rattle.std.specs.Prelude.{[], ◌∷◌};
    ghost use Rattle.lists.specs.Lists.{flat};
    ghost use Rattle.packing.specs.Packing.{fields_of};
    ghost use Rattle.write.specs.Tails.{Room, FieldFits, PairFits, RowsFit, RowsAre, Pushed, Follows, fill_bits, Filled};

    // A field behind what is written.
    pub fn push(self, buf: &mut [u8], width: usize, value: usize) -> Tail
        requires { FieldFits self width value buf.old }
        ensures digits { Pushed buf.old self width value buf.new result }
        ensures follows { Follows buf.old self (fields_of (width ∷ []) (value ∷ [])) buf.new result }
    {
        let held = bits::push_field(buf, self.at, self.held, width, value);
        Tail {
            at: self.at + width,
            held,
        }
    }

    // Two adjacent fields, written as one.
    pub fn push_pair(
        self,
        buf: &mut [u8],
        first_bits: usize,
        second_bits: usize,
        first: usize,
        second: usize,
    ) -> Tail
        requires { PairFits self first_bits second_bits first second buf.old }
        ensures { Follows buf.old self (fields_of (first_bits ∷ second_bits ∷ []) (first ∷ second ∷ [])) buf.new result }
    {
        self.push(
            buf,
            first_bits + second_bits,
            (first << second_bits) | second,
        )
    }

    // Rows of two fields each, which `row` reads by their number.
    pub fn push_rows<F: Fn(usize) -> (usize, usize)>(
        self,
        buf: &mut [u8],
        first_bits: usize,
        second_bits: usize,
        count: usize,
        row: F,
    ) -> Tail
        requires { RowsFit self first_bits second_bits count (F.pre row) (F.post row) buf.old }
        ensures { (rows : _) → RowsAre first_bits second_bits count (F.post row) rows → Follows buf.old self (flat rows) buf.new result }
    {
        let mut tail = self;
        for i in 0..count {
            let (first, second) = row(i);
            tail = tail.push_pair(buf, first_bits, second_bits, first, second);
        }
        tail
    }

    // Zero bits up to the byte, behind the last field.
    pub fn push_fill(self, buf: &mut [u8])
        requires { Room self (fill_bits self.at) buf.old }
        ensures { Filled buf.old self buf.new }
    {
        let fill = (self.at + 7) / 8 * 8 - self.at;
        self.push(buf, fill, 0);
    }
}
