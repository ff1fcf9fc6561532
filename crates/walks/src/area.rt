// A tree area of whatever bytes, slot by slot.
ghost use Rattle.std.specs.Prelude.{◌≡◌, ℕ, ◌<◌, ◌≤◌, length};
ghost use Rattle.base.specs.Bytes.{byte_at};
ghost use Rattle.base.specs.Tells.{Tells};
ghost use Rattle.trees.specs.Area.{max_slots, area_size};
ghost use Rattle.walks.specs.Slots.{first_in, next_in};
ghost use Rattle.walks.specs.Judging.{Looks, Hangs};

// A used slot's mark as a two-byte number.
const NODE_MARKS: usize = trees::NODE_MARK as usize + 256 * (trees::NODE_MARK_END as usize);

// The bytes of a header and of so many slots, each of them a byte.
#[derive(Clone, Copy)]
pub struct Area<'a> {
    pub bytes: &'a [u8],
    pub slots: usize,
    ghost few: { slots ≤ max_slots },
    ghost long: { length bytes.now ≡ area_size slots },
    ghost known: { (i : ℕ) → byte_at bytes.now i < 256 },
}

impl<'a> Area<'a> {
    // Whether slot s has a used slot's mark and zeros, and the symbol x. Mark and zeros are one number, so that one look tells both.
    pub fn looks(self, s: usize, x: usize) -> bool
        requires { s ≤ self.slots }
        ensures { Tells (Looks self.entry.bytes.now s x) result }
    {
        let at = trees::SLOT_SIZE * s;
        base::two(self.bytes, at + trees::SYMBOL_PLACE) % 256 == x
            && base::two(self.bytes, at) + 65536 * base::two(self.bytes, at + trees::SPARE_PLACE)
                == NODE_MARKS
    }

    // Whether slot s is below the slot `parent`, and has no first child where its children's symbols are those of the body 0. Parent and first child are one
    // four-byte number, so that one look tells both.
    pub fn hangs(self, s: usize, parent: usize, body: usize) -> bool
        requires { (s ≤ self.slots) × (parent < 65536) }
        ensures { Tells (Hangs self.entry.bytes.now s parent body) result }
    {
        let at = trees::SLOT_SIZE * s + trees::PARENT_PLACE;
        if body == 0 {
            base::four(self.bytes, at) == parent
        } else {
            base::two(self.bytes, at) == parent
        }
    }

    // Of slot s: its first child's slot and its next sibling's. Two lines of code: one function over the place would be longer.
    pub fn first_in(self, s: usize) -> usize
        requires { s ≤ self.slots }
        ensures { (result ≡ first_in self.entry.bytes.now s) × (result < 65536) }
    {
        base::two(self.bytes, trees::SLOT_SIZE * s + trees::FIRST_PLACE)
    }

    pub fn next_in(self, s: usize) -> usize
        requires { s ≤ self.slots }
        ensures { (result ≡ next_in self.entry.bytes.now s) × (result < 65536) }
    {
        base::two(self.bytes, trees::SLOT_SIZE * s + trees::NEXT_PLACE)
    }
}
