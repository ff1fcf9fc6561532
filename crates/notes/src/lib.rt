// What an edit notes in the lent work area, behind both trees' nodes: of each node the index behind its subtree (`end`) and the number of its tokens (`width`), of each old
// token where its nodes begin (`start`), of each new node the old one whose slot it keeps (`match`), and a mark for each slot. One buffer holds them all and is read and
// written through these functions only; what they say is about lists, and each says which lists stay as they were.
#![tactic(auto)]

ghost use Rattle.std.specs.Prelude.{◌≡◌, ◌+◌, ◌*◌, ◌<◌, ◌≤◌, length, get_or, set};
ghost use Rattle.base.specs.Bytes.{get16, put16};
ghost use Rattle.base.specs.Blocks.{zeros};
ghost use Rattle.base.specs.Tells.{Tells};
ghost use Rattle.trees.specs.Area.{max_slots};
ghost use Rattle.trees.specs.Coded.{node_at};
ghost use Rattle.trees.specs.Listing.{in_slot, Put};
ghost use Rattle.notes.specs.Views.{note_size, match_place, note_at, marks_at, notes_size, entry_of};

// A note is four two-byte numbers; note x is of node x, of old token x and of new node x.
const NOTE_SIZE: usize = 8;

const END: usize = 0;

const WIDTH: usize = 2;

const START: usize = 4;

const MATCH: usize = 6;

// The old node of an entry, and its entry.
fn old_node(entry: usize) -> Option<usize>
    ensures { entry_of result ≡ entry }
{
    entry.checked_sub(1)
}

fn entry(v: Option<usize>) -> usize
    requires { entry_of v < 65536 }
    ensures { result ≡ entry_of v }
{
    v.map_or(0, |j| j + 1)
}

// A work area with room for the nodes and the notes of two trees of up to `slots` nodes.
#[derive(Drop)]
pub struct Notes<'a> {
    work: &'a mut [u8],
    pub slots: usize,
    ghost few: { slots ≤ max_slots },
    ghost room: { notes_size slots ≤ length work.now },
}

impl<'a> Notes<'a> {
    ghost use Rattle.notes.specs.Lists.{nodes_of, ends_of, widths_of, starts_of, matches_of, marks_of, Lent, Same, Viewed, Seen};

    pub fn new(work: &'a mut [u8], slots: usize) -> Self
        requires { (slots ≤ max_slots) × (notes_size slots ≤ length work.old) }
        ensures { (result.work.ghost_name ≡ work.entry.ghost_name) × Lent result slots work.old }
    {
        Notes { work, slots }
    }

    // Where note x stands: behind the nodes of both trees.
    fn note_at(&self, x: usize) -> usize
        requires { x ≤ self.now.slots + self.now.slots + 1 }
        ensures { result ≡ note_at self.now.slots x }
    {
        trees::NODE_SIZE * (self.slots + self.slots) + NOTE_SIZE * x
    }

    // Where the marks begin: behind the last note.
    fn marks_at(&self) -> usize
        ensures { result ≡ marks_at self.now.slots }
    {
        self.note_at(self.slots + self.slots + 1)
    }

    // Fields of node x of both lists, the new tree's from node `slots` on; a method each, since `trees` has a function for each of them.
    pub fn symbol_of(&self, x: usize) -> usize
        requires { x < self.now.slots + self.now.slots }
        ensures { (result ≡ (node_at (nodes_of self.now) x).symbol) × (result < 256) }
    {
        trees::symbol_of(self.work, x)
    }

    pub fn production_of(&self, x: usize) -> usize
        requires { x < self.now.slots + self.now.slots }
        ensures { (result ≡ (node_at (nodes_of self.now) x).production) × (result < 256) }
    {
        trees::production_of(self.work, x)
    }

    pub fn slot_of(&self, x: usize) -> usize
        requires { x < self.now.slots + self.now.slots }
        ensures { (result ≡ (node_at (nodes_of self.now) x).slot) × (result < 65536) }
    {
        trees::slot_of(self.work, x)
    }

    // Gives node x the slot s.
    pub fn set_slot(&mut self, x: usize, s: usize)
        requires { (x < self.old.slots + self.old.slots) × (s < 65536) }
        ensures { Put (nodes_of self.old) x (in_slot s (node_at (nodes_of self.old) x)) (nodes_of self.new) × Seen self.old self.new (nodes_of self.new) (matches_of self.old) (marks_of self.old) }
    {
        trees::set_slot(self.work, x, s);
    }

    // A number of note x, read and written.
    fn number<const PLACE: usize>(&self, x: usize) -> usize
        requires { (x ≤ self.now.slots + self.now.slots) × (PLACE ≤ match_place) }
        ensures { (result ≡ get16 self.now.work.now (note_at self.now.slots x + PLACE)) × (result < 65536) }
    {
        base::two(self.work, self.note_at(x) + PLACE)
    }

    fn set_number<const PLACE: usize>(&mut self, x: usize, v: usize)
        requires { (x ≤ self.old.slots + self.old.slots) × (PLACE ≤ match_place) × (v < 65536) }
        ensures { Same self.old self.new × (self.new.work.now ≡ put16 self.old.work.now (note_at self.old.slots x + PLACE) v) }
    {
        let at = self.note_at(x) + PLACE;
        base::put_two(self.work, at, v);
    }

    // Of node x the index behind its subtree, and the number of its tokens; where the nodes of old token u begin; the old node whose slot new node i keeps.
    pub fn end_of(&self, x: usize) -> usize
        requires { x < self.now.slots + self.now.slots }
        ensures { (result ≡ get_or (ends_of self.now) x 0) × (result < 65536) }
    {
        self.number::<END>(x)
    }

    pub fn width_of(&self, x: usize) -> usize
        requires { x < self.now.slots + self.now.slots }
        ensures { (result ≡ get_or (widths_of self.now) x 0) × (result < 65536) }
    {
        self.number::<WIDTH>(x)
    }

    pub fn start_of(&self, u: usize) -> usize
        requires { u ≤ self.now.slots }
        ensures { (result ≡ get_or (starts_of self.now) u 0) × (result < 65536) }
    {
        self.number::<START>(u)
    }

    pub fn match_of(&self, i: usize) -> Option<usize>
        requires { i < self.now.slots }
        ensures { (entry_of result ≡ get_or (matches_of self.now) i 0) × (entry_of result < 65536) }
    {
        old_node(self.number::<MATCH>(i))
    }

    // The same written.
    pub fn set_span(&mut self, x: usize, end: usize, width: usize)
        requires { (x < self.old.slots + self.old.slots) × (end < 65536) × (width < 65536) }
        ensures { Viewed self.old self.new (nodes_of self.old) (set (ends_of self.old) x end) (set (widths_of self.old) x width) (starts_of self.old) (matches_of self.old) }
    {
        self.set_number::<END>(x, end);
        self.set_number::<WIDTH>(x, width);
    }

    pub fn set_start(&mut self, u: usize, v: usize)
        requires { (u ≤ self.old.slots) × (v < 65536) }
        ensures { Viewed self.old self.new (nodes_of self.old) (ends_of self.old) (widths_of self.old) (set (starts_of self.old) u v) (matches_of self.old) }
    {
        self.set_number::<START>(u, v);
    }

    pub fn set_match(&mut self, i: usize, v: Option<usize>)
        requires { (i < self.old.slots) × (entry_of v < 65536) }
        ensures { Viewed self.old self.new (nodes_of self.old) (ends_of self.old) (widths_of self.old) (starts_of self.old) (set (matches_of self.old) i (entry_of v)) }
    {
        self.set_number::<MATCH>(i, entry(v));
    }

    // No note; the marks stay.
    pub fn clear(&mut self)
        ensures { Viewed self.old self.new (nodes_of self.old) (zeros (self.old.slots + self.old.slots)) (zeros (self.old.slots + self.old.slots)) (zeros (self.old.slots + 1)) (zeros self.old.slots) }
    {
        let from = self.note_at(0);
        let to = self.marks_at();
        self.work[from..to].fill(0);
    }

    // The mark of slot s, 0 where it has none.
    pub fn mark_of(&self, s: usize) -> usize
        requires { s ≤ self.now.slots }
        ensures { (result ≡ get_or (marks_of self.now) s 0) × (result < 256) }
    {
        usize::from(self.work[self.marks_at() + s])
    }

    pub fn is_free(&self, s: usize) -> bool
        requires { s ≤ self.now.slots }
        ensures { Tells (get_or (marks_of self.now) s 0 ≡ 0) result }
    {
        self.mark_of(s) == 0
    }

    // Marks slot s.
    pub fn set_mark(&mut self, s: usize)
        requires { s ≤ self.old.slots }
        ensures { Seen self.old self.new (nodes_of self.old) (matches_of self.old) (set (marks_of self.old) s 1) }
    {
        let at = self.marks_at() + s;
        self.work[at] = 1;
    }

    // No mark; the notes stay.
    pub fn clear_marks(&mut self)
        ensures { Seen self.old self.new (nodes_of self.old) (matches_of self.old) (zeros (self.old.slots + 1)) }
    {
        let from = self.marks_at();
        self.work[from..from + self.slots + 1].fill(0);
    }
}
