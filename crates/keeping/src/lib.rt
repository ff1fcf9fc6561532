// The slots of the new tree's nodes: matched nodes keep those of their old nodes, the others get the lowest free ones.
// Both trees' nodes, the matches and the marks stand in the one work area (`notes`).
#![tactic(auto)]

ghost use Rattle.std.specs.Prelude.{◌≡◌, ◌+◌, ◌<◌, ◌≤◌, max, length, get_or};
ghost use Rattle.trees.specs.Area.{max_slots};
ghost use Rattle.notes.specs.Views.{notes_size, nodes_in, matches_in};
ghost use Rattle.notes.specs.Lists.{nodes_of, matches_of, marks_of, Same, Seen};
ghost use Rattle.keeping.specs.Matched.{slot_by, held_from, Old, Fit, HoldsSlot, Slot};
ghost use Rattle.keeping.specs.Marking.{Marks, Keeps};
ghost use Rattle.keeping.specs.Filling.{Lowest, Got, Gives};

use notes::Notes;

// The slot that node i of the new tree holds.
fn held(notes: &Notes, i: usize) -> Option<usize>
    requires { (i < notes.now.slots) × (get_or (matches_of notes.now) i 0 ≤ notes.now.slots) }
    ensures { HoldsSlot (slot_by (nodes_of notes.now) (get_or (matches_of notes.now) i 0)) result }
{
    let j = notes.match_of(i)?;
    match notes.slot_of(j) {
        0 => None,
        s => Some(s),
    }
}

// Marks the slots that the k nodes of the new tree hold, and answers how many they are.
fn hold_all(notes: &mut Notes, k: usize) -> usize
    requires { (k ≤ notes.old.slots) × Old notes.old.slots k (matches_of notes.old) × Fit notes.old.slots (nodes_of notes.old) (matches_of notes.old) k }
    ensures { Marks (nodes_of notes.old) (matches_of notes.old) k (marks_of notes.new) × Keeps (nodes_of notes.old) (matches_of notes.old) k result × Seen notes.old notes.new (nodes_of notes.old) (matches_of notes.old) (marks_of notes.new) }
{
    notes.clear_marks();
    let mut kept: usize = 0;
    for i in 0..k {
        let Some(s) = held(notes, i) else {
            continue;
        };
        notes.set_mark(s);
        kept += 1;
    }
    kept
}

// The first slot from s on that is not marked; a number beyond the slots where all are, since `Gives` has every node get some slot.
fn lowest_free(notes: &Notes, s: usize) -> usize
    ensures { Lowest (marks_of notes.now) notes.now.slots s result × (result ≤ max s (notes.now.slots + 1)) }
{
    let end = notes.slots + 1;
    for x in s..end {
        if notes.is_free(x) {
            return x;
        }
    }
    s.max(end)
}

// Gives node a its slot, h or the lowest free one from s on; answers from where on the next is looked for.
fn give_one(notes: &mut Notes, a: usize, h: Option<usize>, s: usize) -> usize
    requires { (a < notes.old.slots + notes.old.slots) × Slot h × (s < 65536) }
    ensures { Got (marks_of notes.old) notes.old.slots s h (nodes_of notes.old) a (nodes_of notes.new) result × Seen notes.old notes.new (nodes_of notes.new) (matches_of notes.old) (marks_of notes.old) × (result ≤ max s (notes.old.slots + 1) + 1) }
{
    match h {
        Some(x) => {
            notes.set_slot(a, x);
            s
        }
        None => {
            let x = lowest_free(notes, s);
            notes.set_slot(a, x);
            x + 1
        }
    }
}

// Gives the k nodes of the new tree their slots.
fn give_all(notes: &mut Notes, k: usize)
    requires { (k ≤ notes.old.slots) × Old notes.old.slots k (matches_of notes.old) × Fit notes.old.slots (nodes_of notes.old) (matches_of notes.old) k × Marks (nodes_of notes.old) (matches_of notes.old) k (marks_of notes.old) }
    ensures { Gives (nodes_of notes.old) notes.old.slots k (held_from (nodes_of notes.old) (matches_of notes.old) k 0) (nodes_of notes.new) × Same notes.old notes.new }
{
    let mut s: usize = 1;
    for i in 0..k {
        let h = held(notes, i);
        let a = notes.slots + i;
        s = give_one(notes, a, h, s);
    }
}

// Gives the new tree's k nodes, which stand from node `slots` on behind the old tree's, their slots, and answers how many are kept.
// Of each new node there is noted 0 or 1 + the number of the old node whose slot it keeps.
pub fn give_slots(work: &mut [u8], slots: usize, k: usize) -> usize
    requires { (slots ≤ max_slots) × (notes_size slots ≤ length work.old) × (k ≤ slots) × Old slots k (matches_in slots work.old) × Fit slots (nodes_in slots work.old) (matches_in slots work.old) k }
    ensures { Gives (nodes_in slots work.old) slots k (held_from (nodes_in slots work.old) (matches_in slots work.old) k 0) (nodes_in slots work.new) × Keeps (nodes_in slots work.old) (matches_in slots work.old) k result }
{
    let mut notes = Notes::new(work, slots);
    let kept = hold_all(&mut notes, k);
    give_all(&mut notes, k);
    kept
}
