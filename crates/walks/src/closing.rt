// After the walk: whether the header says what was found, and whether every slot that was not visited is zero.
ghost use Rattle.std.specs.Prelude.{◌≡◌, ◌+◌, ◌*◌, ◌<◌, ◌≤◌, length, MatchOption};
ghost use Rattle.base.specs.Tells.{Tells};
ghost use Rattle.trees.specs.Area.{slot_size, max_slots, area_size};
ghost use Rattle.walks.specs.Closing.{visited_run, Heads, Clear, ClearTo, VisitedFrom, Run};

// The marks of four slots that were visited, as a four-byte number.
const FOUR_MARKS: usize = 0x01010101;

// So many slots at once are seen to be visited, and so many to be zero.
const VISITED_RUN: usize = 64;

const FREE_RUN: usize = 16;

// Whether the header has its mark and zeros, and says so many nodes and tokens.
pub fn heads(area: &[u8], used: usize, tokens: usize) -> bool
    requires { (slot_size ≤ length area.now) × (used < 65536) × (tokens < 65536) }
    ensures { Tells (Heads area.now used tokens) result }
{
    area[0] == trees::TREE_MARK
        && area[1] == trees::TREE_MARK_END
        && base::two(area, trees::USED_PLACE) == used
        && base::two(area, trees::TOKENS_PLACE) == tokens
        && base::all_zero(&area[trees::HEADER_SPARE..trees::HEADER_SIZE])
}

// Whether slot s was visited, or is zero.
fn clear(area: &[u8], marks: &[u8], s: usize) -> bool
    requires { (slot_size * s + slot_size ≤ length area.now) × (s < length marks.now) }
    ensures { Tells (Clear area.now marks.now s) result }
{
    let at = trees::SLOT_SIZE * s;
    marks[s] != 0 || base::all_zero(&area[at..at + trees::SLOT_SIZE])
}

// Whether the next slots from s on were visited.
fn all_visited(marks: &[u8], s: usize) -> bool
    requires { s + visited_run ≤ length marks.now }
    ensures { Tells (VisitedFrom marks.now s visited_run) result }
{
    base::same(&marks[s..s + VISITED_RUN], &[1; VISITED_RUN])
}

// How many slots from s on are seen at once to be clear: a run that was visited, four that were visited, a run that is zero, or slot s alone. None where it is not clear.
fn run_of(area: &[u8], marks: &[u8], s: usize, slots: usize) -> Option<usize>
    requires { (slots ≤ max_slots) × (length area.now ≡ area_size slots) × (slots < length marks.now) × (s ≤ slots) }
    ensures { MatchOption result (Clear area.now marks.now s → ⊥) (λ r. (0 < r) × Run area.now marks.now s slots r) }
{
    if s + FREE_RUN <= slots + 1 {
        let first = base::four(marks, s);
        if first == FOUR_MARKS {
            if s + VISITED_RUN <= slots + 1 && all_visited(marks, s) {
                return Some(VISITED_RUN);
            }
            return Some(4);
        }
        let others = base::four(marks, s + 4)
            + base::four(marks, s + 8)
            + base::four(marks, s + 12);
        let at = trees::SLOT_SIZE * s;
        if first + others == 0 && base::all_zero(&area[at..at + FREE_RUN * trees::SLOT_SIZE]) {
            return Some(FREE_RUN);
        }
    }
    clear(area, marks, s).then_some(1)
}

// Whether every slot was visited, or is zero.
pub fn all_clear(area: &[u8], marks: &[u8], slots: usize) -> bool
    requires { (slots ≤ max_slots) × (length area.now ≡ area_size slots) × (slots < length marks.now) }
    ensures { Tells (ClearTo area.now marks.now (slots + 1)) result }
{
    let mut s: usize = 1;
    // A `while`: the step is 1, 4, 16 or 64 slots, which no range counts.
    while s <= slots {
        let Some(run) = run_of(area, marks, s, slots) else {
            return false;
        };
        s += run;
    }
    true
}
