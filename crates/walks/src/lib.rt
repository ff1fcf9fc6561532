// Walking a tree area of whatever bytes back into the list of its nodes. A body is one number, its symbols the digits, so that the siblings to come are known without
// the rows. Siblings that wait while others' children are visited are a frame: the slot of the first of them, their parent's, and their symbols. The lent work area holds
// the nodes, behind room for a node for each slot the frames, and behind room for a frame more a mark for each slot, which tells whether it was visited.
// A slot is held against what is expected when it is visited, so that its symbol, production, parent and links are right; afterwards the header and the slots
// that were not visited are looked at.
#![tactic(auto)]

mod area;
mod closing;
mod words;

ghost use Rattle.base.specs.Bytes.{get16};
ghost use Rattle.std.specs.Prelude.{◌%◌, ◌≡◌, ◌+◌, ◌*◌, ◌<◌, ◌≤◌, length, set};
ghost use Rattle.base.specs.Blocks.{zeros};
ghost use Rattle.base.specs.Tells.{Tells};
ghost use Rattle.grammar.specs.Rows.{symbol_space, grammar_in};
ghost use Rattle.trees.specs.Area.{slot_size, max_slots, area_size, tag_space};
ghost use Rattle.walks.specs.Words.{word_count, Worded};
ghost use Rattle.walks.specs.Slots.{first_in, next_in};
ghost use Rattle.walks.specs.Judging.{Looks, Hangs, Kin, Visited};
ghost use Rattle.walks.specs.Stacked.{frame_size, frame_parent, rest_at, marks_at, walk_size, Framed, marks_in};
ghost use Rattle.walks.specs.Walking.{Wandered};
ghost use Rattle.walks.specs.Closing.{Reads};

use area::Area;
use grammar::Head;
use trees::Node;
use words::WORDS;

// A frame's slot and parent, two bytes each, and its symbols, eight.
const FRAME_SIZE: usize = 12;

const FRAME_PARENT: usize = 2;

const FRAME_REST: usize = 4;

// What a walk of the largest area takes.
pub const WALK_SIZE: usize = trees::NODE_SIZE * trees::MAX_SLOTS
    + FRAME_SIZE * (trees::MAX_SLOTS + 1)
    + trees::MAX_SLOTS
    + 1;

// The rows of a grammar with the words of its productions, and what its head says.
#[derive(Clone, Copy)]
struct Rules<'a> {
    rows: &'a [u8],
    words: &'a [usize; WORDS],
    head: Head,
}

// Siblings that are due: the slot of the first of them, their parent's, and their symbols as one number.
#[derive(Clone, Copy)]
struct Siblings {
    slot: usize,
    parent: usize,
    symbols: usize,
}

// A node is a leaf, or its children must have the symbols of this body. No `Option`: `kin` answers an `Option` of it, and a leaf lacks no body.
#[derive(Clone, Copy)]
enum Kids {
    Leaf,
    Body(usize),
}

// So many nodes, and leaves among them, were found by a walk.
#[derive(Clone, Copy)]
struct Walk {
    nodes: usize,
    leaves: usize,
}

impl<'a> Rules<'a> {
    // The children of a node with symbol x, production p and tag g, or that there is no such node.
    fn kin(&self, x: usize, p: usize, g: usize) -> Option<Kids>
        requires { Worded self.now.rows.now self.now.head.count self.now.words.now × (x < 256) × (p < 256) × (g < tag_space) }
        ensures { Kin self.now.rows.now self.now.head.t self.now.head.count x p g result }
    {
        if p == 0 {
            if x == 0 || self.head.t < x {
                return None;
            }
            return Some(Kids::Leaf);
        }
        let v = self.words[p];
        // One look tells both, that the tag is 0 and the left side x, since DIGIT + x is below 512.
        let found = 512 * g + v % words::BASE;
        if found != words::DIGIT + x {
            return None;
        }
        Some(Kids::Body(v / words::BASE))
    }
}

// Where the marks begin, behind the nodes and the frames: another layout than that of `notes`.
fn marks_at(slots: usize) -> usize
    requires { slots ≤ max_slots }
    ensures { result ≡ marks_at slots }
{
    trees::NODE_SIZE * slots + FRAME_SIZE * (slots + 1)
}

// Visits the first of the siblings that are due: writes it as node i and marks it. Its links are looked at last: what was written for a slot that is unfit is not read.
fn visit(area: Area, rules: &Rules, due: Siblings, w: &mut [u8], i: usize) -> Option<Kids>
    requires { Worded rules.now.rows.now rules.now.head.count rules.now.words.now × (walk_size area.slots ≤ length w.old) × (i ≤ area.slots) × (due.parent < 65536) }
    ensures { Visited rules.now.rows.now rules.now.head.t rules.now.head.count area.entry.slots area.entry.bytes.now due.slot due.parent (due.symbols % 64) w.old i w.new result }
{
    let s = due.slot;
    if area.slots < s {
        return None;
    }
    let mark = marks_at(area.slots) + s;
    let x = due.symbols % words::DIGIT;
    if !area.looks(s, x) || w[mark] != 0 {
        return None;
    }
    let at = trees::SLOT_SIZE * s;
    let both = base::two(area.bytes, at + trees::SYMBOL_PLACE);
    let p = both / 256;
    let g = base::four(area.bytes, at + trees::TAG_PLACE);
    let node = Node {
        slot: s as u16,
        symbol: (both % 256) as u8,
        production: p as u8,
        tag: g as u32,
    };
    // Each arm writes the node: written once for both, the arms part again behind it, and read back takes a sixth longer.
    match rules.kin(x, p, g)? {
        Kids::Leaf => {
            trees::put_node(w, i, node);
            w[mark] = 1;
            area.hangs(s, due.parent, 0).then_some(Kids::Leaf)
        }
        Kids::Body(body) => {
            // Its tag is 0, which the compiler doesn't see.
            trees::put_node(w, i, Node { tag: 0, ..node });
            w[mark] = 1;
            area.hangs(s, due.parent, body).then_some(Kids::Body(body))
        }
    }
}

// Writes a frame, and reads it.
fn put_frame(w: &mut [u8], at: usize, due: Siblings)
    requires { (at + frame_size ≤ length w.old) × (due.slot < 65536) × (due.parent < 65536) }
    ensures { Framed w.old at due.slot due.parent due.symbols w.new }
{
    base::put_two(w, at, due.slot);
    base::put_two(w, at + FRAME_PARENT, due.parent);
    base::put_eight(w, at + FRAME_REST, due.symbols);
}

fn frame_at(w: &[u8], at: usize) -> Siblings
    requires { at + frame_size ≤ length w.now }
    ensures { (result.slot ≡ get16 w.now at) × (result.parent ≡ get16 w.now (at + frame_parent)) × (result.parent < 65536) × (result.symbols ≡ rest_at w.now at) }
{
    Siblings {
        slot: base::two(w, at),
        parent: base::two(w, at + FRAME_PARENT),
        symbols: base::eight(w, at + FRAME_REST),
    }
}

// Marks no slot but slot 0, which is none.
fn fresh(w: &mut [u8], slots: usize)
    requires { (slots ≤ max_slots) × (walk_size slots ≤ length w.old) }
    ensures { marks_in slots w.new ≡ set (zeros (slots + 1)) 0 1 }
{
    let from = marks_at(slots);
    w[from..from + slots + 1].fill(0);
    w[from] = 1;
}

// Walks the area from its root, and writes the nodes that it visits. The symbols that are due at slot s and at its siblings behind it are one number.
fn wander(area: Area, rules: &Rules, w: &mut [u8]) -> Option<Walk>
    requires { Worded rules.now.rows.now rules.now.head.count rules.now.words.now × (walk_size area.slots ≤ length w.old) × (rules.now.head.start < symbol_space) }
    ensures { Wandered rules.now.rows.now rules.now.head area.entry.slots area.entry.bytes.now w.new result }
{
    fresh(w, area.slots);
    let bottom = trees::NODE_SIZE * area.slots;
    let mut top = bottom;
    let mut nodes = 0;
    let mut leaves = 0;
    let mut due = Siblings {
        slot: base::two(area.bytes, trees::ROOT_PLACE),
        parent: 0,
        symbols: words::DIGIT + rules.head.start,
    };
    // A `loop`: it goes by links and by a stack of frames.
    loop {
        let body = match visit(area, rules, due, w, nodes)? {
            Kids::Leaf => {
                leaves += 1;
                0
            }
            Kids::Body(b) => b,
        };
        nodes += 1;
        due.symbols /= words::BASE;
        // Each way ends by itself, and reads the next sibling itself: where the ways of a leaf and of a body join, the walk takes longer.
        if body == 0 {
            if due.symbols == 0 {
                if area.next_in(due.slot) != 0 {
                    return None;
                }
                if top == bottom {
                    return Some(Walk { nodes, leaves });
                }
                top -= FRAME_SIZE;
                due = frame_at(w, top);
                continue;
            }
            due.slot = area.next_in(due.slot);
            continue;
        }
        if due.symbols == 0 {
            if area.next_in(due.slot) != 0 {
                return None;
            }
            due = Siblings {
                slot: area.first_in(due.slot),
                parent: due.slot,
                symbols: body,
            };
            continue;
        }
        put_frame(
            w,
            top,
            Siblings {
                slot: area.next_in(due.slot),
                ..due
            },
        );
        top += FRAME_SIZE;
        due = Siblings {
            slot: area.first_in(due.slot),
            parent: due.slot,
            symbols: body,
        };
    }
}

// Walks an area of whatever bytes back into the list of its nodes, at the beginning of `work`, and counts them, or finds that it is no valid tree of the grammar in the rows.
pub fn read_tree(
    area: &[u8],
    slots: usize,
    rows: &[u8],
    head: Head,
    work: &mut [u8],
) -> Option<usize>
    requires { (1 ≤ slots) × (slots ≤ max_slots) × (length area.now ≡ area_size slots) × (walk_size slots ≤ length work.old) × (head.start < symbol_space) }
    ensures { Reads (grammar_in rows.now head) slots area.now work.new result }
{
    let area = Area { bytes: area, slots };
    let mut words = [0; WORDS];
    words::fill_words(rows, head.count, &mut words);
    let rules = Rules {
        rows,
        words: &words,
        head,
    };
    let found = wander(area, &rules, work)?;
    if !closing::heads(area.bytes, found.nodes, found.leaves) {
        return None;
    }
    let from = marks_at(slots);
    closing::all_clear(area.bytes, &work[from..from + slots + 1], slots).then_some(found.nodes)
}
