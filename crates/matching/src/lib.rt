// Which old node's slot each new node keeps. The old tree's nodes and the new tree's stand in the work area, the new ones from node `slots` on; a node is known by its index there.
// Of each node the index behind its subtree (`end`) and the number of its tokens (`width`) are noted, from the last node to the first. Then the new nodes are
// gone through in preorder: one with tokens looks for the old node that starts with the same token (before the place it is the one of the same number),
// and hands on to its children without tokens.
// A kept node that the edit doesn't touch has the old node's very subtree: all of it is kept node by node, and need not be gone through.
#![tactic(auto)]

ghost use Rattle.std.specs.Prelude.{◌≡◌, ◌+◌, ◌-◌, ◌<◌, ◌≤◌, length, get_or, IfSome};
ghost use Rattle.base.specs.Tells.{Tells};
ghost use Rattle.trees.specs.Nodes.{trees};
ghost use Rattle.trees.specs.Area.{max_slots};
ghost use Rattle.notes.specs.Views.{notes_size, nodes_in, matches_in, entry_of};
ghost use Rattle.notes.specs.Lists.{nodes_of, ends_of, widths_of, starts_of, matches_of};
ghost use Rattle.matching.specs.Measure.{tree_in, Built, Measured, Spanned, Gauged};
ghost use Rattle.matching.specs.Finding.{Leaved, Started, Found, WasTold, Sourced};
ghost use Rattle.matching.specs.Handing.{Rising, Few, Handed, HandedAll};
ghost use Rattle.matching.specs.Carrying.{InRow};
ghost use Rattle.matching.specs.Matching.{Apart, Seeks, Reached, Stepped, Turned};
ghost use Rattle.matching.specs.Through.{Blank, Matches, Matching};
ghost use Rattle.matching.specs.Noted.{Spans, Starts, Entries};

use notes::Notes;

// The index behind a node's subtree, and the number of its tokens.
#[derive(Clone, Copy)]
struct Span {
    end: usize,
    width: usize,
}

// How many nodes the old tree and the new one have, and how many tokens the old one.
#[derive(Clone, Copy)]
struct Sizes {
    old: usize,
    new: usize,
    tokens: usize,
}

// Which token an edit begins at, and how many it removes and inserts there.
#[derive(Clone, Copy)]
struct Change {
    place: usize,
    removed: usize,
    inserted: usize,
    ghost place_fits: { place ≤ 65535 },
    ghost removed_fits: { removed ≤ 65535 },
    ghost inserted_fits: { inserted ≤ 65535 },
}

// A new node by its number, and the number of the token that it starts with.
#[derive(Clone, Copy)]
struct Spot {
    node: usize,
    token: usize,
}

// Of node i of the n from `base` on, where those behind it have been measured.
fn span_of(notes: &Notes, base: usize, n: usize, rows: &[u8], i: usize) -> Span
    requires { Built rows.now (nodes_of notes.now) n base × (i < n) × (base + n ≤ notes.now.slots + notes.now.slots) × Measured (tree_in rows.now (nodes_of notes.now) n base) base (i + 1) (ends_of notes.now) (widths_of notes.now) }
    ensures { Spanned (tree_in rows.now (nodes_of notes.now) n base) base i result.end result.width × (result.end ≤ base + n) × (result.width ≤ n) }
{
    let p = notes.production_of(base + i);
    if p == 0 {
        return Span {
            end: base + i + 1,
            width: 1,
        };
    }
    let k = grammar::length_at(rows, p - 1);
    let mut end = base + i + 1;
    let mut width: usize = 0;
    for _m in 0..k {
        width += notes.width_of(end);
        end = notes.end_of(end);
    }
    Span { end, width }
}

// Measures the n nodes from `base` on.
fn measure(notes: &mut Notes, base: usize, n: usize, rows: &[u8])
    requires { Built rows.now (nodes_of notes.old) n base × (base + n ≤ notes.old.slots + notes.old.slots) }
    ensures { Gauged (tree_in rows.now (nodes_of notes.old) n base) base 0 (ends_of notes.old) (widths_of notes.old) (ends_of notes.new) (widths_of notes.new) × Spans notes.old notes.new }
{
    for i in (0..n).rev() {
        let span = span_of(notes, base, n, rows, i);
        notes.set_span(base + i, span.end, span.width);
    }
}

// Where the nodes of each token begin among the first n; the number of tokens. The first begin at 0, as the first entry says.
fn mark_starts(notes: &mut Notes, n: usize) -> usize
    requires { (n ≤ notes.old.slots) × (get_or (starts_of notes.old) 0 0 ≡ 0) }
    ensures { Started (nodes_of notes.old) n result (starts_of notes.new) × Starts notes.old notes.new }
{
    let mut t: usize = 0;
    for i in 0..n {
        if notes.production_of(i) != 0 {
            continue;
        }
        t += 1;
        notes.set_start(t, i + 1);
    }
    t
}

// One of the nodes lo..hi of symbol x with tokens.
fn find(notes: &Notes, lo: usize, hi: usize, x: usize) -> Option<usize>
    requires { hi ≤ notes.now.slots }
    ensures { Found (nodes_of notes.now) (widths_of notes.now) lo hi x result }
{
    for j in lo..hi {
        if notes.symbol_of(j) == x && notes.width_of(j) != 0 {
            return Some(j);
        }
    }
    None
}

// The token that t of the new sentence was in the old one, if it isn't a new one.
fn was(change: Change, t: usize) -> Option<usize>
    requires { t ≤ 65535 }
    ensures { WasTold change.place change.removed change.inserted t result }
{
    if t < change.place {
        return Some(t);
    }
    if t < change.place + change.inserted {
        return None;
    }
    Some(t - change.inserted + change.removed)
}

// The old node of symbol x, with tokens, that starts with the token that t of the new sentence was.
fn source(notes: &Notes, sizes: Sizes, change: Change, t: usize, x: usize) -> Option<usize>
    requires { (sizes.old ≤ notes.now.slots) × Started (nodes_of notes.now) sizes.old sizes.tokens (starts_of notes.now) × (t ≤ 65535) }
    ensures { Sourced (nodes_of notes.now) (widths_of notes.now) sizes.old sizes.tokens change.place change.removed change.inserted t x result }
{
    let u = was(change, t)?;
    if sizes.tokens <= u {
        return None;
    }
    let lo = notes.start_of(u);
    let hi = notes.start_of(u + 1);
    find(notes, lo, hi, x)
}

// The new node at c keeps the slot of the old one at d, if neither has tokens.
fn hand(notes: &mut Notes, c: usize, d: usize)
    requires { (notes.old.slots ≤ c) × (c < notes.old.slots + notes.old.slots) × (d < notes.old.slots) }
    ensures { Handed (widths_of notes.old) c d notes.old.slots (matches_of notes.old) (matches_of notes.new) × Entries notes.old notes.new }
{
    if notes.width_of(c) != 0 || notes.width_of(d) != 0 {
        return;
    }
    let i = c - notes.slots;
    notes.set_match(i, Some(d));
}

// The new node at i keeps the slot of the old one at j; their children.
fn hand_on(notes: &mut Notes, sizes: Sizes, i: usize, j: usize)
    requires { (sizes.old ≤ notes.old.slots) × (sizes.new ≤ notes.old.slots) × Rising (ends_of notes.old) 0 sizes.old × Rising (ends_of notes.old) notes.old.slots (notes.old.slots + sizes.new) × (notes.old.slots ≤ i) × (i < notes.old.slots + sizes.new) × (j < sizes.old) × Few sizes.old (matches_of notes.old) }
    ensures { HandedAll (ends_of notes.old) (widths_of notes.old) notes.old.slots i j (matches_of notes.old) (matches_of notes.new) × Few sizes.old (matches_of notes.new) × Entries notes.old notes.new }
{
    let last = notes.end_of(i);
    let stop = notes.end_of(j);
    let mut c = i + 1;
    let mut d = j + 1;
    // a `while`: each step goes on behind two subtrees, as far as they are long, which no range counts
    while c < last {
        if stop <= d {
            return;
        }
        hand(notes, c, d);
        c = notes.end_of(c);
        d = notes.end_of(d);
    }
}

// The new nodes i..stop keep the slots of the old ones j, j + 1 and so on.
fn carry(notes: &mut Notes, i: usize, stop: usize, j: usize)
    requires { (i ≤ stop) × (stop ≤ notes.old.slots) × (j < notes.old.slots) }
    ensures { InRow (matches_of notes.old) i stop (j + 1) (matches_of notes.new) × Entries notes.old notes.new }
{
    for y in i..stop {
        notes.set_match(y, Some(j + (y - i)));
    }
}

// Looks for the old node of the new node at a spot, if it has tokens; the one whose slot it keeps.
fn seek(notes: &mut Notes, sizes: Sizes, change: Change, at: Spot, width: usize) -> Option<usize>
    requires { (sizes.old ≤ notes.old.slots) × (at.node < notes.old.slots) × Started (nodes_of notes.old) sizes.old sizes.tokens (starts_of notes.old) × (at.token ≤ 65535) × Few sizes.old (matches_of notes.old) × (width ≡ get_or (widths_of notes.old) (notes.old.slots + at.node) 0) }
    ensures { Seeks (nodes_of notes.old) (widths_of notes.old) sizes.old sizes.tokens notes.old.slots change.place change.removed change.inserted at.node at.token (matches_of notes.old) (matches_of notes.new) × Few sizes.old (matches_of notes.new) × Entries notes.old notes.new × (entry_of result ≡ get_or (matches_of notes.new) at.node 0) }
{
    if width == 0 {
        return notes.match_of(at.node);
    }
    // such a node's number is an old node's in any case; the first test shows it
    if at.node < sizes.old && at.token < change.place {
        notes.set_match(at.node, Some(at.node));
        return Some(at.node);
    }
    let i = notes.slots + at.node;
    let x = notes.symbol_of(i);
    let j = source(notes, sizes, change, at.token, x);
    notes.set_match(at.node, j);
    j
}

// Whether the edit doesn't touch a node that starts with token t: it has no tokens, or starts behind the inserted ones, or the token behind it is
// before the place, too.
fn is_apart(change: Change, t: usize, width: usize) -> bool
    requires { (t ≤ 65535) × (width ≤ 65535) }
    ensures { Tells (Apart change.place change.inserted t width) result }
{
    width == 0 || change.place + change.inserted <= t || t + width < change.place
}

// The number of the new node behind the subtree of the one at a spot, which keeps the slot of old node j, if it is carried along. Of trees that are derivations the last
// test never fails: it shows that the entries stay below the number of old nodes without knowing so.
fn reach(
    notes: &Notes,
    sizes: Sizes,
    change: Change,
    at: Spot,
    width: usize,
    j: usize,
) -> Option<usize>
    requires { (sizes.old ≤ notes.now.slots) × (sizes.new ≤ notes.now.slots) × (at.node < sizes.new) × Rising (ends_of notes.now) notes.now.slots (notes.now.slots + sizes.new) × (width ≡ get_or (widths_of notes.now) (notes.now.slots + at.node) 0) × (j < sizes.old) × (at.token ≤ 65535) × (width ≤ 65535) }
    ensures { Reached (ends_of notes.now) (widths_of notes.now) notes.now.slots change.place change.inserted at.node at.token result × IfSome result (λ stop. (j + (stop - at.node) ≤ sizes.old) × (stop ≤ sizes.new)) }
{
    if !is_apart(change, at.token, width) {
        return None;
    }
    let stop = notes.end_of(notes.slots + at.node) - notes.slots;
    if sizes.old < j + (stop - at.node) {
        return None;
    }
    Some(stop)
}

// Behind the new node at a spot alone.
fn step(notes: &Notes, at: Spot) -> Spot
    requires { (at.node < notes.now.slots) × (at.token ≤ 65535) }
    ensures { Stepped (nodes_of notes.now) notes.now.slots at.node at.token result.node result.token }
{
    if notes.production_of(notes.slots + at.node) != 0 {
        return Spot {
            node: at.node + 1,
            token: at.token,
        };
    }
    Spot {
        node: at.node + 1,
        token: at.token + 1,
    }
}

// The new node at a spot; where to go on.
fn turn(notes: &mut Notes, sizes: Sizes, change: Change, at: Spot) -> Spot
    requires { (sizes.old ≤ notes.old.slots) × (sizes.new ≤ notes.old.slots) × (at.node < sizes.new) × Started (nodes_of notes.old) sizes.old sizes.tokens (starts_of notes.old) × (at.token ≤ 65535) × Rising (ends_of notes.old) 0 sizes.old × Rising (ends_of notes.old) notes.old.slots (notes.old.slots + sizes.new) × Few sizes.old (matches_of notes.old) }
    ensures { Turned (nodes_of notes.old) (ends_of notes.old) (widths_of notes.old) sizes.old sizes.tokens notes.old.slots change.place change.removed change.inserted at.node at.token (matches_of notes.old) result.node result.token (matches_of notes.new) × Few sizes.old (matches_of notes.new) × Entries notes.old notes.new × (result.node ≤ sizes.new) }
{
    let i = notes.slots + at.node;
    let width = notes.width_of(i);
    let Some(j) = seek(notes, sizes, change, at, width) else {
        return step(notes, at);
    };
    let Some(stop) = reach(notes, sizes, change, at, width, j) else {
        hand_on(notes, sizes, i, j);
        return step(notes, at);
    };
    carry(notes, at.node, stop, j);
    Spot {
        node: stop,
        token: at.token + width,
    }
}

// Goes through the new nodes; the root first.
fn go_through(notes: &mut Notes, sizes: Sizes, change: Change)
    requires { (1 ≤ sizes.old) × (sizes.old ≤ notes.old.slots) × (sizes.new ≤ notes.old.slots) × Started (nodes_of notes.old) sizes.old sizes.tokens (starts_of notes.old) × Rising (ends_of notes.old) 0 sizes.old × Rising (ends_of notes.old) notes.old.slots (notes.old.slots + sizes.new) × Blank (matches_of notes.old) × Leaved (nodes_of notes.old) (ends_of notes.old) (widths_of notes.old) notes.old.slots (notes.old.slots + sizes.new) }
    ensures { Matches (nodes_of notes.old) sizes.old notes.old.slots sizes.new (ends_of notes.old) (widths_of notes.old) sizes.tokens (starts_of notes.old) change.place change.removed change.inserted (matches_of notes.new) × Few sizes.old (matches_of notes.new) × Entries notes.old notes.new }
{
    let root = notes.slots;
    hand(notes, root, 0);
    let mut at = Spot { node: 0, token: 0 };
    // a `while`: a turn goes on at the next node, or behind a subtree that is carried along, which no range counts
    while at.node < sizes.new {
        at = turn(notes, sizes, change, at);
    }
}

// For each of the k new nodes 1 + the index of the old node whose slot it keeps, or 0. The old tree's n nodes stand first and the new tree's from node `slots` on.
pub fn match_nodes(
    work: &mut [u8],
    slots: usize,
    n: usize,
    k: usize,
    rows: &[u8],
    place: usize,
    removed: usize,
    inserted: usize,
)
    requires { Built rows.now (nodes_in slots work.old) n 0 × Built rows.now (nodes_in slots work.old) k slots × (trees (tree_in rows.now (nodes_in slots work.old) k slots) ≡ 1) × (1 ≤ n) × (n ≤ slots) × (k ≤ slots) × (slots ≤ max_slots) × (notes_size slots ≤ length work.old) × (place ≤ 65535) × (removed ≤ 65535) × (inserted ≤ 65535) }
    ensures { Matching rows.now (nodes_in slots work.old) n slots k place removed inserted (matches_in slots work.new) × Few n (matches_in slots work.new) × (nodes_in slots work.new ≡ nodes_in slots work.old) }
{
    let change = Change {
        place,
        removed,
        inserted,
    };
    let mut notes = Notes::new(work, slots);
    notes.clear();
    measure(&mut notes, 0, n, rows);
    measure(&mut notes, slots, k, rows);
    let tokens = mark_starts(&mut notes, n);
    let sizes = Sizes {
        old: n,
        new: k,
        tokens,
    };
    go_through(&mut notes, sizes, change);
}
