// The list of a tree's nodes, eight bytes each, and the tree area that is laid out from it.
#![tactic(auto)]

ghost use Rattle.std.specs.Prelude.{◌≡◌, ◌+◌, ◌-◌, ◌*◌, ◌<◌, ◌≤◌, length};
ghost use Rattle.trees.specs.Area.{slot_size, max_slots, area_size, tag_space, slot_bytes, header_bytes, Area, parent_place, next_place};
ghost use Rattle.base.specs.Bytes.{byte_at, get16, put16};
ghost use Rattle.base.specs.Filled.{Filled};
ghost use Rattle.trees.specs.Coded.{node_size, node_bytes, node_at, nodes_from, arity_in};
ghost use Rattle.trees.specs.Nodes.{build, Fed};
ghost use Rattle.trees.specs.Listing.{in_slot, Put};
ghost use Rattle.trees.specs.Slots.{Slotted};
ghost use Rattle.trees.specs.Adopting.{adopted, Reach};
ghost use Rattle.trees.specs.Laying.{Ready, Lays};
ghost use Rattle.trees.specs.Spread.{Spread};

pub const NODE_SIZE: usize = 8;

pub const SLOT_SIZE: usize = 16;

pub const HEADER_SIZE: usize = 16;

pub const MAX_SLOTS: usize = 1000;

// How many areas a work area has room for.
pub const WORK_AREAS: usize = 3;

// The marks of a header and of a used slot, two bytes each.
pub const TREE_MARK: u8 = 0x54;

pub const TREE_MARK_END: u8 = 0x52;

pub const NODE_MARK: u8 = 0x4E;

pub const NODE_MARK_END: u8 = 0x44;

// Where a header has the root slot, the number of used slots, that of tokens, and zeros.
pub const ROOT_PLACE: usize = 2;

pub const USED_PLACE: usize = 4;

pub const TOKENS_PLACE: usize = 6;

pub const HEADER_SPARE: usize = 8;

// Where a used slot has its symbol and production, its parent, first child and next sibling, its tag, and zeros.
pub const SYMBOL_PLACE: usize = 2;

pub const PRODUCTION_PLACE: usize = 3;

pub const PARENT_PLACE: usize = 4;

pub const FIRST_PLACE: usize = 6;

pub const NEXT_PLACE: usize = 8;

pub const TAG_PLACE: usize = 10;

pub const SPARE_PLACE: usize = 14;

// A node: its slot, its symbol and production (0 for a leaf, as document 01's slots have it), and its tag (0 unless a leaf).
#[derive(Clone, Copy, Debug, Default, PartialEq, Eq)]
pub struct Node {
    pub slot: u16,
    pub symbol: u8,
    pub production: u8,
    pub tag: u32,
}

// Node i, counted from 0. A read beyond the end gives 0.
pub fn node_at(nodes: &[u8], i: usize) -> Node
    ensures { result ≡ node_at nodes.now i }
{
    if nodes.len() / NODE_SIZE < i {
        return Node::default();
    }
    let at = NODE_SIZE * i;
    Node {
        slot: base::get16(nodes, at + 2) as u16,
        symbol: base::byte_at(nodes, at) as u8,
        production: base::byte_at(nodes, at + 1) as u8,
        tag: base::get32(nodes, at + 4) as u32,
    }
}

// The same inside the list: one bound for all, so that they are read at once.
pub fn node_in(nodes: &[u8], i: usize) -> Node
    requires { node_size * i + node_size ≤ length nodes.now }
    ensures { result ≡ node_at nodes.now i }
{
    let at = NODE_SIZE * i;
    Node {
        slot: base::two(nodes, at + 2) as u16,
        symbol: nodes[at],
        production: nodes[at + 1],
        tag: base::four(nodes, at + 4) as u32,
    }
}

// One field of `node_at`, as a number to compute with.
pub fn symbol_of(nodes: &[u8], i: usize) -> usize
    ensures { (result ≡ (node_at nodes.now i).symbol) × (result < 256) }
{
    usize::from(node_at(nodes, i).symbol)
}

pub fn production_of(nodes: &[u8], i: usize) -> usize
    ensures { (result ≡ (node_at nodes.now i).production) × (result < 256) }
{
    usize::from(node_at(nodes, i).production)
}

pub fn slot_of(nodes: &[u8], i: usize) -> usize
    ensures { (result ≡ (node_at nodes.now i).slot) × (result < 65536) }
{
    usize::from(node_at(nodes, i).slot)
}

// Writes `src` from `at` on.
fn put_bytes(w: &mut [u8], at: usize, src: &[u8])
    requires { at + length src.now ≤ length w.old }
    ensures { Filled (byte_at src.now) at (length src.now) w.old w.new }
{
    w[at..at + src.len()].copy_from_slice(src);
}

// The bytes of a node, of its slot and of a header are three layouts, each written out.
fn node_bytes(node: Node) -> [u8; NODE_SIZE]
    ensures { result ≡ node_bytes node }
{
    let [slot, slot_high] = node.slot.to_le_bytes();
    let [tag, tag_1, tag_2, tag_3] = node.tag.to_le_bytes();
    [
        node.symbol,
        node.production,
        slot,
        slot_high,
        tag,
        tag_1,
        tag_2,
        tag_3,
    ]
}

// Writes node i.
pub fn put_node(nodes: &mut [u8], i: usize, node: Node)
    requires { node_size * i + node_size ≤ length nodes.old }
    ensures { Put nodes.old i node nodes.new }
{
    put_bytes(nodes, NODE_SIZE * i, &node_bytes(node));
}

// Gives node i another slot.
pub fn set_slot(nodes: &mut [u8], i: usize, slot: usize)
    requires { (node_size * i + node_size ≤ length nodes.old) × (slot < 65536) }
    ensures { Put nodes.old i (in_slot slot (node_at nodes.old i)) nodes.new }
{
    base::put_two(nodes, NODE_SIZE * i + 2, slot);
}

// The bytes of a node's slot with no parent.
fn slot_bytes(node: Node, first: u16, next: u16) -> [u8; SLOT_SIZE]
    ensures { result ≡ slot_bytes node.symbol node.production 0 first next node.tag }
{
    let [first, first_high] = first.to_le_bytes();
    let [next, next_high] = next.to_le_bytes();
    let [tag, tag_1, tag_2, tag_3] = node.tag.to_le_bytes();
    [
        NODE_MARK,
        NODE_MARK_END,
        node.symbol,
        node.production,
        0,
        0,
        first,
        first_high,
        next,
        next_high,
        tag,
        tag_1,
        tag_2,
        tag_3,
        0,
        0,
    ]
}

// Writes a node's slot, with no parent.
fn put_slot(area: &mut [u8], node: Node, first: u16, next: u16)
    requires { slot_size * node.slot + slot_size ≤ length area.old }
    ensures { Slotted area.old node.slot (slot_bytes node.symbol node.production 0 first next node.tag) area.new }
{
    put_bytes(
        area,
        SLOT_SIZE * usize::from(node.slot),
        &slot_bytes(node, first, next),
    );
}

// Sets the parent of slot s, and answers its next sibling.
fn hang(area: &mut [u8], s: u16, parent: u16) -> u16
    requires { slot_size * s + slot_size ≤ length area.old }
    ensures { (area.new ≡ put16 area.old (slot_size * s + parent_place) parent) × (result ≡ get16 area.new (slot_size * s + next_place)) }
{
    let at = SLOT_SIZE * usize::from(s);
    base::put_two(area, at + PARENT_PLACE, usize::from(parent));
    base::two(area, at + NEXT_PLACE) as u16
}

// Sets the parent of k trees, the first one at `head`, cuts the last one from the tree behind it, and answers that tree's slot.
fn adopt(area: &mut [u8], parent: u16, head: u16, k: usize) -> u16
    requires { (0 < k) × Reach area.old (k - 1) head }
    ensures { (area.new ≡ (adopted parent (k - 1) area.old head).bytes) × (result ≡ (adopted parent (k - 1) area.old head).next) }
{
    let mut s = head;
    for _ in 1..k {
        s = hang(area, s, parent);
    }
    let next = hang(area, s, parent);
    base::put_two(area, SLOT_SIZE * usize::from(s) + NEXT_PLACE, 0);
    next
}

// Lays out a node before the trees that stand in the area, the first one at `head`.
fn lay_node(node: Node, rows: &[u8], head: u16, area: &mut [u8])
    requires { (slot_size * node.slot + slot_size ≤ length area.old) × Ready (arity_in rows.now) node head area.old }
    ensures { Lays (arity_in rows.now) node head area.old area.new }
{
    let (k, tag) = if node.production == 0 {
        (0, node.tag)
    } else {
        (
            grammar::length_at(rows, usize::from(node.production) - 1),
            0,
        )
    };
    let (first, next) = if k == 0 {
        (0, head)
    } else {
        (head, adopt(area, node.slot, head, k))
    };
    put_slot(area, Node { tag, ..node }, first, next);
}

fn header_bytes(root: u16, used: u16, tokens: u16) -> [u8; HEADER_SIZE]
    ensures { result ≡ header_bytes root used tokens }
{
    let [root, root_high] = root.to_le_bytes();
    let [used, used_high] = used.to_le_bytes();
    let [tokens, tokens_high] = tokens.to_le_bytes();
    [
        TREE_MARK,
        TREE_MARK_END,
        root,
        root_high,
        used,
        used_high,
        tokens,
        tokens_high,
        0,
        0,
        0,
        0,
        0,
        0,
        0,
        0,
    ]
}

fn put_header(area: &mut [u8], root: u16, used: u16, tokens: u16)
    requires { slot_size ≤ length area.old }
    ensures { Slotted area.old 0 (header_bytes root used tokens) area.new }
{
    put_bytes(area, 0, &header_bytes(root, used, tokens));
}

// Writes the whole area of the tree whose n nodes are listed: the last node first, so that a node's children stand before it.
// The number stands beside the bytes: the theorems of the callers speak of `nodes_from nodes n 0`, and other bytes follow.
pub fn lay_out(nodes: &[u8], n: usize, rows: &[u8], slots: usize, area: &mut [u8])
    requires { (slots ≤ max_slots) × (n ≤ slots) × (node_size * n ≤ length nodes.now) × (length area.old ≡ area_size slots) × Spread slots (nodes_from nodes.now n 0) × Fed (arity_in rows.now) (nodes_from nodes.now n 0) }
    ensures { Area slots (build (arity_in rows.now) (nodes_from nodes.now n 0)) area.new }
{
    area.fill(0);
    let mut head = 0;
    let mut tokens = 0;
    for i in (0..n).rev() {
        let node = node_in(nodes, i);
        lay_node(node, rows, head, area);
        head = node.slot;
        tokens += u16::from(node.production == 0);
    }
    put_header(area, head, n as u16, tokens);
}
