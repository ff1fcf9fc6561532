// The new sentence of an edit: the old tree's leaves and the lent tokens, one behind the other, no more of them than a parse looks at; and a tree's leaves for read back.
// They are put together in the work area, behind the nodes. The tokens stand behind the nodes, in the same bytes.
#![tactic(auto)]

ghost use Rattle.std.specs.Prelude.{◌≡◌, ℕ, ◌+◌, ◌-◌, ◌*◌, ◌/◌, ◌≤◌, ◌∷◌, length, take, drop};
ghost use Rattle.base.specs.Bytes.{le_bytes};
ghost use Rattle.base.specs.Blocks.{copied};
ghost use Rattle.trees.specs.Coded.{node_size};
ghost use Rattle.plain.specs.Tokens.{token_size, tokens_from};
ghost use Rattle.sentences.specs.Adding.{Added};
ghost use Rattle.sentences.specs.Leaves.{Gave, Skipped};
ghost use Rattle.sentences.specs.Forming.{NewSentence};
ghost use Rattle.sentences.specs.Behind.{Fronted};

use trees::Node;

// How far the leaves are written: the next node, and the next token.
#[derive(Clone, Copy, Debug, PartialEq, Eq)]
pub struct Reached {
    node: usize,
    token: usize,
}

// The bytes of a leaf's token.
fn token_bytes(leaf: Node) -> [u8; plain::TOKEN_SIZE]
    ensures { result ≡ leaf.symbol ∷ le_bytes 4 leaf.tag }
{
    let [tag, tag_1, tag_2, tag_3] = leaf.tag.to_le_bytes();
    [leaf.symbol, tag, tag_1, tag_2, tag_3]
}

// Writes a leaf's token as token j.
fn put_token(text: &mut [u8], j: usize, leaf: Node)
    requires { token_size * j + token_size ≤ length text.old }
    ensures { text.new ≡ copied text.old (token_size * j) (leaf.symbol ∷ le_bytes 4 leaf.tag) }
{
    let at = plain::TOKEN_SIZE * j;
    text[at..at + plain::TOKEN_SIZE].copy_from_slice(&token_bytes(leaf));
}

// Writes the tokens of the nodes' leaves, from node `from` on: the first one as token `at`, the last one before token `end`.
fn give(nodes: &[u8], from: usize, text: &mut [u8], at: usize, end: usize) -> Reached
    requires { (from ≤ length nodes.now / node_size) × (at ≤ end) × (token_size * end ≤ length text.old) }
    ensures { Gave nodes.now (length nodes.now / node_size) from text.old at end result.node result.token text.new × (result.node ≤ length nodes.now / node_size) × (result.token ≤ end) }
{
    let n = nodes.len() / trees::NODE_SIZE;
    let mut token = at;
    for node in from..n {
        if token == end {
            return Reached { node, token };
        }
        let leaf = trees::node_in(nodes, node);
        if leaf.production == 0 {
            put_token(text, token, leaf);
            token += 1;
        }
    }
    Reached { node: n, token }
}

// The node behind k leaves, from node `from` on.
fn skip(nodes: &[u8], from: usize, k: usize) -> usize
    requires { from ≤ length nodes.now / node_size }
    ensures { Skipped nodes.now (length nodes.now / node_size) from k result 0 × (result ≤ length nodes.now / node_size) }
{
    let n = nodes.len() / trees::NODE_SIZE;
    let mut left = k;
    for i in from..n {
        if left == 0 {
            return i;
        }
        if trees::node_in(nodes, i).production == 0 {
            left -= 1;
        }
    }
    n
}

// Writes the lent tokens from token `at` on, those before token `end`, and answers the next one.
fn put_tokens(text: &mut [u8], at: usize, tokens: &[u8], end: usize) -> usize
    requires { (at ≤ end) × (token_size * end ≤ length text.old) }
    ensures { ((m : ℕ) → length tokens.now ≡ token_size * m → Added (take (end - at) (tokens_from tokens.now m 0)) text.old text.new at result) × (result ≤ end) }
{
    let from = plain::TOKEN_SIZE * at;
    let size = tokens.len().min(plain::TOKEN_SIZE * end - from);
    base::copy(&mut text[from..from + size], 0, &tokens[..size]);
    at + size / plain::TOKEN_SIZE
}

// Writes the first `limit` tokens of the new sentence, from byte `text` on: of n nodes' leaves, those from `place` on, `removed` of them, are replaced by the lent tokens. It answers how many tokens are written.
// The promise speaks of n nodes at the beginning of `work`, so that n and `text` stay beside it.
pub fn new_sentence(
    work: &mut [u8],
    n: usize,
    place: usize,
    removed: usize,
    tokens: &[u8],
    limit: usize,
    text: usize,
) -> usize
    requires { (node_size * n ≤ text) × (text + token_size * limit ≤ length work.old) }
    ensures { ((m : ℕ) → length tokens.now ≡ token_size * m → NewSentence work.old n place removed tokens.now m limit (drop text work.old) (drop text work.new) result) × Fronted text work.old work.new × (result ≤ limit) }
{
    let (nodes, text) = work.split_at_mut(text);
    let nodes = &nodes[..trees::NODE_SIZE * n];
    let before = give(nodes, 0, text, 0, place.min(limit));
    let next = put_tokens(text, before.token, tokens, limit);
    let node = skip(nodes, before.node, removed);
    let after = give(nodes, node, text, next, limit);
    after.token
}

// Writes the tokens of the leaves among n nodes, `tokens` of them at most, to the output. They are put together behind the nodes, from byte `text` on.
pub fn give_out(work: &mut [u8], n: usize, text: usize, tokens: usize, output: &mut [u8]) -> Reached
    requires { (node_size * n ≤ text) × (text + token_size * tokens ≤ length work.old) × (token_size * tokens ≤ length output.old) }
    ensures { Gave work.old n 0 output.old 0 tokens result.node result.token output.new }
{
    let (nodes, room) = work.split_at_mut(text);
    let reached = give(&nodes[..trees::NODE_SIZE * n], 0, room, 0, tokens);
    let size = plain::TOKEN_SIZE * reached.token;
    base::copy(output, 0, &room[..size]);
    reached
}
