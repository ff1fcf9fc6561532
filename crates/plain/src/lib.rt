// The plain parse: one loop over a stack in the lent work area, which writes the node list. Each turn takes one symbol off the stack and writes one node.
#![tactic(auto)]

ghost use Rattle.std.specs.Prelude.{◌≡◌, ◌+◌, ◌*◌, ◌<◌, ◌≤◌, length};
ghost use Rattle.base.specs.Filled.{Filled};
ghost use Rattle.grammar.specs.Limits.{max_body, max_nonterminals};
ghost use Rattle.grammar.specs.Rows.{symbol_at, grammar_in};
ghost use Rattle.trees.specs.Area.{max_slots};
ghost use Rattle.trees.specs.Coded.{node_size};
ghost use Rattle.plain.specs.Machine.{Lit, Ground};
ghost use Rattle.plain.specs.Text.{text_in, parse_size};
ghost use Rattle.plain.specs.Outcome.{Told, Ran};

use grammar::Head;
use trees::Node;

pub const TOKEN_SIZE: usize = 5;

// The first bad token record, counted from 0.
#[derive(Clone, Copy, Debug, PartialEq, Eq)]
pub struct BadToken {
    pub number: usize,
}

// Why a parse accepts nothing: a syntax error at a token with the expected set, or no room.
#[derive(Clone, Copy, Debug, PartialEq, Eq)]
pub enum ParseError {
    Syntax(usize, u32),
    NoRoom,
}

// How many tokens of the kinds 1..t the bytes are.
pub fn read_tokens(tokens: &[u8], t: usize) -> Result<usize, BadToken>
    ensures { Told t tokens.now result }
{
    let count = tokens.len() / TOKEN_SIZE;
    for i in 0..count {
        let kind = usize::from(tokens[TOKEN_SIZE * i]);
        if kind == 0 || t < kind {
            return Err(BadToken { number: i });
        }
    }
    if tokens.len() % TOKEN_SIZE == 0 {
        Ok(count)
    } else {
        Err(BadToken { number: count })
    }
}

// What a parse reads: the grammar's tables and rows, the tokens, and how many slots there are.
#[derive(Clone, Copy)]
struct Lent<'a, 'b> {
    tables: &'a [u8],
    rows: &'a [u8],
    head: Head,
    text: &'b [u8],
    slots: usize,
    ghost few: { slots ≤ max_slots },
}

// Where a parse is: so many nodes are written, the symbols from `top` on are left, and so many tokens are matched.
#[derive(Clone, Copy)]
struct Place {
    nodes: usize,
    top: usize,
    token: usize,
}

// The body in row j, `len` symbols, from `at` on.
fn push(stack: &mut [u8], at: usize, rows: &[u8], j: usize, len: usize)
    requires { (at + len ≤ length stack.old) × (len ≤ max_body) }
    ensures { Filled (symbol_at rows.now j) at len stack.old stack.new }
{
    for i in 0..len {
        stack[at + i] = grammar::symbol_at(rows, j, i) as u8;
    }
}

// The lookaheads with a prediction in a row of the tables, as bits.
fn predicted(tables: &[u8], row: usize) -> u32
    requires { row < max_nonterminals }
    ensures { Lit tables.now row result }
{
    let mut e = 0u32;
    for c in 0..grammar::COLUMNS {
        if base::byte_at(tables, row * grammar::COLUMNS + c) != 0 {
            e |= 1 << c;
        }
    }
    e
}

impl Lent<'_, '_> {
    ghost use Rattle.plain.specs.Lending.{Grounded, AtPlace, Turned, Ended};

    // One symbol is taken off the stack, and one node is written.
    fn step(&self, nodes: &mut [u8], stack: &mut [u8], at: Place) -> Result<Place, ParseError>
        requires ground { Grounded self.now }
        requires room { node_size * self.now.slots ≤ length nodes.old }
        requires space { self.now.slots ≤ length stack.old }
        requires more { at.top < length stack.old }
        requires on { AtPlace self.now nodes.old stack.old at }
        ensures { Turned self.now nodes.new stack.new at.nodes result }
    {
        let x = usize::from(stack[at.top]);
        let a = base::byte_at(self.text, TOKEN_SIZE * at.token);
        if x <= self.head.t {
            if x != a {
                return Err(ParseError::Syntax(at.token, 1 << x));
            }
            let tag = base::get32(self.text, TOKEN_SIZE * at.token + 1);
            let leaf = Node {
                slot: (at.nodes + 1) as u16,
                symbol: x as u8,
                production: 0,
                tag: tag as u32,
            };
            trees::put_node(nodes, at.nodes, leaf);
            return Ok(Place {
                nodes: at.nodes + 1,
                top: at.top + 1,
                token: at.token + 1,
            });
        }
        let row = x - self.head.t - 1;
        let q = base::byte_at(self.tables, row * grammar::COLUMNS + a);
        if q == 0 {
            return Err(ParseError::Syntax(at.token, predicted(self.tables, row)));
        }
        let len = grammar::length_at(self.rows, q - 1);
        if self.slots < at.nodes + (stack.len() - at.top) + len {
            return Err(ParseError::NoRoom);
        }
        let top = at.top + 1 - len;
        push(stack, top, self.rows, q - 1, len);
        let inner = Node {
            slot: (at.nodes + 1) as u16,
            symbol: x as u8,
            production: q as u8,
            tag: 0,
        };
        trees::put_node(nodes, at.nodes, inner);
        Ok(Place {
            nodes: at.nodes + 1,
            top,
            token: at.token,
        })
    }

    // From the start symbol on, until the stack is empty; how many nodes are written.
    fn run(&self, nodes: &mut [u8], stack: &mut [u8]) -> Result<usize, ParseError>
        requires ground { Grounded self.now }
        requires some { 1 ≤ self.now.slots }
        requires room { node_size * self.now.slots ≤ length nodes.old }
        requires space { self.now.slots ≤ length stack.old }
        ensures { Ended self.now nodes.new result }
    {
        let top = stack.len() - 1;
        stack[top] = self.head.start as u8;
        let mut at = Place {
            nodes: 0,
            top,
            token: 0,
        };
        // A `while`: a turn takes one symbol off the stack and puts a body there, so no range counts the turns.
        while at.top < stack.len() {
            at = self.step(nodes, stack, at)?;
        }
        if at.token == self.text.len() / TOKEN_SIZE {
            Ok(at.nodes)
        } else {
            Err(ParseError::Syntax(at.token, 1))
        }
    }
}

// The plain parse of m good tokens into so many slots. The nodes are written at the beginning of `work`, the tokens stand behind the room for them, and the stack is at its end.
// The promise speaks of the first m tokens behind the nodes, so that m stays beside `work`.
pub fn parse(
    m: usize,
    tables: &[u8],
    rows: &[u8],
    head: Head,
    slots: usize,
    work: &mut [u8],
) -> Result<usize, ParseError>
    requires { Ground rows.now head tables.now (text_in slots m work.old) m × (1 ≤ slots) × (slots ≤ max_slots) × (parse_size slots m ≤ length work.old) }
    ensures { Ran (grammar_in rows.now head) slots (text_in slots m work.old) m work.new result }
{
    let (nodes, rest) = work.split_at_mut(trees::NODE_SIZE * slots);
    let (text, stack) = rest.split_at_mut(TOKEN_SIZE * m);
    let lent = Lent {
        tables,
        rows,
        head,
        text,
        slots,
    };
    lent.run(nodes, stack)
}
