// The sets of a grammar, by rounds over its productions until nothing changes: which symbols may derive nothing, FIRST, FOLLOW, which are
// productive and which are reachable. Each symbol has three words of bits (specs/Words.antt).
#![tactic(auto)]

ghost use Rattle.std.specs.Prelude.{◌≡◌, ◌<◌, ◌≤◌};
ghost use Rattle.base.specs.Blocks.{zeros};
ghost use Rattle.grammar.specs.Limits.{max_terminals, max_productions};
ghost use Rattle.grammar.specs.Rows.{symbol_space, grammar_in};
ghost use Rattle.sets.specs.Words.{leads as leadsm, both as bothm, raised, stepped, produced_at, begun, sets_size};
ghost use Rattle.sets.specs.Sweeps.{Grew};
ghost use Rattle.sets.specs.Rounds.{Settled};
ghost use Rattle.sets.specs.Known.{Known};

use grammar::Head;

// The three words of all symbols in one array: the laws name a word by one number.
pub const SETS_SIZE: usize = 3 * grammar::SYMBOL_SPACE;

pub const FOLLOWS: usize = grammar::SYMBOL_SPACE;

pub const MARKS: usize = 2 * grammar::SYMBOL_SPACE;

// A word in front of another.
#[tactic(auto, using(base::specs::Choose::ways), unfolding(crate::specs::Words::leads))]
pub fn leads(word: u32, rest: u32) -> u32
    ensures { result ≡ leadsm word rest }
{
    if word % 2 == 1 {
        (word - 1) | rest
    } else {
        word
    }
}

#[tactic(auto, using(base::specs::Choose::ways), unfolding(crate::specs::Words::both))]
fn both(mark: u32, rest: u32) -> u32
    ensures { result ≡ bothm mark rest }
{
    if mark % 2 == 1 { rest } else { 0 }
}

// Puts the bits of m into word i; whether that changed it.
fn raise(sets: &mut [u32; SETS_SIZE], i: usize, m: u32) -> bool
    requires { i < sets_size }
    ensures { (sets.new ≡ raised sets.old i m) × Grew sets.old sets.new result }
{
    let old = sets[i];
    let new = old | m;
    sets[i] = new;
    new != old
}

// A symbol x of a body of m, with `tail` the word of what stands behind it: what may follow x, and whether x is reachable.
fn step(sets: &mut [u32; SETS_SIZE], m: usize, x: usize, tail: u32) -> bool
    requires { (m < symbol_space) × (x < symbol_space) }
    ensures { (sets.new ≡ stepped m x tail sets.old) × Grew sets.old sets.new result }
{
    let follow = sets[FOLLOWS + m];
    let mark = sets[MARKS + m];
    let behind = leads(tail, follow);
    let a = raise(sets, FOLLOWS + x, behind);
    let b = raise(sets, MARKS + x, mark - mark % 2);
    a | b
}

// The production in row p: its body from the end to the start, then its left side.
#[tactic(auto, using(crate::specs::Sweeps::passing))]
fn produce(rows: &[u8], p: usize, sets: &mut [u32; SETS_SIZE]) -> bool
    ensures { (sets.new ≡ produced_at rows.now p sets.old) × Grew sets.old sets.new result }
{
    let m = grammar::left_at(rows, p);
    let mut tail: u32 = 1;
    let mut made: u32 = 1;
    let mut grew = false;
    for j in (0..grammar::length_at(rows, p)).rev() {
        let x = grammar::symbol_at(rows, p, j);
        let word = sets[x];
        let mark = sets[MARKS + x];
        grew |= step(sets, m, x, tail);
        tail = leads(word, tail);
        made = both(mark, made);
    }
    let a = raise(sets, m, tail);
    let b = raise(sets, MARKS + m, made);
    grew | a | b
}

// What needs no production: each terminal begins itself and is productive, the end mark follows the start symbol, which is reachable.
#[tactic(auto, using(crate::specs::Sweeps::beginning))]
fn begin(t: usize, start: usize, sets: &mut [u32; SETS_SIZE])
    requires { (sets.old ≡ zeros sets_size) × (t ≤ max_terminals) × (start < symbol_space) }
    ensures { sets.new ≡ begun t start }
{
    raise(sets, FOLLOWS + start, 1);
    raise(sets, MARKS + start, 2);
    for a in 1..=t {
        raise(sets, a, 1 << a);
        raise(sets, MARKS + a, 1);
    }
}

// Sweeps over the productions from the back and from the front, until a round changes nothing.
#[tactic(auto, using(crate::specs::Rounds::settling))]
fn settle(rows: &[u8], count: usize, sets: &mut [u32; SETS_SIZE])
    requires { count ≤ max_productions }
    ensures { Settled rows.now count sets.old sets.new }
{
    // A `loop`: no range counts the rounds.
    'rounds: loop {
        let mut grew = false;
        'back: for p in (0..count).rev() {
            grew |= produce(rows, p, sets);
        }
        'front: for p in 0..count {
            grew |= produce(rows, p, sets);
        }
        if !grew {
            return;
        }
    }
}

// The sets of the grammar in the rows.
pub fn analyse(rows: &[u8], head: Head, sets: &mut [u32; SETS_SIZE])
    requires { (head.t ≤ max_terminals) × (head.start < symbol_space) × (head.count ≤ max_productions) }
    ensures { Known (grammar_in rows.now head) sets.new }
{
    sets.fill(0);
    begin(head.t, head.start, sets);
    settle(rows, head.count, sets);
}
