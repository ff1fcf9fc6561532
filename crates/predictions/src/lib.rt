// Which production each lookahead predicts, the lowest nonterminal in conflict, and the lowest useless one. `sets` are the words of crate sets.
#![tactic(auto)]

ghost use Rattle.std.specs.Prelude.{◌≡◌, ◌+◌, ◌<◌, ◌≤◌};
ghost use Rattle.base.specs.Blocks.{zeros};
ghost use Rattle.grammar.specs.Limits.{max_terminals, max_nonterminals, max_productions, columns};
ghost use Rattle.grammar.specs.Rows.{symbol_space, left_at};
ghost use Rattle.grammar.specs.RowRules.{body_at};
ghost use Rattle.sets.specs.Words.{suffix};
ghost use Rattle.predictions.specs.Hits.{hasb, predictors as predictorsm};
ghost use Rattle.predictions.specs.Idle.{Idle};
ghost use Rattle.predictions.specs.Listing.{cells_size, Marked, Rowed, Listed};

use grammar::Head;

pub const CELLS_SIZE: usize = grammar::MAX_NONTERMINALS * grammar::COLUMNS;

// Whether a is in the set m.
#[tactic(auto, unfolding(crate::specs::Hits::hasb))]
pub fn has(m: u32, a: usize) -> bool
    requires { a < columns }
    ensures { result ≡ hasb m a }
{
    (m >> a) % 2 == 1
}

// The lowest nonterminal that is not both productive and reachable.
#[tactic(auto, using(crate::specs::Idle::idling))]
pub fn useless(sets: &[u32; sets::SETS_SIZE], head: Head) -> Option<usize>
    requires { (head.t ≤ max_terminals) × (head.n ≤ max_nonterminals) }
    ensures { Idle sets.now head.t head.n result }
{
    for x in head.t + 1..=head.t + head.n {
        if sets[sets::MARKS + x] % 4 != 3 {
            return Some(x);
        }
    }
    None
}

// The word of the body of the production in row p. A loop of its own: crate sets goes the same way, but writes its words at each symbol.
#[tactic(auto, using(crate::specs::Hits::wording))]
fn body_word(rows: &[u8], p: usize, sets: &[u32; sets::SETS_SIZE]) -> u32
    ensures { result ≡ suffix sets.now (body_at rows.now p) }
{
    let mut tail: u32 = 1;
    for j in (0..grammar::length_at(rows, p)).rev() {
        let x = grammar::symbol_at(rows, p, j);
        tail = sets::leads(sets[x], tail);
    }
    tail
}

// The lookaheads that predict the production in row p, whose left side is m.
#[tactic(auto, using(crate::specs::Hits::predictors_is))]
fn predictors(rows: &[u8], p: usize, m: usize, sets: &[u32; sets::SETS_SIZE]) -> u32
    requires { (m ≡ left_at rows.now p) × (m < symbol_space) }
    ensures { result ≡ predictorsm rows.now sets.now p }
{
    let word = body_word(rows, p, sets);
    sets::leads(word, sets[sets::FOLLOWS + m])
}

// Lists a production in the row at `at`; whether a cell listed another.
#[tactic(auto, using(crate::specs::Listing::marking))]
fn list_row(w: u32, new: u8, at: usize, cells: &mut [u8; CELLS_SIZE]) -> bool
    requires { at + columns ≤ cells_size }
    ensures { Marked w new at columns cells.old cells.new result }
{
    let mut crowded = false;
    for a in 0..grammar::COLUMNS {
        if has(w, a) {
            crowded |= cells[at + a] != 0;
            cells[at + a] = new;
        }
    }
    crowded
}

// Lists every production in the cells, which are zero at first; the lowest nonterminal in conflict.
#[tactic(auto, using(crate::specs::Listing::listing))]
pub fn predict(
    rows: &[u8],
    head: Head,
    sets: &[u32; sets::SETS_SIZE],
    cells: &mut [u8; CELLS_SIZE],
) -> Option<usize>
    requires { (cells.old ≡ zeros cells_size) × (head.t ≤ max_terminals) × (head.count ≤ max_productions) × Rowed rows.now head.t head.count }
    ensures { Listed rows.now sets.now head.t head.count cells.new result }
{
    let mut low: Option<usize> = None;
    for p in 0..head.count {
        let m = grammar::left_at(rows, p);
        let w = predictors(rows, p, m, sets);
        if list_row(w, (p + 1) as u8, (m - head.t - 1) * grammar::COLUMNS, cells) {
            low = Some(low.unwrap_or(m).min(m));
        }
    }
    low
}
