// The tables of a grammar: predictions, then break points. For a fixed lookahead the stems form a tree, so that each symbol has one step down;
// the symbols of a stem are the bits of a mask, and the highest shared symbol is the first on one stem that is in the other's mask.
// Lent tables are tested without masks: a break point follows from those one step down either stem.
#![tactic(auto)]

ghost use Rattle.std.specs.Prelude.{◌≡◌, ℕ, ◌+◌, ◌*◌, ◌%◌, ◌<◌, ◌≤◌, length, drop, MatchOption};
ghost use Rattle.base.specs.Blocks.{zeros};
ghost use Rattle.base.specs.Tells.{Tells};
ghost use Rattle.grammar.specs.Limits.{max_terminals, max_nonterminals, columns};
ghost use Rattle.grammar.specs.Rows.{symbol_space, grammar_in};
ghost use Rattle.grammar.specs.RowRules.{body_at};
ghost use Rattle.predictions.specs.Hits.{hasb};
ghost use Rattle.tables.specs.Tables.{row_size, predictions_size, breaks_size, tables_size, Tables};
ghost use Rattle.tables.specs.Outcome.{Ready};
ghost use Rattle.tables.specs.Cells.{lead as leadm, step_of, next as nextm, stem_bits, mask_of, shared_from, behind_of, point_of, entry_of, step_at, down_of, meet_of, implied_of};
ghost use Rattle.tables.specs.Grid.{Grid};
ghost use Rattle.tables.specs.Live.{Live, Quiet};
ghost use Rattle.tables.specs.Writing.{Broken, Laid};

use grammar::Head;
use sets::SETS_SIZE;

// The break points of one row.
const ROW_SIZE: usize = predictions::CELLS_SIZE;

pub const PREDICTIONS_SIZE: usize = predictions::CELLS_SIZE;

const BREAKS_SIZE: usize = grammar::MAX_NONTERMINALS * ROW_SIZE;

pub const TABLES_SIZE: usize = PREDICTIONS_SIZE + BREAKS_SIZE;

const NO_BREAK: usize = 255;

// How many terminals and nonterminals a grammar has: of a grid, a row for each nonterminal and a column for each lookahead. `first` is the
// first nonterminal, and so how many lookaheads there are: kept beside t, since the check of lent tables took 7% more where it was computed.
#[derive(Clone, Copy)]
struct Shape {
    t: usize,
    first: usize,
    n: usize,
    ghost behind_terminals: { first ≡ t + 1 },
    ghost few_terminals: { t ≤ max_terminals },
    ghost few_nonterminals: { n ≤ max_nonterminals },
}

impl Shape {
    // Writes each cell of the grid, by its place.
    fn fill<T: Copy, F: Fn(usize) -> T>(self, w: &mut [T], cell: F)
        requires fits { self.n * columns ≤ length w.old }
        requires may { (i : ℕ) → i < self.n * columns → F.pre cell i }
        ensures { (d : T) (f : ℕ → T) → ((i : ℕ) (v : T) → i < self.n * columns → F.post cell i v → v ≡ f i) → Grid d f (self.t + 1) self.n self.n 0 w.old w.new }
    {
        for q in 0..self.n {
            for a in 0..self.first {
                let i = q * grammar::COLUMNS + a;
                w[i] = cell(i);
            }
        }
    }

    // The symbol below that of cell i's row on its stem to cell i's lookahead, or 0: steps are bytes in fixed memory, and 0 is no symbol.
    fn step_of(
        self,
        rows: &[u8],
        sets: &[u32; SETS_SIZE],
        cells: &[u8; PREDICTIONS_SIZE],
        i: usize,
    ) -> u8
        requires { i < predictions_size }
        ensures { result ≡ step_of rows.now sets.now cells.now self.t i }
    {
        let a = i % grammar::COLUMNS;
        if a == 0 {
            return 0;
        }
        if predictions::has(sets[self.first + i / grammar::COLUMNS], a) {
            let p = usize::from(cells[i]).saturating_sub(1);
            return lead(rows, p, a, sets).unwrap_or(0) as u8;
        }
        0
    }
}

// Whether the symbol x is in the mask. `predictions::has` is the same of 32 bits, and promises its type.
fn in_mask(mask: u64, x: usize) -> bool
    requires { x < symbol_space }
    ensures { result ≡ hasb mask x }
{
    (mask >> x) % 2 == 1
}

// The first symbol of the body in row p that a begins.
fn lead(rows: &[u8], p: usize, a: usize, sets: &[u32; SETS_SIZE]) -> Option<usize>
    requires { a < columns }
    ensures first { result ≡ leadm sets.now a (body_at rows.now p) }
    ensures small { MatchOption result (Unit {0}) (λ x. x < symbol_space) }
{
    for j in 0..grammar::length_at(rows, p) {
        let x = grammar::symbol_at(rows, p, j);
        if predictions::has(sets[x], a) {
            return Some(x);
        }
    }
    None
}

// Whether the rows are all 0. Each is asked for itself: its length is known, so that more bytes are read at once.
fn zero_rows(rows: &[u8]) -> bool
    requires { length rows.now % row_size ≡ 0 }
    ensures { Tells (rows.now ≡ zeros (length rows.now)) result }
{
    rows.chunks_exact(ROW_SIZE).all(base::all_zero)
}

// What the break points follow from: the words of the sets, and the steps down the stems.
#[derive(Clone, Copy)]
struct Stems<'a> {
    sets: &'a [u32; SETS_SIZE],
    steps: &'a [u8; PREDICTIONS_SIZE],
    shape: Shape,
}

impl Stems<'_> {
    // The step of cell i.
    fn step_at(&self, i: usize) -> usize
        requires { i < predictions_size }
        ensures is { result ≡ step_at self.now.steps.now i }
        ensures small { result < symbol_space }
    {
        usize::from(self.steps[i]) % grammar::SYMBOL_SPACE
    }

    // Down from x, by the steps; 0 beyond them.
    fn next(&self, a: usize, x: usize) -> usize
        requires ahead { a < columns }
        requires symbol { x < symbol_space }
        ensures is { result ≡ nextm self.now.steps.now self.now.shape.t a x }
        ensures small { result < symbol_space }
    {
        let steps = self.steps;
        let row = x.saturating_sub(self.shape.first);
        base::byte_at(steps, row * grammar::COLUMNS + a) % grammar::SYMBOL_SPACE
    }

    // The symbols of the stem from x to a, as bits.
    fn bits(&self, a: usize, from: usize) -> u64
        requires ahead { a < columns }
        requires symbol { from < symbol_space }
        ensures { result ≡ stem_bits self.now.steps.now self.now.shape.t a symbol_space from 0 }
    {
        let mut x = from;
        let mut acc = 0;
        for _k in 0..grammar::SYMBOL_SPACE {
            acc |= 1 << x;
            if x < self.shape.first {
                return acc;
            }
            x = self.next(a, x);
        }
        acc
    }

    // The same of cell i's row and lookahead.
    fn mask(&self, i: usize) -> u64
        requires { i < predictions_size }
        ensures { result ≡ mask_of self.now.steps.now self.now.shape.t i }
    {
        self.bits(
            i % grammar::COLUMNS,
            self.shape.first + i / grammar::COLUMNS,
        )
    }

    // The first symbol from x down to a that is in the mask; 0 where none is, as `shared_from` says, on which the laws rest.
    fn shared(&self, a: usize, mask: u64, from: usize) -> usize
        requires ahead { a < columns }
        requires symbol { from < symbol_space }
        ensures is { result ≡ shared_from self.now.steps.now self.now.shape.t a mask symbol_space from }
        ensures small { result < symbol_space }
    {
        let mut x = from;
        for _k in 0..grammar::SYMBOL_SPACE {
            if in_mask(mask, x) {
                return x;
            }
            x = self.next(a, x);
        }
        0
    }

    // The break point of m and n at a where n begins with a and m doesn't: document 01's byte, 255 where there is none.
    fn behind(&self, m: usize, n: usize, a: usize) -> usize
        requires ahead { a < columns }
        requires upper { m < symbol_space }
        requires lower { n < symbol_space }
        ensures is { result ≡ behind_of self.now.sets.now m n a }
        ensures small { result < 256 }
    {
        if self.sets[m] % 2 == 1 {
            if predictions::has(self.sets[sets::FOLLOWS + m], a) {
                return n;
            }
        }
        NO_BREAK
    }

    // The break point of m and n at a; `mask` has the symbols of n's stem.
    fn point(&self, m: usize, n: usize, a: usize, mask: u64) -> usize
        requires ahead { a < columns }
        requires upper { m < symbol_space }
        requires lower { n < symbol_space }
        ensures is { result ≡ point_of self.now.sets.now self.now.steps.now self.now.shape.t m n a mask }
        ensures small { result < 256 }
    {
        if a == 0 {
            return 0;
        }
        if predictions::has(self.sets[n], a) {
            if predictions::has(self.sets[m], a) {
                return self.shared(a, mask, m);
            }
            return self.behind(m, n, a);
        }
        0
    }

    // The break point of row r and cell i.
    fn entry(&self, masks: &[u64; PREDICTIONS_SIZE], r: usize, i: usize) -> u8
        requires row { r < max_nonterminals }
        requires within { i < predictions_size }
        ensures { result ≡ entry_of self.now.sets.now self.now.steps.now masks.now self.now.shape.t r i }
    {
        let first = self.shape.first;
        self.point(
            first + r,
            first + i / grammar::COLUMNS,
            i % grammar::COLUMNS,
            masks[i],
        ) as u8
    }

    // All break points, onto zeros.
    fn write_breaks(&self, masks: &[u64; PREDICTIONS_SIZE], w: &mut [u8])
        requires { length w.old ≡ breaks_size }
        ensures { Broken (entry_of self.now.sets.now self.now.steps.now masks.now self.now.shape.t) self.now.shape.n (self.now.shape.t + 1) self.now.shape.n w.new }
    {
        w.fill(0);
        for r in 0..self.shape.n {
            let at = r * ROW_SIZE;
            self.shape.fill(&mut w[at..at + ROW_SIZE], move |i| self.entry(masks, r, i));
        }
    }

    // The break point of rows r and q at a by w's break points, where the symbol of r is not on the stem of q's.
    fn down(&self, r: usize, q: usize, a: usize, w: &[u8]) -> usize
        requires ahead { a < columns }
        requires upper { r < max_nonterminals }
        requires lower { q < max_nonterminals }
        ensures is { result ≡ down_of self.now.steps.now self.now.shape.t w.now r q a }
        ensures small { result < 256 }
    {
        let first = self.shape.first;
        let x = self.step_at(r * grammar::COLUMNS + a);
        if x < first {
            return x;
        }
        base::byte_at(w, (x - first) * ROW_SIZE + q * grammar::COLUMNS + a)
    }

    // The same where a begins both symbols.
    fn meet(&self, r: usize, q: usize, a: usize, w: &[u8]) -> usize
        requires ahead { a < columns }
        requires upper { r < max_nonterminals }
        requires lower { q < max_nonterminals }
        ensures is { result ≡ meet_of self.now.steps.now self.now.shape.t w.now r q a }
        ensures small { result < 256 }
    {
        let first = self.shape.first;
        if r == q {
            return first + r;
        }
        let y = self.step_at(q * grammar::COLUMNS + a);
        if y < first {
            return self.down(r, q, a, w);
        }
        if base::byte_at(w, r * ROW_SIZE + (y - first) * grammar::COLUMNS + a) == first + r {
            return first + r;
        }
        self.down(r, q, a, w)
    }

    // The same of row r and cell i.
    fn implied(&self, r: usize, i: usize, w: &[u8]) -> usize
        requires row { r < max_nonterminals }
        requires within { i < predictions_size }
        ensures is { result ≡ implied_of self.now.sets.now self.now.steps.now self.now.shape.t w.now r i }
        ensures small { result < 256 }
    {
        if self.step_at(i) == 0 {
            return 0;
        }
        let first = self.shape.first;
        let q = i / grammar::COLUMNS;
        let a = i % grammar::COLUMNS;
        if self.step_at(r * grammar::COLUMNS + a) == 0 {
            return self.behind(first + r, first + q, a);
        }
        self.meet(r, q, a, w)
    }

    // Lists the cells of the grammar that have a step; how many there are. Not by `fill`: a cell's place in the list depends on the cells before it.
    fn list_live(&self, live: &mut [u16; PREDICTIONS_SIZE]) -> usize
        ensures listed { Live self.now.steps.now self.now.shape.n (self.now.shape.t + 1) self.now.shape.n 0 live.new result }
        ensures fits { result ≤ predictions_size }
    {
        let mut k = 0;
        for q in 0..self.shape.n {
            for a in 0..self.shape.first {
                let i = q * grammar::COLUMNS + a;
                if self.step_at(i) != 0 {
                    live[k] = i as u16;
                    k += 1;
                }
            }
        }
        k
    }

    // The break points of row r that w's break points imply, at the cells that have a step. The row is 0 at the others.
    fn imply_row(&self, live: &[u16], r: usize, w: &[u8], row: &mut [u8; ROW_SIZE])
        requires row { r < self.now.shape.n }
        requires listed { Live self.now.steps.now self.now.shape.n (self.now.shape.t + 1) self.now.shape.n 0 live.now (length live.now) }
        requires quiet { Quiet self.now.steps.now self.now.shape.n (self.now.shape.t + 1) row.old }
        ensures { Grid 0 (implied_of self.now.sets.now self.now.steps.now self.now.shape.t w.now r) (self.now.shape.t + 1) self.now.shape.n self.now.shape.n 0 row.old row.new }
    {
        for &x in live {
            let i = usize::from(x);
            row[i] = self.implied(r, i, w) as u8;
        }
    }

    // Whether the bytes are break points that imply themselves, row by row.
    fn holds_breaks(&self, w: &[u8]) -> bool
        requires { length w.now ≡ breaks_size }
        ensures { Tells (Broken (implied_of self.now.sets.now self.now.steps.now self.now.shape.t w.now) self.now.shape.n (self.now.shape.t + 1) self.now.shape.n w.now) result }
    {
        let mut cells = [0u16; PREDICTIONS_SIZE];
        let k = self.list_live(&mut cells);
        let live = &cells[..k];
        let mut row = [0u8; ROW_SIZE];
        for r in 0..self.shape.n {
            self.imply_row(live, r, w, &mut row);
            let at = r * ROW_SIZE;
            if !base::same(&w[at..at + ROW_SIZE], &row) {
                return false;
            }
        }
        zero_rows(&w[self.shape.n * ROW_SIZE..])
    }

    // The predictions in the cells, then the break points. The tail of the lent tables, from byte 1,024, is lent on to the break-point writer.
    fn lay(
        &self,
        cells: &[u8; PREDICTIONS_SIZE],
        masks: &[u64; PREDICTIONS_SIZE],
        tables: &mut [u8],
    )
        requires { length tables.old ≡ tables_size }
        ensures { Laid cells.now (entry_of self.now.sets.now self.now.steps.now masks.now self.now.shape.t) self.now.shape.n (self.now.shape.t + 1) tables.new }
    {
        tables[..PREDICTIONS_SIZE].copy_from_slice(cells);
        self.write_breaks(masks, &mut tables[PREDICTIONS_SIZE..]);
    }

    // Whether the bytes are the predictions in the cells, then break points that imply themselves.
    fn holds(&self, cells: &[u8; PREDICTIONS_SIZE], tables: &[u8]) -> bool
        requires { length tables.now ≡ tables_size }
        ensures { Tells (Laid cells.now (implied_of self.now.sets.now self.now.steps.now self.now.shape.t (drop predictions_size tables.now)) self.now.shape.n (self.now.shape.t + 1) tables.now) result }
    {
        base::same(&tables[..PREDICTIONS_SIZE], cells)
            && self.holds_breaks(&tables[PREDICTIONS_SIZE..])
    }
}

// Writes the tables of the grammar in the rows, which passes replies 1 to 3; `sets` are its words and `cells` its predictions.
pub fn write_tables(
    rows: &[u8],
    head: Head,
    sets: &[u32; SETS_SIZE],
    cells: &[u8; PREDICTIONS_SIZE],
    tables: &mut [u8],
)
    requires { Ready rows.now head sets.now cells.now × (length tables.old ≡ tables_size) }
    ensures { Tables (grammar_in rows.now head) tables.new }
{
    let shape = Shape {
        t: head.t,
        first: head.t + 1,
        n: head.n,
    };
    let mut steps = [0u8; PREDICTIONS_SIZE];
    shape.fill(&mut steps, |i| shape.step_of(rows, sets, cells, i));
    let stems = Stems {
        sets,
        steps: &steps,
        shape,
    };
    let mut masks = [0u64; PREDICTIONS_SIZE];
    shape.fill(&mut masks, |i| stems.mask(i));
    stems.lay(cells, &masks, tables);
}

// Whether the bytes are what `write_tables` writes.
pub fn is_prepared(
    rows: &[u8],
    head: Head,
    sets: &[u32; SETS_SIZE],
    cells: &[u8; PREDICTIONS_SIZE],
    tables: &[u8],
) -> bool
    requires { Ready rows.now head sets.now cells.now }
    ensures { Tells (Tables (grammar_in rows.now head) tables.now) result }
{
    if tables.len() != TABLES_SIZE {
        return false;
    }
    let shape = Shape {
        t: head.t,
        first: head.t + 1,
        n: head.n,
    };
    let mut steps = [0u8; PREDICTIONS_SIZE];
    shape.fill(&mut steps, |i| shape.step_of(rows, sets, cells, i));
    let stems = Stems {
        sets,
        steps: &steps,
        shape,
    };
    stems.holds(cells, tables)
}
