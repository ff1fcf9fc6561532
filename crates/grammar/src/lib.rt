// The reader of grammar images, the rows that it leaves, and the reference grammar.
#![tactic(auto)]

ghost use Rattle.std.specs.Prelude.{◌≡◌, ◌+◌, ◌<◌, ◌≤◌, length, get_or, IfSome, MatchResult};
ghost use Rattle.base.specs.Tells.{Tells};
ghost use Rattle.base.specs.Blocks.{zeros};
ghost use Rattle.grammar.specs.Limits.{max_terminals, max_nonterminals};
ghost use Rattle.grammar.specs.Grammar.{AllowedHead};
ghost use Rattle.grammar.specs.Image.{Bad};
ghost use Rattle.grammar.specs.Rows.{row_size, rows_size, symbol_space, body_space, row_at, rows_of, head_of, left_at, length_at, symbol_at};
ghost use Rattle.grammar.specs.Reading.{Headed, HeadRead, Symbols, Starts};
ghost use Rattle.grammar.specs.Outcome.{Reads};
ghost use Rattle.grammar.specs.Reference.{reference};

// Document 01's limits, marks and record sizes.
pub const MAX_TERMINALS: usize = 31;

pub const MAX_NONTERMINALS: usize = 32;

// Lookaheads: the end mark and the terminals.
pub const COLUMNS: usize = 32;

pub const MAX_PRODUCTIONS: usize = 128;

pub const MAX_BODY: usize = 8;

const RECORD_MARK: u8 = 0x47;

const HEAD_MARK: u8 = 0x48;

const PRODUCTION_MARK: u8 = 0x50;

const HEAD_SIZE: usize = 5;

const PREFIX_SIZE: usize = 4;

// A row is a left side, a body length, the body, and zeros.
pub const ROW_SIZE: usize = 2 + MAX_BODY;

pub const ROWS_SIZE: usize = MAX_PRODUCTIONS * ROW_SIZE;

pub const SYMBOL_SPACE: usize = 1 + MAX_TERMINALS + MAX_NONTERMINALS;

pub const BODY_SPACE: usize = 1 + MAX_BODY;

// What a good image's head says, and how many productions follow it. Rows and a head go side by side in calls, in no struct: a clause would say
// `grammar_in rules.entry.rows.now rules.entry.head` for `grammar_in rows.now head`. No ghost field bounds the numbers: that would ask more of callers.
#[derive(Clone, Copy, Debug, PartialEq, Eq)]
pub struct Head {
    pub t: usize,
    pub n: usize,
    pub start: usize,
    pub count: usize,
}

// An image's first bad record stands at an offset.
#[derive(Clone, Copy, Debug, PartialEq, Eq)]
pub struct BadRecord {
    pub offset: usize,
}

fn head_allowed(t: usize, n: usize, s: usize) -> bool
    ensures { Tells (AllowedHead t n s) result }
{
    1 <= t && t <= MAX_TERMINALS && 1 <= n && n <= MAX_NONTERMINALS && t < s && s <= t + n
}

// The head that the image begins with, and no production yet.
#[tactic(auto, using(crate::specs::Reading::heads))]
fn read_head(image: &[u8]) -> Option<Head>
    ensures { HeadRead image.now result }
{
    let [RECORD_MARK, HEAD_MARK, t, n, s, ..] = image else {
        return None;
    };
    let t = usize::from(*t);
    let n = usize::from(*n);
    let start = usize::from(*s);
    if !head_allowed(t, n, start) {
        return None;
    }
    Some(Head {
        t,
        n,
        start,
        count: 0,
    })
}

// Whether every byte is a symbol, 1..last.
fn all_symbols(b: &[u8], last: usize) -> bool
    ensures { Tells (Symbols last b.now) result }
{
    b.iter().all(|x| 1 <= *x && usize::from(*x) <= last)
}

// The size of the production record that stands first.
#[tactic(auto, using(crate::specs::Reading::starting))]
fn production_size(rest: &[u8], t: usize, n: usize) -> Option<usize>
    requires { (t ≤ max_terminals) × (n ≤ max_nonterminals) }
    ensures { Starts t n rest.now result × IfSome result (λ size. size ≤ length rest.now) }
{
    let [RECORD_MARK, PRODUCTION_MARK, left, length, behind @ ..] = rest else {
        return None;
    };
    let left = usize::from(*left);
    let length = usize::from(*length);
    if left <= t || t + n < left || MAX_BODY < length {
        return None;
    }
    let body = behind.get(..length)?;
    if !all_symbols(body, t + n) {
        return None;
    }
    Some(PREFIX_SIZE + length)
}

// The productions behind the head, one row each. After each record the rest of the image is read by the same rule.
fn read_productions(
    image: &[u8],
    mut head: Head,
    rows: &mut [u8; ROWS_SIZE],
) -> Result<Head, BadRecord>
    requires { Headed image.now head.t head.n head.start × (head.count ≡ 0) × (rows.old ≡ zeros rows_size) }
    ensures { MatchResult result (λ h. Reads image.now result rows.new) (λ e. Bad image.now e.offset) }
{
    let mut rest = &image[HEAD_SIZE..];
    let mut offset: usize = HEAD_SIZE;
    // A `while`: document 01 names the form, the part after each record handed on as a slice part.
    while !rest.is_empty() {
        if head.count == MAX_PRODUCTIONS {
            return Err(BadRecord { offset });
        }
        let size = production_size(rest, head.t, head.n).ok_or(BadRecord { offset })?;
        base::copy(rows, head.count * ROW_SIZE, &rest[2..size]);
        rest = &rest[size..];
        head.count += 1;
        offset += size;
    }
    Ok(head)
}

// Reads an image: the grammar's head, and its productions in the rows; or the offset of the first bad record, and rows of zeros.
pub fn read_grammar(image: &[u8], rows: &mut [u8; ROWS_SIZE]) -> Result<Head, BadRecord>
    ensures { Reads image.now result rows.new }
{
    rows.fill(0);
    let head = read_head(image).ok_or(BadRecord { offset: 0 })?;
    let outcome = read_productions(image, head, rows);
    if outcome.is_err() {
        rows.fill(0);
    }
    outcome
}

// Byte j of row p, counted from 0. The rows are bytes in fixed memory: the library has no heap.
#[tactic(auto, using(crate::specs::Rows::row_reads))]
fn row_byte(rows: &[u8], p: usize, j: usize) -> usize
    requires { j < row_size }
    ensures { result ≡ get_or (row_at rows.now p) j 0 }
{
    if p <= rows.len() / ROW_SIZE {
        base::byte_at(rows, p * ROW_SIZE + j)
    } else {
        0
    }
}

// The left side of the production in row p.
#[tactic(auto, unfolding(crate::specs::Rows::left_at))]
pub fn left_at(rows: &[u8], p: usize) -> usize
    ensures { (result ≡ left_at rows.now p) × (result < symbol_space) }
{
    row_byte(rows, p, 0) % SYMBOL_SPACE
}

// The length of its body.
#[tactic(auto, unfolding(crate::specs::Rows::length_at))]
pub fn length_at(rows: &[u8], p: usize) -> usize
    ensures { (result ≡ length_at rows.now p) × (result < body_space) }
{
    row_byte(rows, p, 1) % BODY_SPACE
}

// Symbol j of its body.
#[tactic(auto, using(crate::specs::Rows::row_reads), unfolding(crate::specs::Rows::symbol_at))]
pub fn symbol_at(rows: &[u8], p: usize, j: usize) -> usize
    ensures { (result ≡ symbol_at rows.now p j) × (result < symbol_space) }
{
    if j < MAX_BODY {
        row_byte(rows, p, 2 + j) % SYMBOL_SPACE
    } else {
        0
    }
}

// "The reference grammar is built in as a constant table of 49 bytes".
pub const REFERENCE: [u8; 49] = [
    0x47, 0x48, 0x05, 0x05, 0x06, 0x47, 0x50, 0x06, 0x02, 0x07, 0x06, 0x47, 0x50, 0x06, 0x00, 0x47,
    0x50, 0x07, 0x04, 0x01, 0x08, 0x0A, 0x05, 0x47, 0x50, 0x08, 0x02, 0x02, 0x09, 0x47, 0x50, 0x09,
    0x02, 0x03, 0x08, 0x47, 0x50, 0x09, 0x00, 0x47, 0x50, 0x0A, 0x02, 0x04, 0x08, 0x47, 0x50, 0x0A,
    0x00,
];

// The reference grammar, by the same reader as any lent image.
#[tactic(auto, using(crate::specs::Reference::reference_read), unfolding(crate::specs::Reference::reference_image))]
pub fn read_reference(rows: &mut [u8; ROWS_SIZE]) -> Result<Head, BadRecord>
    ensures { (result ≡ Ok (head_of reference)) × (rows.new ≡ rows_of reference.productions) }
{
    read_grammar(&REFERENCE, rows)
}
