// A production as one number, its left side and its body.
ghost use Rattle.std.specs.Prelude.{◌≡◌, ◌∷◌};
ghost use Rattle.base.specs.Blocks.{zeros};
ghost use Rattle.grammar.specs.Rows.{left_at};
ghost use Rattle.grammar.specs.RowRules.{body_at};
ghost use Rattle.walks.specs.Digits.{Digits};
ghost use Rattle.walks.specs.Words.{word_count, Worded};

// A word for each number that a slot's byte may name as its production.
pub const WORDS: usize = 256;

// Symbols are digits with this added, so that none is 0, in this base.
pub const DIGIT: usize = 64;

pub const BASE: usize = 128;

// The left side and the body of the production in row q as one number.
fn word_of(rows: &[u8], q: usize) -> usize
    ensures { Digits (left_at rows.now q ∷ body_at rows.now q) result }
{
    let mut v: usize = 0;
    for j in (0..grammar::length_at(rows, q)).rev() {
        v = BASE * v + DIGIT + grammar::symbol_at(rows, q, j);
    }
    BASE * v + DIGIT + grammar::left_at(rows, q)
}

// The words of the productions, each at its number; the others stay 0. They are written in place: an array of 2,048 bytes that is returned is copied.
pub fn fill_words(rows: &[u8], count: usize, words: &mut [usize; WORDS])
    requires { words.old ≡ zeros word_count }
    ensures { Worded rows.now count words.new }
{
    for q in 0..count.min(WORDS - 1) {
        words[q + 1] = word_of(rows, q);
    }
}
