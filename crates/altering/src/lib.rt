// An edit of a valid tree by good tokens: the new sentence is formed and parsed, its nodes get their slots, and the area is laid out.
#![tactic(auto)]

ghost use Rattle.std.specs.Prelude.{◌+◌, ◌*◌, ◌/◌, ◌≤◌, length};
ghost use Rattle.grammar.specs.Rows.{grammar_in};
ghost use Rattle.trees.specs.Area.{tokens_place, work_areas};
ghost use Rattle.base.specs.Bytes.{get16};
ghost use Rattle.grammar.specs.Prediction.{Prepared};
ghost use Rattle.tables.specs.Tables.{Tables};
ghost use Rattle.notes.specs.Views.{notes_size, nodes_in};
ghost use Rattle.plain.specs.Tokens.{token_size, Sentence};
ghost use Rattle.edits.specs.Keeping.{edit_of};
ghost use Rattle.altering.specs.Treed.{Treed};
ghost use Rattle.altering.specs.Outcome.{tokens_in, AltersTree, Few};
ghost use Rattle.altering.specs.Altering.{Doubled, SettledAll};

use grammar::Head;
use plain::ParseError;

// A grammar in the rows, and its tables.
#[derive(Clone, Copy)]
pub struct Language<'a> {
    pub rows: &'a [u8],
    pub head: Head,
    pub tables: &'a [u8],
}

// A run of a tree's tokens, by its place and its length, and the tokens that replace it.
#[derive(Clone, Copy)]
pub struct Change<'a> {
    pub place: usize,
    pub removed: usize,
    pub tokens: &'a [u8],
}

// The new tree has so many nodes, of which so many kept their slots.
#[derive(Clone, Copy, Debug, PartialEq, Eq)]
pub struct Altered {
    pub total: usize,
    pub kept: usize,
}

// Gives the k nodes of the new tree their slots and lays them out; how many are kept. They stand in the work area behind room for `slots` nodes of the old tree, which has o;
// what is noted of both stands behind them.
fn settle(
    rows: &[u8],
    slots: usize,
    o: usize,
    k: usize,
    change: Change,
    work: &mut [u8],
    tree: &mut [u8],
) -> usize
    requires { Doubled rows.now slots change.place change.removed (length change.tokens.now / token_size) tree.old (nodes_in slots work.old) o k
        × (notes_size slots ≤ length work.old) }
    ensures { SettledAll rows.now slots change.entry.place change.entry.removed (length change.entry.tokens.now / token_size) tree.old
        (nodes_in slots work.old) o k result tree.new × (result ≤ k) × (result ≤ o) }
{
    let inserted = change.tokens.len() / plain::TOKEN_SIZE;
    matching::match_nodes(
        work,
        slots,
        o,
        k,
        rows,
        change.place,
        change.removed,
        inserted,
    );
    let kept = keeping::give_slots(work, slots, k);
    trees::lay_out(&work[trees::NODE_SIZE * slots..], k, rows, slots, tree);
    kept
}

// Replaces a run of the tree's tokens. Its o nodes stand at the beginning of the work area, and the range was looked at. Behind room for both trees' nodes the new sentence
// is formed, as far as a parse looks at it.
pub fn alter(
    language: Language,
    slots: usize,
    o: usize,
    change: Change,
    work: &mut [u8],
    tree: &mut [u8],
) -> Result<Altered, ParseError>
    requires { Prepared (grammar_in language.rows.now language.head) × Tables (grammar_in language.rows.now language.head) language.tables.now × Treed (grammar_in language.rows.now language.head) slots tree.old work.old o × Sentence language.head.t change.tokens.now (tokens_in change.tokens.now) × (change.place + change.removed ≤ get16 tree.old tokens_place) × (work_areas * length tree.old ≤ length work.old) }
    ensures { AltersTree (grammar_in language.entry.rows.now language.entry.head) slots (edit_of change.entry.place change.entry.removed (tokens_in change.entry.tokens.now)) tree.old result tree.new × Few o result }
{
    let Language { rows, head, tables } = language;
    let text = trees::NODE_SIZE * (slots + slots);
    let r = sentences::new_sentence(
        work,
        o,
        change.place,
        change.removed,
        change.tokens,
        slots + 1,
        text,
    );
    let total = plain::parse(
        r,
        tables,
        rows,
        head,
        slots,
        &mut work[trees::NODE_SIZE * slots..],
    )?;
    let kept = settle(rows, slots, o, total, change, work, tree);
    Ok(Altered { total, kept })
}
