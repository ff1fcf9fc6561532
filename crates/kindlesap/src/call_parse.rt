// The call parse, but for zeroing the work area.
ghost use Rattle.std.specs.Prelude.{◌*◌, ◌/◌, ◌≤◌, length};
ghost use Rattle.grammar.specs.Rows.{grammar_in};
ghost use Rattle.trees.specs.Area.{work_areas};
ghost use Rattle.plain.specs.Tokens.{token_size};
ghost use Rattle.plain.specs.Machine.{Ground};
ghost use Rattle.altering.specs.Outcome.{tokens_in};
ghost use Rattle.replies.specs.Reply.{reply_of};
ghost use Rattle.calls.specs.Order.{Outcome};
ghost use Rattle.calls.specs.Checks.{Sized};
ghost use Rattle.calls.specs.Parse.{store_call, parse_call};

use crate::checks::Analysis;
use altering::Language;
use replies::{Counts, Reason};

// Replies 9 and 10, or the tree of good tokens.
fn parse_tokens(
    language: Language,
    tokens: &[u8],
    slots: usize,
    tree: &mut [u8],
    work: &mut [u8],
) -> Result<Counts, Reason>
    requires { Ground language.rows.now language.head language.tables.now tokens.now (length tokens.now / token_size)
        × Sized slots (length tree.old) × (work_areas * length tree.old ≤ length work.old) }
    ensures { Outcome (store_call (grammar_in language.entry.rows.now language.entry.head) slots
        (tokens_in tokens.now)) tree.old (reply_of result) tree.new }
{
    let Language { rows, head, tables } = language;
    let m = tokens.len() / plain::TOKEN_SIZE;
    let o = parsing::parse_lent(tokens, m, tables, rows, head, slots, work).map_err(
        editing::reason_of,
    )?;
    trees::lay_out(work, o, rows, slots, tree);
    Ok(Counts {
        total: o as u32,
        made: o as u32,
        ..Counts::default()
    })
}

// The checks of parse in their order, then the tree of the tokens.
pub fn parse_checked(
    image: &[u8],
    tables: &[u8],
    tokens: &[u8],
    tree: &mut [u8],
    work: &mut [u8],
) -> Result<Counts, Reason>
    ensures { Outcome (parse_call image.now tables.now tokens.now
        (length work.old) (length tree.old)) tree.old (reply_of result) tree.new }
{
    // Replies 1, 2, 3
    let mut found = Analysis::new();
    let head = found.check(image)?;
    // Reply 4
    if !tables::is_prepared(&found.rows, head, &found.sets, &found.cells, tables) {
        return Err(Reason::WrongTables);
    }
    // Reply 5
    let slots = crate::checks::slots_of(tree.len()).ok_or(Reason::WrongTree)?;
    // Reply 6
    let need = trees::WORK_AREAS * tree.len();
    if work.len() < need {
        return Err(Reason::ShortWork(need as u64));
    }
    // Reply 7
    plain::read_tokens(tokens, head.t).map_err(crate::checks::bad_token)?;
    // Replies 9, 10
    let language = Language {
        rows: &found.rows,
        head,
        tables,
    };
    parse_tokens(language, tokens, slots, tree, work)
}
