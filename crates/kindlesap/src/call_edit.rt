// The call edit, but for zeroing the work area.
ghost use Rattle.std.specs.Prelude.{length};
ghost use Rattle.replies.specs.Reply.{reply_of};
ghost use Rattle.calls.specs.Order.{Outcome};
ghost use Rattle.calls.specs.Edit.{edit_call};

use crate::checks::Analysis;
use altering::{Change, Language};
use replies::{Counts, Reason};

// The checks of edit in their order, then the new tree.
pub fn edit_checked(
    image: &[u8],
    tables: &[u8],
    tree: &mut [u8],
    place: u32,
    removed: u32,
    tokens: &[u8],
    work: &mut [u8],
) -> Result<Counts, Reason>
    ensures { Outcome (edit_call image.now tables.now tokens.now place removed
        (length work.old) tree.old) tree.old (reply_of result) tree.new }
{
    // Replies 1, 2, 3
    let mut found = Analysis::new();
    let head = found.check(image)?;
    // Reply 4
    if !tables::is_prepared(&found.rows, head, &found.sets, &found.cells, tables) {
        return Err(Reason::WrongTables);
    }
    // Reply 5
    let slots = crate::checks::slots_of(tree.len()).ok_or(Reason::WrongTree)?;
    // Replies 5, 6
    let nodes = editing::old_tree(tree, slots, &found.rows, head, work)?;
    // Reply 7
    plain::read_tokens(tokens, head.t).map_err(crate::checks::bad_token)?;
    // Reply 8
    let old_tokens = base::get16(tree, trees::TOKENS_PLACE);
    if !editing::in_range(place, removed, old_tokens) {
        return Err(Reason::BeyondTokens(old_tokens as u64));
    }
    // Replies 9, 10
    let language = Language {
        rows: &found.rows,
        head,
        tables,
    };
    let change = Change {
        place: place as usize,
        removed: removed as usize,
        tokens,
    };
    editing::renew(language, slots, nodes, change, work, tree)
}
