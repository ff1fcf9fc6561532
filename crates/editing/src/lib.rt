// An edit's old tree (replies 5 and 6), its range (8), and the rest of the call (9, 10).
#![tactic(auto)]

ghost use Rattle.std.specs.Prelude.{◌≡◌, ◌+◌, ◌-◌, ◌*◌, ◌≤◌, ◌<◌, length};
ghost use Rattle.base.specs.Bytes.{get16};
ghost use Rattle.base.specs.Tells.{Tells};
ghost use Rattle.grammar.specs.Prediction.{Prepared};
ghost use Rattle.grammar.specs.Rows.{symbol_space, grammar_in};
ghost use Rattle.tables.specs.Tables.{Tables};
ghost use Rattle.trees.specs.Area.{max_slots, work_areas, tokens_place, Valid};
ghost use Rattle.plain.specs.Tokens.{Sentence};
ghost use Rattle.edits.specs.Keeping.{edit_of};
ghost use Rattle.altering.specs.Outcome.{tokens_in};
ghost use Rattle.altering.specs.Treed.{Treed};
ghost use Rattle.calls.specs.Checks.{Sized};
ghost use Rattle.editing.specs.Editing.{Finds, Renews, edit_counts, reason_of};

use altering::{Altered, Change, Language};
use grammar::Head;
use plain::ParseError;
use replies::{Counts, Reason};

// Whether an area of that many slots is a valid tree, found in a local array, where the lent work area is too short.
fn is_tree(tree: &[u8], slots: usize, rows: &[u8], head: Head) -> bool
    requires { Sized slots (length tree.now) × (head.start < symbol_space) }
    ensures { Tells (Valid (grammar_in rows.now head) slots tree.now) result }
{
    let mut work = [0u8; walks::WALK_SIZE];
    walks::read_tree(tree, slots, rows, head, &mut work).is_some()
}

// Replies 5 and 6 of an area of that many slots; or the old tree's number of nodes, which are listed in the work area.
pub fn old_tree(
    tree: &[u8],
    slots: usize,
    rows: &[u8],
    head: Head,
    work: &mut [u8],
) -> Result<usize, Reason>
    requires { Sized slots (length tree.now) × (head.start < symbol_space) }
    ensures { Finds (grammar_in rows.now head) slots tree.now (length work.old)
        work.new result }
{
    let need = trees::WORK_AREAS * tree.len();
    if work.len() < need {
        if is_tree(tree, slots, rows, head) {
            return Err(Reason::ShortWork(need as u64));
        }
        return Err(Reason::WrongTree);
    }
    walks::read_tree(tree, slots, rows, head, work).ok_or(Reason::WrongTree)
}

// Reply 8: whether the run is inside a sentence of `tokens` tokens.
pub fn in_range(place: u32, removed: u32, tokens: usize) -> bool
    ensures { Tells (place + removed ≤ tokens) result }
{
    place as usize + removed as usize <= tokens
}

// Replies 9 and 10. No `From`: neither type is of this crate, nor may one of theirs name the other.
pub fn reason_of(error: ParseError) -> Reason
    ensures { result ≡ reason_of error }
{
    match error {
        ParseError::Syntax(token, expected) => Reason::Syntax(token as u64, expected),
        ParseError::NoRoom => Reason::NoRoom,
    }
}

// Reply 0, where the old tree has o nodes.
fn counts_of(o: usize, altered: Altered) -> Counts
    requires { (altered.kept ≤ o) × (altered.kept ≤ altered.total) × (o ≤ max_slots) × (altered.total ≤ max_slots) }
    ensures { result ≡ edit_counts altered.total altered.kept (altered.total - altered.kept) (o - altered.kept) }
{
    let Altered { total, kept } = altered;
    Counts {
        total: total as u32,
        kept: kept as u32,
        made: (total - kept) as u32,
        given_up: (o - kept) as u32,
    }
}

// Replies 9 and 10, or the new tree, where good tokens replace a run of the tree of o nodes.
#[tactic(auto, using(crate::specs::Editing::renews_no_room))]
pub fn renew(
    language: Language,
    slots: usize,
    o: usize,
    change: Change,
    work: &mut [u8],
    tree: &mut [u8],
) -> Result<Counts, Reason>
    requires { Prepared (grammar_in language.rows.now language.head)
        × Tables (grammar_in language.rows.now language.head) language.tables.now
        × Treed (grammar_in language.rows.now language.head) slots tree.old work.old o
        × Sentence language.head.t change.tokens.now (tokens_in change.tokens.now)
        × (change.place + change.removed ≤ get16 tree.old tokens_place)
        × (work_areas * length tree.old ≤ length work.old) }
    ensures { Renews (grammar_in language.entry.rows.now language.entry.head) slots
        (edit_of change.entry.place change.entry.removed (tokens_in change.entry.tokens.now)) tree.old
        result tree.new }
{
    let call = altering::alter(language, slots, o, change, work, tree);
    let altered = call.map_err(reason_of)?;
    Ok(counts_of(o, altered))
}
