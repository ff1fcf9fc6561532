// The call read back.
ghost use Rattle.replies.specs.Reply.{reply_of};
ghost use Rattle.calls.specs.Order.{Outcome};
ghost use Rattle.calls.specs.ReadBack.{read_back_call};

use crate::checks::Analysis;
use replies::{Counts, Reason};

// The checks of read back in their order, then the tokens. They are put together in a local, after the room for the tree's nodes.
pub fn read_back_checked(image: &[u8], tree: &[u8], output: &mut [u8]) -> Result<Counts, Reason>
    ensures { Outcome (read_back_call image.now tree.now output.old) output.old
        (reply_of result) output.new }
{
    // Replies 1, 2, 3
    let mut found = Analysis::new();
    let head = found.check(image)?;
    // Reply 5
    let slots = crate::checks::slots_of(tree.len()).ok_or(Reason::WrongTree)?;
    let mut work = [0u8; walks::WALK_SIZE];
    let o = walks::read_tree(tree, slots, &found.rows, head, &mut work).ok_or(Reason::WrongTree)?;
    // Reply 11
    let tokens = base::get16(tree, trees::TOKENS_PLACE);
    let need = plain::TOKEN_SIZE * tokens;
    if output.len() < need {
        return Err(Reason::ShortOutput(need as u64));
    }
    sentences::give_out(&mut work, o, trees::NODE_SIZE * slots, tokens, output);
    Ok(Counts {
        total: o as u32,
        ..Counts::default()
    })
}
