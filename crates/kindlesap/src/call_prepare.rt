// The call prepare.
ghost use Rattle.std.specs.Prelude.{length};
ghost use Rattle.replies.specs.Reply.{reply_of};
ghost use Rattle.calls.specs.Order.{Outcome};
ghost use Rattle.calls.specs.Prepare.{prepare_call};

use crate::checks::Analysis;
use replies::{Counts, Reason};

// The checks of prepare in their order, then the tables.
pub fn prepare_checked(image: &[u8], tables: &mut [u8]) -> Result<Counts, Reason>
    ensures { Outcome (prepare_call image.now (length tables.old)) tables.old
        (reply_of result) tables.new }
{
    // Replies 1, 2, 3
    let mut found = Analysis::new();
    let head = found.check(image)?;
    // Reply 4
    if tables.len() != tables::TABLES_SIZE {
        return Err(Reason::WrongTables);
    }
    tables::write_tables(&found.rows, head, &found.sets, &found.cells, tables);
    Ok(Counts::default())
}
