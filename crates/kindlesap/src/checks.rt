// The checks that several calls try.
ghost use Rattle.std.specs.Prelude.{◌≡◌};
ghost use Rattle.base.specs.Blocks.{zeros};
ghost use Rattle.tables.specs.Tables.{predictions_size};
ghost use Rattle.kindlesap.specs.AreaChecks.{Slotted};
ghost use Rattle.kindlesap.specs.GrammarChecks.{Checks};

use grammar::{BadRecord, Head};
use plain::BadToken;
use replies::Reason;

// Reply 1. No `From`: neither type is of this crate.
fn bad_grammar(bad: BadRecord) -> Reason
    ensures { result ≡ Reason.BadGrammar bad.offset }
{
    Reason::BadGrammar(bad.offset as u64)
}

// Reply 7.
pub fn bad_token(bad: BadToken) -> Reason
    ensures { result ≡ Reason.BadToken bad.number }
{
    Reason::BadToken(bad.number as u64)
}

// What the checks of an image find: its grammar's rows, its words and its predictions.
// A call owns it, and no check returns it: returned inside a Result it was copied, and prepare took 1.07 and parse 1.11 of the time.
#[derive(Drop)]
pub struct Analysis {
    pub rows: [u8; grammar::ROWS_SIZE],
    pub sets: [u32; sets::SETS_SIZE],
    pub cells: [u8; tables::PREDICTIONS_SIZE],
}

impl Analysis {
    pub fn new() -> Analysis
        ensures { result.cells ≡ zeros predictions_size }
    {
        Analysis {
            rows: [0u8; grammar::ROWS_SIZE],
            sets: [0u32; sets::SETS_SIZE],
            cells: [0u8; tables::PREDICTIONS_SIZE],
        }
    }

    // Replies 1 to 3 of an image, or its grammar's head. The cells are zero at first.
    pub fn check(&mut self, image: &[u8]) -> Result<Head, Reason>
        requires { self.old.cells ≡ zeros predictions_size }
        ensures { Checks image.now self.new result }
    {
        let head = grammar::read_grammar(image, &mut self.rows).map_err(bad_grammar)?;
        sets::analyse(&self.rows, head, &mut self.sets);
        if let Some(useless) = predictions::useless(&self.sets, head) {
            return Err(Reason::UselessSymbol(useless as u64));
        }
        if let Some(low) = predictions::predict(&self.rows, head, &self.sets, &mut self.cells) {
            return Err(Reason::NotLl1(low as u64));
        }
        Ok(head)
    }
}

// Reply 5 by the length alone: the slots of a tree area of `size` bytes.
pub fn slots_of(size: usize) -> Option<usize>
    ensures { Slotted size result }
{
    let bytes = size.checked_sub(trees::HEADER_SIZE)?;
    let slots = bytes / trees::SLOT_SIZE;
    if bytes % trees::SLOT_SIZE == 0 && 0 < slots && slots <= trees::MAX_SLOTS {
        Some(slots)
    } else {
        None
    }
}
