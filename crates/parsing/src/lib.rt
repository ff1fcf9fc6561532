// The parse of lent tokens: as many of them as it can look at are put where the plain parse reads its tokens.
#![tactic(auto)]

ghost use Rattle.std.specs.Prelude.{◌+◌, ◌*◌, ◌≤◌, length};
ghost use Rattle.grammar.specs.Rows.{grammar_in};
ghost use Rattle.trees.specs.Area.{max_slots};
ghost use Rattle.plain.specs.Text.{parse_size};
ghost use Rattle.plain.specs.Machine.{Ground};
ghost use Rattle.plain.specs.Outcome.{Ran};

use grammar::Head;
use plain::ParseError;

// The plain parse of m good tokens into so many slots. The nodes stand at the beginning of `work`.
pub fn parse_lent(
    tokens: &[u8],
    m: usize,
    tables: &[u8],
    rows: &[u8],
    head: Head,
    slots: usize,
    work: &mut [u8],
) -> Result<usize, ParseError>
    requires { Ground rows.now head tables.now tokens.now m × (1 ≤ slots) × (slots ≤ max_slots) × (parse_size slots (slots + 1) ≤ length work.old) }
    ensures { Ran (grammar_in rows.now head) slots tokens.now m work.new result }
{
    let r = m.min(slots + 1);
    let (_, rest) = work.split_at_mut(trees::NODE_SIZE * slots);
    let (text, _) = rest.split_at_mut(plain::TOKEN_SIZE * r);
    base::copy(text, 0, &tokens[..plain::TOKEN_SIZE * r]);
    plain::parse(r, tables, rows, head, slots, work)
}
