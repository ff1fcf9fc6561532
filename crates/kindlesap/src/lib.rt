// The public calls.
#![tactic(auto)]

mod call_edit;
mod call_parse;
mod call_prepare;
mod call_read_back;
mod checks;

ghost use Rattle.std.specs.Prelude.{length};
ghost use Rattle.calls.specs.Order.{Outcome, Ends};
ghost use Rattle.calls.specs.Prepare.{prepare_call};
ghost use Rattle.calls.specs.Parse.{parse_call};
ghost use Rattle.calls.specs.Edit.{edit_call};
ghost use Rattle.calls.specs.ReadBack.{read_back_call};

use replies::Reply;

// Prepares the tables of a grammar image.
pub fn prepare(image: &[u8], tables: &mut [u8]) -> Reply
    ensures { Outcome (prepare_call image.now (length tables.old)) tables.old result
        tables.new }
{
    call_prepare::prepare_checked(image, tables).into()
}

// Parses tokens into a tree.
pub fn parse(image: &[u8], tables: &[u8], tokens: &[u8], tree: &mut [u8], work: &mut [u8]) -> Reply
    ensures { Ends (parse_call image.now tables.now tokens.now
        (length work.old) (length tree.old)) tree.old work.old result
        tree.new work.new }
{
    let call = call_parse::parse_checked(image, tables, tokens, tree, work);
    work.fill(0);
    call.into()
}

// Replaces a run of a tree's tokens, from a place on, by others.
pub fn edit(
    image: &[u8],
    tables: &[u8],
    tree: &mut [u8],
    place: u32,
    removed: u32,
    tokens: &[u8],
    work: &mut [u8],
) -> Reply
    ensures { Ends (edit_call image.now tables.now tokens.now place removed
        (length work.old) tree.old) tree.old work.old result tree.new
        work.new }
{
    let call = call_edit::edit_checked(image, tables, tree, place, removed, tokens, work);
    work.fill(0);
    call.into()
}

// Reads a tree's tokens back.
pub fn read_back(image: &[u8], tree: &[u8], output: &mut [u8]) -> Reply
    ensures { Outcome (read_back_call image.now tree.now output.old)
        output.old result output.new }
{
    call_read_back::read_back_checked(image, tree, output).into()
}
