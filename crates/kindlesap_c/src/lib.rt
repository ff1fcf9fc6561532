// The public calls for C: each writes its reply as bytes, as much of it as fits.
#![tactic(auto)]

ghost use Rattle.std.specs.Prelude.{[], length};
ghost use Rattle.calls.specs.Order.{Called};
ghost use Rattle.calls.specs.Prepare.{prepare_call};
ghost use Rattle.calls.specs.Parse.{parse_call};
ghost use Rattle.calls.specs.Edit.{edit_call};
ghost use Rattle.calls.specs.ReadBack.{read_back_call};

#[unsafe(no_mangle)]
pub extern "C" fn kindlesap_prepare(grammar: &[u8], tables: &mut [u8], reply: &mut [u8])
    ensures { Called (prepare_call grammar.now (length tables.old)) tables.old
        [] reply.old tables.new [] reply.new }
{
    let r = kindlesap::prepare(grammar, tables);
    replies::write_reply(r, reply);
}

#[unsafe(no_mangle)]
pub extern "C" fn kindlesap_parse(
    grammar: &[u8],
    tables: &[u8],
    tokens: &[u8],
    tree: &mut [u8],
    work: &mut [u8],
    reply: &mut [u8],
)
    ensures { Called (parse_call grammar.now tables.now tokens.now
        (length work.old) (length tree.old)) tree.old work.old
        reply.old tree.new work.new reply.new }
{
    let r = kindlesap::parse(grammar, tables, tokens, tree, work);
    replies::write_reply(r, reply);
}

#[unsafe(no_mangle)]
pub extern "C" fn kindlesap_edit(
    grammar: &[u8],
    tables: &[u8],
    tree: &mut [u8],
    place: u32,
    removed: u32,
    tokens: &[u8],
    work: &mut [u8],
    reply: &mut [u8],
)
    ensures { Called (edit_call grammar.now tables.now tokens.now place removed
        (length work.old) tree.old) tree.old work.old reply.old
        tree.new work.new reply.new }
{
    let r = kindlesap::edit(grammar, tables, tree, place, removed, tokens, work);
    replies::write_reply(r, reply);
}

#[unsafe(no_mangle)]
pub extern "C" fn kindlesap_read_back(
    grammar: &[u8],
    tree: &[u8],
    output: &mut [u8],
    reply: &mut [u8],
)
    ensures { Called (read_back_call grammar.now tree.now output.old)
        output.old [] reply.old output.new [] reply.new }
{
    let r = kindlesap::read_back(grammar, tree, output);
    replies::write_reply(r, reply);
}
