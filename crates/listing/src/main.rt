// Reads token bytes from standard input, parses them with the built-in grammar and 1,000 slots, and prints the tree in preorder, or why there is none.
#![tactic(auto)]

ghost use Rattle.std.specs.Prelude.{◌≡◌, ◌+◌, ◌*◌, ◌<◌, ◌≤◌, [], ◌++◌, length};
ghost use Rattle.arrayvec.specs.ArrayString.{array_string_len};
ghost use Rattle.trees.specs.Area.{max_slots};
ghost use Rattle.replies.specs.Reply.{counts_of};
ghost use Rattle.listing.specs.Text.{row, refused_text, Prints};
ghost use Rattle.listing.specs.Writing.{field_room, line_room, text_room};
ghost use Rattle.listing.specs.Rows.{slot_row, area_text};
ghost use Rattle.listing.specs.Printing.{reply_text};

use arrayvec::ArrayString;
use itoa::Buffer;
use replies::Reply;

// "Input above 5,000 bytes prints `refused 7 1000 0`".
const MAX_INPUT: usize = 5000;

const SLOTS: usize = trees::MAX_SLOTS;

const AREA_SIZE: usize = trees::HEADER_SIZE + trees::SLOT_SIZE * SLOTS;

const WORK_SIZE: usize = trees::WORK_AREAS * AREA_SIZE;

// A 64-bit number has at most 20 digits, and a mark behind it; a line has at most five such fields.
const FIELD_ROOM: usize = 21;

const TEXT_ROOM: usize = 5 * FIELD_ROOM * (SLOTS + 1);

// A text as it is written, in room for the longest.
type Text = ArrayString<TEXT_ROOM>;

// A line: the fields one space apart, and a newline behind the last.
fn put_row(out: &mut Text, fields: &[usize])
    requires some { 0 < length fields.now }
    requires room { array_string_len out.old + field_room * length fields.now ≤ text_room }
    ensures bytes { out.new.bytes ≡ out.old.bytes ++ row fields.now }
    ensures len { array_string_len out.new ≤ array_string_len out.old + field_room * length fields.now }
{
    for (i, n) in fields.iter().enumerate() {
        let mut digits = Buffer::new();
        out.push_str(digits.format(*n));
        out.push(if i + 1 < fields.len() { ' ' } else { '\n' });
    }
}

// "`refused number place expected`".
fn put_refused(out: &mut Text, number: usize, place: usize, expected: usize)
    requires { out.old.bytes ≡ [] }
    ensures { out.new.bytes ≡ refused_text number place expected }
{
    out.push_str("refused ");
    put_row(out, &[number, place, expected]);
}

// "slot, symbol, production, parent, tag".
fn put_node(out: &mut Text, tree: &[u8], s: usize)
    requires few { s ≤ max_slots }
    requires room { array_string_len out.old + line_room ≤ text_room }
    ensures bytes { out.new.bytes ≡ out.old.bytes ++ slot_row tree.now s }
    ensures len { array_string_len out.new ≤ array_string_len out.old + line_room }
{
    let from = trees::SLOT_SIZE * s;
    let symbol = base::byte_at(tree, from + trees::SYMBOL_PLACE);
    let production = base::byte_at(tree, from + trees::PRODUCTION_PLACE);
    let parent = base::get16(tree, from + trees::PARENT_PLACE);
    let tag = base::get32(tree, from + trees::TAG_PLACE);
    put_row(out, &[s, symbol, production, parent, tag]);
}

// "`accepted nodes tokens`", and the nodes in slots 1 to `nodes`.
fn put_tree(out: &mut Text, tree: &[u8], nodes: usize)
    requires empty { out.old.bytes ≡ [] }
    requires few { nodes ≤ max_slots }
    ensures { out.new.bytes ≡ area_text tree.now nodes }
{
    out.push_str("accepted ");
    put_row(out, &[nodes, base::get16(tree, trees::TOKENS_PLACE)]);
    for s in 1..nodes + 1 {
        put_node(out, tree, s);
    }
}

fn put_reply(out: &mut Text, reply: Reply, tree: &[u8])
    requires empty { out.old.bytes ≡ [] }
    requires few { (counts_of reply).total ≤ max_slots }
    ensures { out.new.bytes ≡ reply_text reply tree.now }
{
    match reply {
        Reply::Accepted(counts) => put_tree(out, tree, counts.total as usize),
        Reply::Refused(_) => put_refused(
            out,
            replies::number_of(reply) as usize,
            replies::place_of(reply) as usize,
            replies::expected_of(reply) as usize,
        ),
    }
}

// The whole text of the tokens, onto none. The text is lent: returned, it stood three times on the stack, with two copies of it.
fn list_tokens(tokens: &[u8], out: &mut Text)
    requires { out.old.bytes ≡ [] }
    ensures { Prints tokens.now out.new.bytes }
{
    if MAX_INPUT < tokens.len() {
        put_refused(out, 7, 1000, 0);
        return;
    }
    let mut tables = [0u8; tables::TABLES_SIZE];
    let mut tree = [0u8; AREA_SIZE];
    let mut work = [0u8; WORK_SIZE];
    kindlesap::prepare(&grammar::REFERENCE, &mut tables);
    let reply = kindlesap::parse(&grammar::REFERENCE, &tables, tokens, &mut tree, &mut work);
    put_reply(out, reply, &tree);
}

fn main(rt: HostRuntime) -> std::io::Result<()> {
    let mut input = [0u8; MAX_INPUT + 1];
    let n = streams::read_full(&mut rt.stdin(), &mut input)?;
    let mut out = Text::new();
    list_tokens(&input[..n], &mut out);
    rt.write_all(out.as_str().as_bytes())
}
