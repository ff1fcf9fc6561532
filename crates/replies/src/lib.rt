// The reply: accepted with its counts, or refused with one reason that holds its own place; and its bytes.
#![tactic(auto)]

ghost use Rattle.std.specs.Prelude.{◌≡◌};
ghost use Rattle.base.specs.Blocks.{copied};
ghost use Rattle.replies.specs.Reply.{number_of, place_of, expected_of, counts_of, reply_of, reply_bytes};

// "number and counts 4 bytes each", place 8 and expected 4.
const WORD_SIZE: usize = 4;

const PLACE_SIZE: usize = 8;

const REPLY_SIZE: usize = PLACE_SIZE + 6 * WORD_SIZE;

// "the counts total, kept, made, given up"
#[derive(Clone, Copy, Debug, Default, PartialEq, Eq)]
pub struct Counts {
    pub total: u32,
    pub kept: u32,
    pub made: u32,
    pub given_up: u32,
}

// Why a call is refused, each reason with its own place.
#[derive(Clone, Copy, Debug, PartialEq, Eq)]
pub enum Reason {
    BadGrammar(u64),
    UselessSymbol(u64),
    NotLl1(u64),
    WrongTables,
    WrongTree,
    ShortWork(u64),
    BadToken(u64),
    BeyondTokens(u64),
    Syntax(u64, u32),
    NoRoom,
    ShortOutput(u64),
}

// No `Result`: document 01 names the form, "Reply enum: Accepted holding a counts struct, Refused holding a reason enum".
// "A reply is either accepted with its counts, or refused with one reason that holds its own place."
#[derive(Clone, Copy, Debug, PartialEq, Eq)]
pub enum Reply {
    Accepted(Counts),
    Refused(Reason),
}

// What a call comes to, as a reply.
impl From<Result<Counts, Reason>> for Reply {
    ghost from_gives = { λ call reply. reply ≡ reply_of call };

    fn from(call: Result<Counts, Reason>) -> Reply {
        match call {
            Ok(counts) => Reply::Accepted(counts),
            Err(reason) => Reply::Refused(reason),
        }
    }
}

// "a definition gives this paper's number and values for each case": one for each of a reply's three fields.
pub fn number_of(reply: Reply) -> u64
    ensures { result ≡ number_of reply }
{
    match reply {
        Reply::Accepted(_) => 0,
        Reply::Refused(reason) => match reason {
            Reason::BadGrammar(_) => 1,
            Reason::UselessSymbol(_) => 2,
            Reason::NotLl1(_) => 3,
            Reason::WrongTables => 4,
            Reason::WrongTree => 5,
            Reason::ShortWork(_) => 6,
            Reason::BadToken(_) => 7,
            Reason::BeyondTokens(_) => 8,
            Reason::Syntax(_, _) => 9,
            Reason::NoRoom => 10,
            Reason::ShortOutput(_) => 11,
        },
    }
}

pub fn place_of(reply: Reply) -> u64
    ensures { result ≡ place_of reply }
{
    match reply {
        Reply::Refused(
            Reason::BadGrammar(place)
            | Reason::UselessSymbol(place)
            | Reason::NotLl1(place)
            | Reason::ShortWork(place)
            | Reason::BadToken(place)
            | Reason::BeyondTokens(place)
            | Reason::Syntax(place, _)
            | Reason::ShortOutput(place),
        ) => place,
        _ => 0,
    }
}

pub fn expected_of(reply: Reply) -> u32
    ensures { result ≡ expected_of reply }
{
    match reply {
        Reply::Refused(Reason::Syntax(_, expected)) => expected,
        _ => 0,
    }
}

fn counts_of(reply: Reply) -> Counts
    ensures { result ≡ counts_of reply }
{
    match reply {
        Reply::Accepted(counts) => counts,
        Reply::Refused(_) => Counts::default(),
    }
}

// Writes the reply's bytes, as much of them as fits.
pub fn write_reply(reply: Reply, out: &mut [u8])
    ensures { out.new ≡ copied out.old 0 (reply_bytes reply) }
{
    let counts = counts_of(reply);
    // Each field's size, and its value
    let fields = [
        (WORD_SIZE, number_of(reply)),
        (PLACE_SIZE, place_of(reply)),
        (WORD_SIZE, u64::from(expected_of(reply))),
        (WORD_SIZE, u64::from(counts.total)),
        (WORD_SIZE, u64::from(counts.kept)),
        (WORD_SIZE, u64::from(counts.made)),
        (WORD_SIZE, u64::from(counts.given_up)),
    ];
    let mut b = [0u8; REPLY_SIZE];
    let mut at = 0;
    for (size, v) in fields {
        b[at..at + size].copy_from_slice(&v.to_le_bytes()[..size]);
        at += size;
    }
    base::copy(out, 0, &b);
}
