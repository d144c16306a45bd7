// What do the tokens of a record do to its open blocks, and how far do they go? `pass` reads them from a kept place on, and
// specs/Readings.antt decides it with the automaton of crate `automaton`. Crate `kept` says how the open blocks are kept between pieces.
#![tactic(auto)]

ghost use Rattle.std.specs.Prelude.{◌≡◌, ◌≤◌, ◌<◌, ℕ, length, Ok, Err, IfOk};
ghost use Rattle.lexer.specs.Lexer.{kind_at};
ghost use Rattle.refusal.specs.Paper.{pick};
ghost use Rattle.refusal.specs.Meaning.{why_of, unwhole_meaning};
ghost use Rattle.refusal.specs.declared.Format.TheVariants.{Binary};
ghost use Rattle.automaton.specs.Limit.{most_open};
ghost use Rattle.automaton.specs.Step.{after, opened, step};
ghost use Rattle.kept.specs.Kept.{due_of, blocks_of};
ghost use Rattle.blocks.specs.Moves.{kind_by, value_due, wrong_by, turned, turn_of, refused_at};
ghost use Rattle.blocks.specs.Moves.{block_named, kind_byte, due_in, closing, innermost_of};
ghost use Rattle.blocks.specs.Readings.{Onward, on_token, pass_of, run_meaning, not_whole, read_then};

use kept::{Blocks, Due};
use refusal::{Refusal, Unread, Unwhole, Why};

// A run over tokens: the end of the last that was passed, how many readings were made, and where the record ends or why it is not whole.
#[derive(Clone, Copy, Debug, PartialEq, Eq)]
pub struct Run {
    pub place: usize,
    pub readings: usize,
    pub what: Result<usize, Unwhole>,
}

// A kind of block.
#[derive(Clone, Copy)]
enum Block {
    List,
    Map,
    Attributes,
}

impl Block {
    // The byte that is kept of it.
    fn byte(self) -> u8
        ensures { result ≡ kind_byte self }
    {
        match self {
            Block::List => kept::LIST,
            Block::Map => kept::MAP,
            Block::Attributes => kept::ATTRIBUTES,
        }
    }

    // What is due where it begins, and behind a value in it.
    fn due(self) -> Due
        ensures { result ≡ due_in self }
    {
        match self {
            Block::List => Due::Item,
            Block::Map | Block::Attributes => Due::Key,
        }
    }
}

// The innermost block, where one is open.
#[tactic(auto, using(crate::proofs::Ways::innermost_none, crate::proofs::Ways::innermost_some))]
fn innermost(blocks: &Blocks) -> Option<Block>
    requires { blocks.now.depth ≤ most_open }
    ensures { result ≡ innermost_of (blocks_of blocks.now) }
{
    let last = blocks.depth.checked_sub(1)?;
    Some(match blocks.kinds[last] {
        kept::LIST => Block::List,
        kept::MAP => Block::Map,
        _ => Block::Attributes,
    })
}

// Why a token is wrong where this is due and it is not that.
#[tactic(auto, unfolding(refusal::specs::Meaning::why_of))]
fn wrong(due: Due) -> Why
    ensures { result ≡ why_of (wrong_by (due_of due)) }
{
    match due {
        Due::Value | Due::Object | Due::Item => Why::NotValue,
        Due::Key => Why::NotKey,
        Due::Equals => Why::NotEquals,
    }
}

// Whether a value is due, with attributes or without; where none is, a token that begins one is wrong.
fn value_due(due: Due) -> Result<(), Why>
    ensures { result ≡ pick (value_due (due_of due)) (Ok tt) (Err (why_of (wrong_by (due_of due)))) }
{
    match due {
        Due::Value | Due::Object | Due::Item => Ok(()),
        Due::Key | Due::Equals => Err(wrong(due)),
    }
}

// A whole value stands in the open blocks. Whether it is the record.
// Kept: the depth in the clauses, here and below, since `Blocks` holds any (see crate kept); a type beside it would be made and left again.
#[tactic(auto, using(crate::proofs::Ways::whole_none, crate::proofs::Ways::whole_some, crate::proofs::Ways::none_few))]
fn whole(blocks: &mut Blocks) -> bool
    requires { blocks.old.depth ≤ most_open }
    ensures turn { turned (Ok result) blocks.new ≡ turn_of blocks.old (after (blocks_of blocks.old)) }
    ensures few { blocks.new.depth ≤ most_open }
{
    match innermost(blocks) {
        Some(block) => {
            blocks.due = block.due();
            false
        }
        None => {
            *blocks = kept::no_blocks();
            true
        }
    }
}

// A block opens, unless as many as may be are open.
#[tactic(auto, using(crate::proofs::Ways::opens_deep, crate::proofs::Ways::opens_room))]
fn opened(blocks: &mut Blocks, block: Block) -> Result<bool, Why>
    requires { blocks.old.depth ≤ most_open }
    ensures turn { turned result blocks.new ≡
        turn_of blocks.old (opened (block_named block) (due_of (due_in block)) (blocks_of blocks.old)) }
    ensures few { blocks.new.depth ≤ most_open }
{
    if blocks.depth == kept::MOST_OPEN {
        return Err(Why::TooDeep);
    }
    blocks.kinds[blocks.depth] = block.byte();
    blocks.depth += 1;
    blocks.due = block.due();
    Ok(false)
}

// A block ends where it is the innermost and another part of it may begin.
#[tactic(auto, using(crate::proofs::Ways::ending), unfolding(automaton::specs::Step::closed))]
fn ended(blocks: &mut Blocks, block: Block) -> Result<bool, Why>
    requires { blocks.old.depth ≤ most_open }
    ensures turn { turned result blocks.new ≡ turn_of blocks.old (step (due_of blocks.old.due) (blocks_of blocks.old) (closing block)) }
    ensures few { blocks.new.depth ≤ most_open }
{
    match (block, blocks.due, innermost(blocks)) {
        (Block::List, Due::Item, Some(Block::List)) | (Block::Map, Due::Key, Some(Block::Map)) => {
            blocks.depth -= 1;
            Ok(whole(blocks))
        }
        (Block::Attributes, Due::Key, Some(Block::Attributes)) => {
            blocks.depth -= 1;
            blocks.due = Due::Object;
            Ok(false)
        }
        (_, due, _) => Err(wrong(due)),
    }
}

// What a token does whose first byte is `b`: whether the record is whole behind it, or why it is refused.
#[tactic(auto, using(crate::proofs::Ways::taking), unfolding(crate::specs::Moves::kind_by))]
fn take(blocks: &mut Blocks, b: u8) -> Result<bool, Why>
    requires { blocks.old.depth ≤ most_open }
    ensures turn { turned result blocks.new ≡ turn_of blocks.old (step (due_of blocks.old.due) (blocks_of blocks.old) (kind_by b)) }
    ensures few { blocks.new.depth ≤ most_open }
{
    let due = blocks.due;
    match b {
        b';' => match due {
            Due::Item | Due::Key => Ok(false),
            Due::Value | Due::Object | Due::Equals => Err(wrong(due)),
        },
        b'=' => match due {
            Due::Equals => {
                blocks.due = Due::Value;
                Ok(false)
            }
            Due::Value | Due::Object | Due::Item | Due::Key => Err(wrong(due)),
        },
        b'<' => match due {
            Due::Value | Due::Item => opened(blocks, Block::Attributes),
            Due::Object | Due::Key | Due::Equals => Err(wrong(due)),
        },
        b'[' => {
            value_due(due)?;
            opened(blocks, Block::List)
        }
        b'{' => {
            value_due(due)?;
            opened(blocks, Block::Map)
        }
        b']' => ended(blocks, Block::List),
        b'}' => ended(blocks, Block::Map),
        b'>' => ended(blocks, Block::Attributes),
        0x01 if matches!(due, Due::Key) => {
            blocks.due = Due::Equals;
            Ok(false)
        }
        _ => {
            value_due(due)?;
            Ok(whole(blocks))
        }
    }
}

// Why no whole token stands at a place: the bytes ended, or it is refused. The full reader is asked, once in a run at most.
fn why(input: &[u8], at: usize) -> Unwhole
    requires { at < length input.now }
    ensures { not_whole (kind_at Binary input.now at) (unwhole_meaning result) }
{
    let Err(unread) = binary::binary_token(input, at) else {
        return Unwhole::Incomplete;
    };
    match unread {
        Unread::Refused(refusal) => Unwhole::Refused(refusal),
        Unread::Incomplete | Unread::Beyond => Unwhole::Incomplete,
    }
}

// The refusal of the token from `first` to `end`: a block too many is refused at its first byte, a token that is wrong just behind it.
#[tactic(auto, using(crate::proofs::Laws::other_number))]
fn refused(why: Why, first: usize, end: usize) -> Refusal
    ensures { result ≡ refused_at why first end }
{
    match why {
        Why::TooDeep => why.at(first),
        _ => why.at(end),
    }
}

// A token that was passed: where it ends, and whether the record does.
#[derive(Clone, Copy)]
struct Passed {
    end: usize,
    whole: bool,
}

// One reading: the token at a place.
fn read_token(blocks: &mut Blocks, input: &[u8], place: usize) -> Result<Passed, Unwhole>
    requires few { blocks.old.depth ≤ most_open }
    requires inside { place < length input.now }
    ensures reads { (k : Onward) (n : ℕ) →
        read_then k place n result blocks.new ≡ on_token k place blocks.old n (kind_at Binary input.now place) }
    ensures ahead { IfOk result (λ t. place < t.end) }
    ensures few { blocks.new.depth ≤ most_open }
{
    let Some(end) = binary_ends::token_end(input, place) else {
        return Err(why(input, place));
    };
    match take(blocks, input[place]) {
        Ok(whole) => Ok(Passed { end, whole }),
        Err(why) => Err(Unwhole::Refused(refused(why, place, end))),
    }
}

// The tokens of `input` from `from` on, until one ends the record, is unfinished or is refused, or the bytes end. The open blocks are then
// those behind the last that was passed.
pub fn pass(blocks: &mut Blocks, input: &[u8], from: usize) -> Run
    ensures { run_meaning result blocks.new ≡ pass_of input.now from blocks.old }
{
    let mut place = from;
    let mut readings = 0;
    if kept::MOST_OPEN < blocks.depth {
        return Run {
            place,
            readings,
            what: Err(Unwhole::Incomplete),
        };
    }
    while place < input.len() {
        readings += 1;
        match read_token(blocks, input, place) {
            Ok(Passed { end, whole }) => {
                place = end;
                if whole {
                    return Run {
                        place,
                        readings,
                        what: Ok(place),
                    };
                }
            }
            Err(unwhole) => {
                return Run {
                    place,
                    readings,
                    what: Err(unwhole),
                };
            }
        }
    }
    Run {
        place,
        readings,
        what: Err(Unwhole::Incomplete),
    }
}
