// The open blocks of a record as a state keeps them between pieces, one byte for each, and whether they can be open behind so many
// bytes: refusal 28's tests of them. specs/Kept.antt says what the bytes mean.
#![tactic(auto)]

ghost use Rattle.std.specs.Prelude.{◌≡◌, length};
ghost use Rattle.std.specs.List.{list_all};
ghost use Rattle.kept.specs.Kept.{due_of, open_in, no_blocks, kind_known, in_list, takes, blocks_fit};

// How many blocks may be open at once.
pub const MOST_OPEN: usize = 128;

// The bytes of the kinds of block.
pub const LIST: u8 = 1;

pub const MAP: u8 = 2;

pub const ATTRIBUTES: u8 = 3;

// The part that is due.
#[derive(Clone, Copy)]
pub enum Due {
    // A value, with attributes or without.
    Value,
    // A value whose attributes are passed.
    Object,
    // A value, `;` or `]`.
    Item,
    // A key, `;` or the block's end.
    Key,
    // `=`
    Equals,
}

// The open blocks: how many, what is due in the innermost, and a byte for the kind of each, the outermost first.
// Kept: a depth and bytes, not kinds of an enum, since 28's tests (`blocks_fit`) speak of any depth and any byte that a caller hands back.
#[derive(Clone, Copy)]
pub struct Blocks {
    pub depth: usize,
    pub due: Due,
    pub kinds: [u8; MOST_OPEN],
}

// No block is open, and a value is due.
#[tactic(auto, unfolding(crate::specs::Kept::no_blocks))]
pub fn no_blocks() -> Blocks
    ensures { result ≡ no_blocks }
{
    Blocks {
        depth: 0,
        due: Due::Value,
        kinds: [0; MOST_OPEN],
    }
}

// Whether each of the open blocks has a kind that there is.
#[tactic(auto, unfolding(crate::specs::Kept::kind_known))]
fn kinds_known(kinds: &[u8]) -> bool
    ensures { result ≡ list_all kind_known kinds.now }
{
    kinds.iter().all(|k| matches!(*k, LIST | MAP | ATTRIBUTES))
}

// Whether the innermost of the open blocks is a list.
#[tactic(auto, using(crate::proofs::Stack::in_list_is))]
fn in_list(kinds: &[u8]) -> bool
    ensures { result ≡ in_list (open_in (length kinds.now) kinds.now) }
{
    matches!(kinds, [.., LIST])
}

// Whether the innermost of the open blocks, or none, takes the part that is due.
#[tactic(auto, using(crate::proofs::Stack::in_pairs_is), unfolding(crate::specs::Kept::takes))]
fn due_fits(kinds: &[u8], due: Due) -> bool
    ensures { result ≡ takes (open_in (length kinds.now) kinds.now) (due_of due) }
{
    match due {
        Due::Value => !in_list(kinds),
        Due::Object => true,
        Due::Item => in_list(kinds),
        Due::Key | Due::Equals => !kinds.is_empty() && !in_list(kinds),
    }
}

// Whether these blocks can be open behind `passed` bytes of a record.
#[tactic(auto, using(crate::proofs::Stack::known_all, crate::proofs::Stack::open_taken), unfolding(crate::specs::Kept::blocks_fit))]
pub fn blocks_fit(blocks: Blocks, passed: usize) -> bool
    ensures { result ≡ blocks_fit blocks passed }
{
    let Blocks { depth, due, kinds } = blocks;
    depth <= MOST_OPEN
        && depth <= passed
        && kinds_known(&kinds[..depth])
        && due_fits(&kinds[..depth], due)
}
