//! The words (hashes of 32 bits) by which names are found: each is made from a seed, so names that collide under one seed mostly
//! don't under another.
ghost use Rattle.std.specs.Prelude.{◌≡◌};
ghost use Rattle.std.specs.Option.{option_copied};
ghost use Rattle.gitconf_text.specs.Bytes.{fold};
ghost use Rattle.gitconf_sections.specs.Word.{full_state, group_with, mixed, name_state, nothing_behind, text_state, whole_state, with_byte, with_bytes, word_of};

/// The seed if none is given: the first digits of pi after its point. Everyone can know it.
pub(crate) const SEED: u64 = 0x243f_6a88_85a3_08d3;

// 2^64 divided by the golden ratio, made odd: its ones and zeros have no pattern.
const MULTIPLIER: u64 = 0x9e37_79b9_7f4a_7c15;

// A group of no bytes. The 1 comes before the bytes, so that shorter groups are other numbers.
const NO_BYTES: u64 = 1;

// A number at least as great as this has the 1 and seven bytes.
const FULL: u64 = 1 << 56;

// A state with one more group of bytes: the two halves of a 128-bit product, combined by exclusive or. The lower half alone
// would carry no bit downwards, so that names could be found which collide whatever the seed is.
#[tactic(auto, unfolding(crate::specs::Word::mixed))]
#[inline(always)]
fn mixed(state: u64, group: u64) -> u64
    ensures { result ≡ mixed state group }
{
    let (low, high) = (state ^ group).carrying_mul(MULTIPLIER, 0);
    low ^ high
}

/// A state while a name is put in lower case byte by byte: that of all full groups, of seven bytes each,
/// and the bytes after these.
#[derive(Clone, Copy)]
pub(crate) struct Mixing {
    state: u64,
    group: u64,
}

impl Mixing {
    /// No bytes after a state.
    #[inline(always)]
    pub(crate) fn behind(state: u64) -> Mixing
        ensures { result ≡ nothing_behind state }
    {
        Mixing {
            state,
            group: NO_BYTES,
        }
    }

    /// One byte more.
    #[tactic(auto, unfolding(crate::specs::Word::with_byte))]
    #[inline(always)]
    pub(crate) fn with_byte(self, byte: u8) -> Mixing
        ensures { result ≡ with_byte self byte }
    {
        let group = self.group << 8 | byte as u64;
        if group < FULL {
            Mixing {
                state: self.state,
                group,
            }
        } else {
            Mixing::behind(mixed(self.state, group))
        }
    }

    /// The state of all bytes.
    #[inline(always)]
    pub(crate) fn whole(self) -> u64
        ensures { result ≡ whole_state self }
    {
        mixed(self.state, self.group)
    }
}

/// The state after a name, without ASCII case.
#[tactic(auto, unfolding(crate::specs::Word::name_state))]
pub(crate) fn name_state(seed: u64, name: &[u8]) -> u64
    ensures { result ≡ name_state seed name.now }
{
    let mut mixing = Mixing::behind(seed);
    let mut rest = name;
    while let Some((byte, behind)) = rest.split_first() {
        mixing = mixing.with_byte(byte.to_ascii_lowercase());
        rest = behind;
    }
    mixing.whole()
}

// Fewer than eight bytes after a group.
fn group_with(first: u64, bytes: &[u8]) -> u64
    ensures { result ≡ group_with first bytes.now }
{
    let mut group = first;
    for byte in bytes {
        group = group << 8 | *byte as u64;
    }
    group
}

// The state after a text. It may be long and needs no lower case, so eight bytes at a time are taken.
#[tactic(auto, unfolding(crate::specs::Word::text_state))]
fn text_state(from: u64, text: &[u8]) -> u64
    ensures { result ≡ text_state from text.now }
{
    let (eights, rest) = text.as_chunks::<8>();
    let mut state = from;
    for eight in eights {
        state = mixed(state, u64::from_le_bytes(*eight));
    }
    mixed(state, group_with(NO_BYTES, rest))
}

/// The state after a name and a subsection, from that after the name.
pub(crate) fn full_state(state: u64, subsection: Option<&[u8]>) -> u64
    ensures { result ≡ full_state state (option_copied subsection.entry) }
{
    match subsection {
        None => state,
        Some(bytes) => text_state(state, bytes),
    }
}

/// The word of a state, of 32 bits, since each link keeps one: the upper half of the state, after it is mixed once more.
/// Otherwise the last group of a text would go through one product only, and names that differ only there would share more buckets.
#[inline(always)]
pub(crate) fn word_of(state: u64) -> u32
    ensures { result ≡ word_of state }
{
    (mixed(state, 0) >> 32) as u32
}
