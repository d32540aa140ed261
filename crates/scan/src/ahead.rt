// Which words are no next strikes, told a block of words at a time: so that a stretch of strikes is passed at once,
// however long it is.
ghost use Rattle.std.specs.Prelude.{◌≡◌, ◌+◌, ◌*◌, ◌/◌, ◌<◌, ◌≤◌, suc, drop, get_or, length};
ghost use Rattle.scan.specs.NextStrikes.{next_length};
ghost use Rattle.scan.specs.Ahead.{Tells, bits_at, block_length, half_block, other_bits};

use word::strike::is_next_strike;

// How many words are told of at a time, and how many of them at once.
const BLOCK: usize = 64;

const HALF_BLOCK: usize = 32;

// The others, words that are no next strikes, of two blocks of words, the one from `base` on and the next: `bits` and
// `more` have one bit for each word, lowest first, which is 1 for an other.
#[derive(Clone, Copy)]
struct Blocks {
    base: usize,
    bits: u64,
    more: u64,
}

// What is ahead of the word at `at`: the bits of the first block are those of the others after it, and its own is 1.
// The next block is told of before it is asked for, so that the work goes on while it is not yet known where the first
// one ends.
#[derive(Clone, Copy)]
pub struct Ahead<'a> {
    pub words: &'a [u32],
    pub at: usize,
    blocks: Blocks,
    ghost tells: { Tells words.now at blocks },
}

// The others among the words after the first, a bit for each. Called with a count that is constant, it compiles to
// tests of many words at a time. Tried: `windows(2)`, which shuffles each pair out of two loads: a block took 6% more.
fn others_among(s: &[u32]) -> u32
    requires { (1 ≤ length s.now) × (length s.now ≤ half_block + 1) }
    ensures { result ≡ other_bits (get_or s.now 0 0) (drop 1 s.now) }
{
    let mut bits = 0;
    for i in 0..s.len() - 1 {
        if !is_next_strike(s[i], s[i + 1]) {
            bits |= 1 << i;
        }
    }
    bits
}

// The others among the words of the block from `base` on.
fn others_of_64(s: &[u32], base: usize) -> u64
    requires { (1 ≤ base) × (base + block_length ≤ length s.now) }
    ensures { result ≡ bits_at s.now base block_length }
{
    let middle = base + HALF_BLOCK;
    let low = others_among(&s[base - 1..middle]);
    let high = others_among(&s[middle - 1..base + BLOCK]);
    u64::from(low) | u64::from(high) << HALF_BLOCK
}

// The others from `base` on among few words: of the last 32 those before the second half are shifted out.
fn others_of_rest(s: &[u32], base: usize) -> u64
    requires { (1 ≤ base) × ((base ≤ length s.now) × (length s.now ≤ block_length)) }
    ensures { result ≡ bits_at s.now base block_length }
{
    let n = s.len();
    if n - base < HALF_BLOCK {
        return u64::from(others_among(&s[base - 1..]));
    }
    let middle = base + HALF_BLOCK;
    let last = n - HALF_BLOCK;
    let low = others_among(&s[base - 1..middle]);
    let high = u64::from(others_among(&s[last - 1..])) >> (middle - last);
    u64::from(low) | high << HALF_BLOCK
}

// The others among the words of the block from `base` on, none where no word is left. Where fewer are left, they are
// the last of a block.
fn others_from(s: &[u32], base: usize) -> u64
    requires { (1 ≤ base) × (block_length < length s.now) }
    ensures { result ≡ bits_at s.now base block_length }
{
    let n = s.len();
    if n <= base {
        return 0;
    }
    let start = base.min(n - BLOCK);
    others_of_64(s, start) >> (base - start)
}

impl Blocks {
    // The blocks from `base` on. Of few words the first holds all that are left.
    fn new(words: &[u32], base: usize) -> Blocks
        requires { (1 ≤ base) × (base ≤ length words.now) }
        ensures { (result.base ≡ base)
            × ((result.bits ≡ bits_at words.now base block_length)
            × (result.more ≡ bits_at words.now (base + block_length) block_length)) }
    {
        if words.len() <= BLOCK {
            return Blocks {
                base,
                bits: others_of_rest(words, base),
                more: 0,
            };
        }
        Blocks {
            base,
            bits: others_from(words, base),
            more: others_from(words, base + BLOCK),
        }
    }

    // A block further.
    fn next(self, words: &[u32]) -> Blocks
        requires { (block_length < length words.now) × (self.base ≤ length words.now) }
        ensures { (result.base ≡ self.base + block_length)
            × ((result.bits ≡ self.more)
            × (result.more ≡ bits_at words.now (self.base + block_length + block_length) block_length)) }
    {
        let base = self.base + BLOCK;
        Blocks {
            base,
            bits: self.more,
            more: others_from(words, base + BLOCK),
        }
    }
}

impl<'a> Ahead<'a> {
    // What is ahead of `at`.
    pub fn new(words: &'a [u32], at: usize) -> Ahead<'a>
        requires { (1 ≤ at) × (at ≤ length words.now) }
        ensures { (result.words.now ≡ words.now) × (result.at ≡ at) }
    {
        let mut blocks = Blocks::new(words, at);
        blocks.bits |= 1;
        Ahead { words, at, blocks }
    }

    // What is ahead of a later word.
    pub fn skip_to(self, at: usize) -> Ahead<'a>
        requires { (self.at ≤ at) × (at ≤ length self.words.now) }
        ensures { (result.words.now ≡ self.entry.words.now) × (result.at ≡ at) }
    {
        let words = self.words;
        let mut blocks = self.blocks;
        while blocks.base + BLOCK <= at {
            blocks = blocks.next(words);
        }
        let passed = at - blocks.base;
        blocks.bits = (blocks.bits >> passed | 1) << passed;
        Ahead { words, at, blocks }
    }

    // What is ahead of the next other after the word at `at`.
    pub fn next_other(self) -> Ahead<'a>
        requires { self.at < length self.words.now }
        ensures { let at = self.entry.at in
            let words = self.entry.words.now in
            (result.words.now ≡ words)
            × (result.at ≡ suc at + next_length (get_or words at 0) (drop (suc at) words)) }
    {
        let words = self.words;
        let mut blocks = self.blocks;
        blocks.bits &= blocks.bits - 1;
        while blocks.bits == 0 {
            if words.len() <= blocks.base + BLOCK {
                let at = words.len();
                return Ahead { words, at, blocks };
            }
            blocks = blocks.next(words);
        }
        let at = blocks.base + blocks.bits.trailing_zeros() as usize;
        Ahead { words, at, blocks }
    }
}
