// The circular order of 31-bit sequence numbers.
ghost use Rattle.std.specs.Prelude.{◌≡◌, ◌+◌, ◌%◌};
ghost use Rattle.srt_protocol.specs.Sequence.{half, sequence_distance, sequence_before, sequence_further};

// How many sequence numbers there are.
const SPACE: u32 = 0x8000_0000;

// The farthest apart that two comparable sequence numbers can be.
pub const SEQUENCE_HALF_SPACE: u32 = 0x4000_0000;

// How far `b` lies after `a`, going up round the sequence space.
#[tactic(auto, using(crate::specs::Laws::Circle::distance_wrapped), unfolding(crate::specs::Sequence::half))]
pub fn sequence_distance(a: u32, b: u32) -> u32
    ensures { result ≡ sequence_distance a b }
{
    b.wrapping_sub(a) % SPACE
}

// Whether `a` is before `b`.
#[tactic(auto, unfolding(crate::specs::Circle::before, crate::specs::Sequence::half))]
pub fn sequence_less_than(a: u32, b: u32) -> bool
    ensures { result ≡ sequence_before a b }
{
    let distance = sequence_distance(a, b);
    0 < distance && distance < SEQUENCE_HALF_SPACE
}

// ---- the same of sequence numbers that stand in 64-bit words: only their place on the circle counts

// The place of a word on the circle.
#[tactic(auto, unfolding(crate::specs::Sequence::half))]
fn on_circle(word: u64) -> u32
    ensures { result ≡ word % (half + half) }
{
    (word % SPACE as u64) as u32
}

// How far `b` lies after `a`, going up round the sequence space.
#[tactic(auto, using(crate::specs::Laws::Circle::distance_mod))]
pub fn word_distance(a: u64, b: u64) -> u64
    ensures { result ≡ sequence_distance a b }
{
    sequence_distance(on_circle(a), on_circle(b)) as u64
}

// Whether `a` is before `b`.
#[tactic(auto, using(crate::specs::Laws::Circle::before_mod))]
pub fn word_before(a: u64, b: u64) -> bool
    ensures { result ≡ sequence_before a b }
{
    sequence_less_than(on_circle(a), on_circle(b))
}

// The sequence number `count` places after `a`.
#[tactic(auto, unfolding(crate::specs::Circle::further, crate::specs::Sequence::half))]
pub fn word_further(a: u64, count: u64) -> u64
    ensures { result ≡ sequence_further a count }
{
    ((on_circle(a) + on_circle(count)) % SPACE) as u64
}
