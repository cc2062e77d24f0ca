// Time is supplied from outside, in microseconds. It is a type of its own, so that it never meets a sequence number.
ghost use Rattle.std.specs.Prelude.{◌≡◌};
ghost use Rattle.srt_protocol.specs.Time.{later, elapsed};

// A moment in microseconds.
#[repr(C)]
#[derive(Clone, Copy, Default, PartialEq, Eq, PartialOrd, Ord, Debug)]
pub struct Timestamp(pub u64);

impl Timestamp {
    // The microseconds from `other` to this moment; 0 if `other` is later.
    pub fn saturating_sub(self, other: Timestamp) -> u64
        ensures { result ≡ elapsed other.0 self.0 }
    {
        self.0.saturating_sub(other.0)
    }

    // The moment `micros` later, or the last one that a Timestamp can hold.
    pub fn add_micros(self, micros: u64) -> Timestamp
        ensures { result.0 ≡ later self.0 micros }
    {
        Timestamp(self.0.saturating_add(micros))
    }
}
