// The mark of a group id.
ghost use Rattle.std.specs.Prelude.{◌≡◌};
ghost use Rattle.srt_protocol.specs.Handshake.{has_group_mask};

// The bit that marks a group's id on the wire, as libsrt has it.
pub const SRTGROUP_MASK: u32 = 0x4000_0000;

// Whether the id carries SRTGROUP_MASK. Any 64-bit number can be asked about: a range is tested apart.
pub fn is_group_id(group_id: u64) -> bool
    ensures { result ≡ has_group_mask group_id }
{
    group_id / SRTGROUP_MASK as u64 % 2 == 1
}
