// The numbers of an answer over the first words of a lent row. Its other words stay.
// Kept (5): C lends a slice, and may lend a longer one.
ghost use Rattle.std.specs.Prelude.{◌≡◌, ◌∷◌, ◌≤◌, length};
ghost use Rattle.std.specs.Prelude.{Some};
ghost use Rattle.srt_protocol.specs.Cells.{overwritten};
ghost use Rattle.srt_group_model.specs.Tools.{is_set, bit};
ghost use Rattle.srt_group_model.specs.Answers.{packet_values};

use srt_group_model::Packet;

// A flag's word as 0 or 1.
#[tactic(auto, using(crate::specs::Laws::Record::word_of_test))]
pub fn flag_of(word: u64) -> u64
    ensures { result ≡ bit (is_set word) }
{
    u64::from(word != 0)
}

// The numbers over the first words of the row.
pub fn put<const N: usize>(answer: &mut [u64], numbers: [u64; N])
    requires { N ≤ length answer.old }
    ensures { answer.new ≡ overwritten 0 numbers.entry answer.old }
{
    word_rows::put_row(answer, 0, numbers);
}

// ---- polls

// The words of a poll's answer.
pub const POLLED: usize = 8;

// A word of the poll's own, and a packet: its leg, sequence, count, message number, timestamp, source time and length.
pub fn put_packet(answer: &mut [u64], own: u64, packet: Packet)
    requires { 8 ≤ length answer.old }
    ensures { answer.new ≡ overwritten 0 (own ∷ packet_values (Some packet)) answer.old }
{
    let content = packet.content;
    let source = content.source;
    put(
        answer,
        [
            own,
            packet.member,
            content.sequence,
            content.count,
            content.message,
            content.timestamp,
            source.0,
            content.length,
        ],
    )
}
