// The looks at the group.
// Kept (2): public names, each with the promise of its call: no plainer as one, since behind 5 and 6 each shows something else.
ghost use Rattle.srt_group_model.specs.Lent.{look_group_id, look_mode, look_peer_group_id, look_skipped_receive_packets};
ghost use Rattle.srt_group_model.specs.Lent.{look_has_pending_data, look_has_receive_continuation, look_time_until_send};
ghost use Rattle.srt_group_model.specs.Guards.{shown, number, optional, truth};
ghost use Rattle.srt_group.specs.Made.{parts_of};
ghost use Rattle.srt_group_refusals.specs.LentGroup.{tables_of};
ghost use Rattle.srt_group_looks.specs.Looks.{LookGives};

use srt_connection_members::rows;
use srt_group_collecting::collecting;
use srt_group_refusals::refusals::LentGroup;
use srt_group_sending::readiness::group_time_until_send;
use srt_protocol::error::Error;
use srt_protocol::time::Timestamp;

// The group's id.
pub fn group_id(lent: &LentGroup) -> Result<u64, Error>
    ensures { LookGives (λ n. shown (number n)) look_group_id (parts_of lent.now.group) (tables_of lent.now) result }
{
    lent.begin()?;
    Ok(lent.group.identity.id)
}

// 0 for Broadcast, 1 for Backup.
// Kept (1): the record's word, which is shown to C as it is.
pub fn mode(lent: &LentGroup) -> Result<u64, Error>
    ensures { LookGives (λ n. shown (number n)) look_mode (parts_of lent.now.group) (tables_of lent.now) result }
{
    lent.begin()?;
    Ok(lent.group.core.mode)
}

// The peer group that the group is bound to, if it is.
pub fn peer_group_id(lent: &LentGroup) -> Result<Option<u64>, Error>
    ensures { LookGives (λ n. shown (optional n)) look_peer_group_id (parts_of lent.now.group) (tables_of lent.now) result }
{
    lent.begin()?;
    let peer = lent.group.core.peer;
    Ok((peer != 0).then_some(peer))
}

// How many packets were skipped for good.
pub fn skipped_receive_packets(lent: &LentGroup) -> Result<u64, Error>
    ensures { LookGives (λ n. shown (number n)) look_skipped_receive_packets (parts_of lent.now.group) (tables_of lent.now) result }
{
    lent.begin()?;
    Ok(lent.group.core.receiving.skipped)
}

// Whether a packet is held, an event waits, or the continuation is asked for.
pub fn has_pending_data(lent: &LentGroup) -> Result<bool, Error>
    ensures { LookGives (λ b. shown (truth b)) look_has_pending_data (parts_of lent.now.group) (tables_of lent.now) result }
{
    lent.begin()?;
    Ok(collecting::has_pending_data(lent.group.core))
}

// Whether the last poll stopped with work left.
pub fn has_receive_continuation(lent: &LentGroup) -> Result<bool, Error>
    ensures { LookGives (λ b. shown (truth b)) look_has_receive_continuation (parts_of lent.now.group) (tables_of lent.now) result }
{
    lent.begin()?;
    // Kept (1): the record's flag is asked as the word that it is, as the definitions ask it.
    Ok(lent.group.core.visit.continuation != 0)
}

// How long until pacing lets a member send, in microseconds.
pub fn time_until_send(lent: &LentGroup, time: Timestamp) -> Result<u64, Error>
    ensures { LookGives (λ n. shown (number n)) (look_time_until_send time.0) (parts_of lent.now.group) (tables_of lent.now) result }
{
    lent.begin()?;
    let rows = rows(lent.members, lent.group.core.counts.members);
    Ok(group_time_until_send(rows, time))
}
