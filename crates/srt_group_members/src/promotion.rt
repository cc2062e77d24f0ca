// Promotion in Backup: of the connected Standby members the one with the highest weight, then with the lowest id.
//
// Kept (5, 6): a C host lends the members as words, with the count of rows in use; `as_chunks_mut` says nothing of what the words end as.
// Kept (1): the mode is the record's word, which a C host lends so that 6 can refuse it; an enum of two modes says what `is_backup` says, and is no plainer.
ghost use Rattle.std.specs.Prelude.{◌≡◌, ◌*◌, ◌≤◌, ◌<◌, length, IfSome};
ghost use Rattle.srt_connection_queue.specs.Rows.{row_size, member_of};
ghost use Rattle.srt_connection_members.specs.Members.{members_of, members_in};
ghost use Rattle.srt_group_model.specs.Members.{outranks, promotion, promote_backup_member, promote_if_none};
ghost use Rattle.srt_group_members.specs.Scan.{Became};
ghost use Rattle.srt_group_members.specs.Rank.{first_with};

use crate::states::{ACTIVE, has_active_member, is_backup, is_standby, turn_at};
use srt_connection_members::rows;
use srt_connection_queue::rows::{Row, membership};

// Kept (4): as pairs, `(second.weight, first.id) < (first.weight, second.id)`, it is no plainer: weights and ids go opposite ways.
#[tactic(auto, unfolding(srt_group_model::specs::Members::outranks))]
fn outranks(a: &Row, b: &Row) -> bool
    ensures { result ≡ outranks (member_of a.now) (member_of b.now) }
{
    let first = membership(a);
    let second = membership(b);
    (second.weight < first.weight) | ((first.weight == second.weight) & (first.id < second.id))
}

// The first in rank of the member at the index and of the first among those behind it.
#[tactic(auto, using(crate::specs::Laws::Rank::first_unless_standby, crate::specs::Laws::Rank::first_alone, crate::specs::Laws::Rank::first_still, crate::specs::Laws::Rank::first_now))]
fn first_in_rank_with(rows: &[Row], index: usize, best: Option<usize>) -> Option<usize>
    requires has_row { index < length rows.now }
    requires row_found { IfSome best (λ first. first < length rows.now) }
    ensures { result ≡ first_with rows.now index best }
{
    let row = &rows[index];
    if !is_standby(row) {
        return best;
    }
    let Some(first) = best else {
        return Some(index);
    };
    if outranks(&rows[first], row) {
        return best;
    }
    Some(index)
}

// The index of the member that is promoted.
// Kept (3): from the last row to the first, so that of equals the first stays. A fold or `min_by_key` is no plainer: it carries each row with its index,
// its key turns the weight round, and no lemma of the library says which of equals it picks from a list.
#[tactic(auto, using(crate::specs::Laws::Rank::ranking_start, crate::specs::Laws::Rank::ranking_row, crate::specs::Laws::Rank::ranking_done))]
pub fn promotion(rows: &[Row]) -> Option<usize>
    ensures { result ≡ promotion (members_in rows.now) }
{
    let mut best = None;
    for index in (0..rows.len()).rev() {
        best = first_in_rank_with(rows, index, best);
    }
    best
}

#[tactic(auto, using(crate::specs::Laws::Rank::promoted, crate::specs::Laws::Rank::promoted_none, crate::specs::Laws::Rank::promotion_below))]
pub fn promote_backup_member(members: &mut [u64], count: usize)
    requires { count * row_size ≤ length members.old }
    ensures { Became count (promote_backup_member (members_of count members.old))
        members.old members.new }
{
    if let Some(index) = promotion(rows(members, count)) {
        turn_at(members, index, ACTIVE);
    }
}

// In Backup, if no member is active.
#[tactic(auto, using(crate::specs::Laws::Rank::promoted_not_in_backup, crate::specs::Laws::Rank::promoted_not_needed, crate::specs::Laws::Rank::promoted_if_none))]
pub fn promote_if_none(members: &mut [u64], count: usize, mode: u64)
    requires { count * row_size ≤ length members.old }
    ensures { Became count (promote_if_none mode (members_of count members.old))
        members.old members.new }
{
    if is_backup(mode) && !has_active_member(rows(members, count)) {
        promote_backup_member(members, count);
    }
}
