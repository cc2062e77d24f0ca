// Document 01's code 6, "the lent state breaks a rule". The history is read only where it has entries.
// Kept (5): what the test promised at the beginning is over the tables as they are lent; over `LentGroup`, moved down here, the public name would ask
// for a struct where tables stood.
// Kept (6): a C host lends the tables as words, with the counts of their rows in the record (docs/TABLES.md).
// Kept (1): a mode or a flag is tested here as the word that it is, against the largest that the rule allows: 1.
ghost use Rattle.std.specs.Prelude.{◌≡◌, not, ◌≤◌, length};
ghost use Rattle.srt_group_model.specs.Validity.{any_above};
ghost use Rattle.srt_protocol.specs.Handshake.{has_group_mask};
ghost use Rattle.srt_protocol.specs.Cells.{max_cells};
ghost use Rattle.cell_set.specs.Bits.{set_size};
ghost use Rattle.srt_connection_members.specs.Members.{members_size};
ghost use Rattle.srt_group_tables.specs.Ring.{Long, arrays};
ghost use Rattle.srt_group_tables.specs.Packets.{pending_size};
ghost use Rattle.srt_group_tables.specs.Waitings.{waiting_size};
ghost use Rattle.srt_group_shown.specs.Tables.{tables, state_of};
ghost use Rattle.srt_group.specs.Made.{parts_of};
ghost use Rattle.srt_group_state.specs.Tested.{Tested};
ghost use Rattle.srt_group_state.specs.Outside.{core_counts, words_out_of_range, numbers_break_rule};

use crate::passes::{history_breaks_rule, tables_break_rule};
use cell_set::{CellSet, clear};
use srt_connection::legs::{LARGEST_32, LARGEST_SEQUENCE};
use srt_connection_members::MAX_MEMBERS;
use srt_group::Group;
use srt_group_model::{Core, Identity};
use srt_group_rules::rows::waiting_breaks_rule;
use srt_group_tables::pending::MAX_PENDING;
use srt_group_tables::waiting::MAX_WAITING;
use srt_protocol::srt_handshake::is_group_id;

// ---- the record's numbers

// Not made by `Group::new`: without the mark of a group id.
pub fn is_blank(identity: Identity) -> bool
    ensures { result ≡ not (has_group_mask identity.id) }
{
    !is_group_id(identity.id)
}

// The round's place is that of a member; with no member it is 0.
#[tactic(auto, using(srt_group_model::specs::Laws::Reason::or_assoc, srt_group_model::specs::Laws::Reason::or_no, crate::specs::Laws::Outside::round_test), unfolding(srt_group_model::specs::Tools::any, srt_group_model::specs::Validity::any_above, crate::specs::Outside::core_counts))]
pub fn count_above_limit(core: Core) -> bool
    ensures { result ≡ any_above (core_counts core) }
{
    (MAX_MEMBERS < core.counts.members)
        | (MAX_PENDING < core.counts.pending)
        | (MAX_WAITING < core.counts.waiting)
        | ((0 < core.visit.round) & (core.counts.members <= core.visit.round))
}

// An id beyond 32 bits, a mode or a flag above 1.
#[tactic(auto, using(srt_group_model::specs::Laws::Reason::or_assoc, srt_group_model::specs::Laws::Reason::or_no), unfolding(srt_group_model::specs::Tools::any, srt_group_model::specs::Validity::any_above, srt_group_model::specs::Validity::making_words, srt_group_model::specs::Validity::group_words, srt_group_model::specs::Validity::record_out_of_range, crate::specs::Outside::words_out_of_range))]
fn words_out_of_range(group: Group) -> bool
    ensures { result ≡ words_out_of_range group.identity group.core group.sending }
{
    let Group {
        identity,
        core,
        sending,
        ..
    } = group;
    (LARGEST_32 < identity.id)
        | (1 < core.mode)
        | (LARGEST_32 < core.peer)
        | (1 < core.receiving.based)
        | (1 < sending.numbered)
        | (1 < sending.carried)
        | (LARGEST_32 < sending.carrier)
        | (1 < sending.gap)
        | (1 < core.visit.continuation)
}

#[tactic(auto, using(crate::specs::Laws::Outside::numbers_tested))]
fn numbers_break_rule(group: Group) -> bool
    ensures { result ≡ numbers_break_rule group.identity group.core group.sending }
{
    is_blank(group.identity)
        | count_above_limit(group.core)
        | (LARGEST_SEQUENCE < group.core.receiving.base)
        | (LARGEST_SEQUENCE < group.sending.next)
        | words_out_of_range(group)
}

// ---- the whole

// Document 01's code 6, whole: whether the state breaks a rule over a store of so many cells. Where it breaks none, the set
// shows which cells are in use, whatever it held before.
#[tactic(auto, using(crate::specs::Laws::Outside::counts_within))]
pub fn is_invalid(
    group: Group,
    members: &[u64],
    pending: &[u64],
    waiting: &[u64],
    history: &[u64],
    sources: &[u64],
    cells: usize,
    used: &mut CellSet,
) -> bool
    requires members_size_in_bounds { (members_size ≤ length members.now) × ((pending_size ≤ length pending.now) × (waiting_size ≤ length waiting.now)) }
    requires long { Long (arrays history.now sources.now) }
    requires cells_le_max_cells { cells ≤ max_cells }
    ensures { Tested cells (state_of (parts_of group)
        (tables members.now pending.now waiting.now history.now sources.now))
        result used.new }
{
    if numbers_break_rule(group) {
        return true;
    }
    let counts = group.core.counts;
    if waiting_breaks_rule(waiting, counts.waiting) {
        return true;
    }
    clear(used);
    if tables_break_rule(group.core.own, counts, members, pending, cells, used) {
        return true;
    }
    history_breaks_rule(group.ring, history, sources, cells, used)
}
