// The refusals that the public calls share: 5, a lent table too short for its rows or a store that does not fit, and 6, a state that
// breaks a rule.
ghost use Rattle.std.specs.Prelude.{◌≡◌, not, ◌&&◌, ◌||◌, ◌≤◌, eqb, ltb};
ghost use Rattle.srt_protocol.specs.Cells.{cell_size, max_cells, cells_of};
ghost use Rattle.srt_group_model.specs.Tools.{if_true◌then◌else◌};
ghost use Rattle.srt_group_shown.specs.Tables.{state_of, Long};
ghost use Rattle.srt_group_state.specs.Tested.{Tested};
ghost use Rattle.srt_group.specs.Made.{parts_of};
ghost use Rattle.srt_group_refusals.specs.LentGroup.{tables_of};
ghost use Rattle.srt_group_refusals.specs.Begins.{are_short, begun, BeginsStored, BeginsPoll};

use cell_set::{CellSet, WORDS};
use srt_connection_members::MEMBERS_LENGTH;
use srt_group::Group;
use srt_group_state::validity::is_invalid;
use srt_group_tables::history::MAX_HISTORY;
use srt_group_tables::pending::PENDING_LENGTH;
use srt_group_tables::waiting::WAITING_LENGTH;
use srt_protocol::error::Error;
use srt_protocol::received_payload::{CELL, MAX_CELLS, OUTPUT, cells_of};

// 5: the store's length differs from the one given at the start, if any was, or is below one cell.
// Kept (1): the length given at the start is the record's word, 0 for none; it is asked here and in `cells_given` alone.
fn store_unfit(store: usize, given: usize) -> bool
    ensures { result ≡ ((not (eqb given 0) && not (eqb store given)) || ltb store cell_size) }
{
    ((given != 0) & (store != given)) | (store < CELL)
}

// The cells of a call that is lent no store: those of the length given at the start, else the most that there can be.
#[tactic(auto, using(crate::specs::Laws::Begins::none_given, crate::specs::Laws::Begins::some_given))]
fn cells_given(given: usize) -> usize
    ensures is { result ≡ (if_true eqb given 0 then max_cells else cells_of given) }
    ensures few { result ≤ max_cells }
{
    if given == 0 {
        return MAX_CELLS;
    }
    cells_of(given)
}

// A group's record with its tables, lent to look at.
#[derive(Clone, Copy)]
pub struct LentGroup<'a> {
    pub group: Group,
    pub members: &'a [u64],
    pub pending: &'a [u64],
    pub waiting: &'a [u64],
    pub history: &'a [u64],
    pub sources: &'a [u64],
}

impl LentGroup<'_> {
    // 5: a table has fewer words than its rows take, or one of the history's two is not 512 long.
    #[tactic(auto, unfolding(crate::specs::Begins::are_short))]
    fn is_short(&self) -> bool
        ensures { result ≡ are_short (tables_of self.now) }
    {
        (self.members.len() < MEMBERS_LENGTH)
            | (self.pending.len() < PENDING_LENGTH)
            | (self.waiting.len() < WAITING_LENGTH)
            | (self.history.len() != MAX_HISTORY)
            | (self.sources.len() != MAX_HISTORY)
    }

    // Kept (5): a number of cells is made of the store's length in each call; a type with its bound would be taken apart at once, and is no plainer.
    // 6: the state breaks a rule over so many cells. Where it breaks none, the set shows which are in use, whatever it held.
    fn is_broken(&self, cells: usize, used: &mut CellSet) -> bool
        requires long { Long (tables_of self.now) }
        requires cells { cells ≤ max_cells }
        ensures { Tested cells (state_of (parts_of self.now.group) (tables_of self.now)) result used.new }
    {
        is_invalid(
            self.group,
            self.members,
            self.pending,
            self.waiting,
            self.history,
            self.sources,
            cells,
            used,
        )
    }

    // 5 or 6 of a call that is lent no store; or it goes on.
    #[tactic(auto, unfolding(srt_group_model::specs::Calls::cells_given))]
    pub fn begin(&self) -> Result<(), Error>
        ensures { result ≡ begun (parts_of self.now.group) (tables_of self.now) }
    {
        if self.is_short() {
            return Err(Error::InsufficientBuffer);
        }
        let cells = cells_given(self.group.identity.length);
        let mut used = [0; WORDS];
        if self.is_broken(cells, &mut used) {
            return Err(Error::InvalidState);
        }
        Ok(())
    }

    // 5 or 6 of a call that is lent a store of so many bytes; or it goes on, and the set shows which cells are in use, whatever it held.
    #[tactic(auto, using(crate::specs::Laws::Begins::begins_unfit, crate::specs::Laws::Begins::begins_invalid), unfolding(srt_group_model::specs::Calls::store_unfit))]
    pub fn begin_stored(&self, store: usize, used: &mut CellSet) -> Result<(), Error>
        ensures { BeginsStored (parts_of self.now.group) (tables_of self.now) store result used.new }
    {
        if self.is_short() {
            return Err(Error::InsufficientBuffer);
        }
        if store_unfit(store, self.group.identity.length) {
            return Err(Error::InsufficientBuffer);
        }
        let cells = cells_of(store);
        if self.is_broken(cells, used) {
            return Err(Error::InvalidState);
        }
        Ok(())
    }

    // The same of a poll, which is lent an output of so many bytes too: 5 first if it has no room for a head and a payload.
    pub fn begin_poll(&self, store: usize, output: usize, used: &mut CellSet) -> Result<(), Error>
        ensures { BeginsPoll (parts_of self.now.group) (tables_of self.now) store output result used.new }
    {
        if output < OUTPUT {
            return Err(Error::InsufficientBuffer);
        }
        self.begin_stored(store, used)
    }
}
