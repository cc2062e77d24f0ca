// A replay over tables that a caller lends.
ghost use Rattle.std.specs.Prelude.{◌≡◌, [], ◌∷◌, length};
ghost use Rattle.std.proofs.Props.{props};
ghost use Rattle.srt_protocol.specs.Cells.{output_size};
ghost use Rattle.srt_group_model.specs.Sending.{list_size};
ghost use Rattle.srt_group_model.specs.Listing.{store_length};
ghost use Rattle.srt_group_shown.specs.Tables.{tables};
ghost use Rattle.srt_group_replay.specs.Lines.{state_over, StandingOver};

use crate::{Teller, telling};
use cell_set::CellSet;
use srt_group::Group;
use srt_group_listing::{Line, Printed};

// The group that stands, none before a line made one, over tables of any length that suffices. Who lends them has them back
// as the lines left them.
#[derive(Drop)]
pub struct LentReplay<'a> {
    pub group: Option<Group>,
    pub members: &'a mut [u64],
    pub pending: &'a mut [u64],
    pub waiting: &'a mut [u64],
    pub history: &'a mut [u64],
    pub sources: &'a mut [u64],
    pub store: &'a mut [u8],
    pub output: &'a mut [u8],
    pub list: &'a mut [u64],
    pub used: &'a mut CellSet,
    ghost stands: { StandingOver group (tables members.now pending.now waiting.now history.now sources.now) used.now } by { Prim.hlevel props },
    ghost store_len: { length store.now ≡ store_length },
    ghost output_len: { length output.now ≡ output_size },
    ghost list_len: { length list.now ≡ list_size },
}

impl<'a> Teller for LentReplay<'a> {
    ghost shown = { λ r. state_over r.group (tables r.members.now r.pending.now r.waiting.now r.history.now r.sources.now) };

    ghost lent = { λ r. r.members.ghost_name ∷ r.pending.ghost_name ∷ r.waiting.ghost_name ∷ r.history.ghost_name ∷ r.sources.ghost_name
        ∷ r.store.ghost_name ∷ r.output.ghost_name ∷ r.list.ghost_name ∷ r.used.ghost_name ∷ [] };

    fn tell(&mut self, line: &Line) -> Printed {
        let told = telling::tell(
            self.group,
            self.members,
            self.pending,
            self.waiting,
            self.history,
            self.sources,
            self.store,
            self.output,
            self.list,
            self.used,
            line,
        );
        self.group = told.group;
        told.line
    }
}
