// Payloads in the cells of a store that the caller lends.
ghost use Rattle.std.specs.Prelude.{◌≡◌};
ghost use Rattle.srt_protocol.specs.Cells.{cells_of, cell_outcome, Put, Copied};

use crate::error::Error;

// The bytes of one cell: the longest payload of a DATA packet.
pub const CELL: usize = 1456;

// The most cells that a store is used for.
pub const MAX_CELLS: usize = 2048;

// The output's bytes before the payload: the host's RTP head.
pub const HEAD: usize = 12;

// The bytes of the output that a packet is given in: the head and the longest payload.
pub const OUTPUT: usize = HEAD + CELL;

// How many cells a store of this length has.
pub fn cells_of(length: usize) -> usize
    ensures { result ≡ cells_of length }
{
    (length / CELL).min(MAX_CELLS)
}

// Whether a store of this length has the cell, and the cell has room for a payload of this size.
#[tactic(auto, unfolding(crate::specs::Cells::cell_outcome))]
fn check_cell(length: usize, cell: usize, size: usize) -> Result<(), Error>
    ensures { result ≡ cell_outcome length cell size }
{
    if length < CELL {
        return Err(Error::InsufficientBuffer);
    }
    if cells_of(length) <= cell {
        return Err(Error::InvalidState);
    }
    if CELL < size {
        return Err(Error::PayloadTooLong);
    }
    Ok(())
}

// A payload into a cell. The bytes after it and all other cells stay.
#[tactic(auto, using(crate::specs::Laws::CellLaws::cell_within))]
pub fn put_payload(store: &mut [u8], cell: usize, payload: &[u8]) -> Result<(), Error>
    ensures { Put store.old cell payload.now result store.new }
{
    check_cell(store.len(), cell, payload.len())?;
    let start = cell * CELL;
    let end = start + payload.len();
    store[start..end].copy_from_slice(payload);
    Ok(())
}

// The first `size` bytes of a cell into the output, from byte 12. The host's RTP head and the bytes after the payload stay.
#[tactic(auto, using(crate::specs::Laws::CellLaws::cell_within))]
pub fn copy_payload(store: &[u8], cell: usize, size: usize, output: &mut [u8]) -> Result<(), Error>
    ensures { Copied store.now cell size output.old result output.new }
{
    if output.len() < OUTPUT {
        return Err(Error::InsufficientBuffer);
    }
    check_cell(store.len(), cell, size)?;
    let start = cell * CELL;
    let end = start + size;
    output[HEAD..HEAD + size].copy_from_slice(&store[start..end]);
    Ok(())
}
