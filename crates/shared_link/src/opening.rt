//! How a shared link is opened.
ghost use Rattle.std.specs.Prelude.{◌≡◌, ◌<◌, ◌≤◌, ◌+◌, length, IfOk};
ghost use Rattle.client_mux.specs.declared.limits.TheConstants.{MAX_CALLERS, MAX_SEATS};
ghost use Rattle.shared_link.specs.Turns.{IsFresh, AreFrom, IsOpen, MainAt};

use crate::mux_seat::{MuxSeat, RootSeat};
use crate::shared::Shared;
use client_mux::MuxCell;
use client_mux::limits::MAX_ENTRIES;
use orb_base::{List, NoMemory};
use std::alloc::Global;
use turn_cell::{Seat, TurnCell};

/// An open link with its seats.
#[derive(Drop)]
pub struct Opened {
    pub shared: Shared,
    /// To which all other seats come back.
    pub root: RootSeat,
    /// Those of the callers, then the writer's, then the reader's.
    pub seats: List<MuxSeat>,
}

/// Opens a link for so many callers. Takes the memory for all that is to be sent, for the calls, for the whole history and for
/// the seats.
pub fn open(alloc: Global, callers: u8) -> Result<Opened, NoMemory>
    requires some { 1 ≤ callers }
    requires few { callers ≤ MAX_CALLERS }
    ensures { IfOk result (λ o. IsOpen callers o.shared.cell o.root o.seats.items) }
{
    let mux = MuxCell::new(alloc, callers)?;
    let Ok((cell, mut main)) = TurnCell::new(alloc, mux, MAX_ENTRIES) else {
        return Err(NoMemory);
    };
    let seats = seats(alloc, &cell, &mut main, callers + 2)?;
    Ok(Opened {
        shared: Shared { cell },
        root: RootSeat { main },
        seats: List::from_vec(seats),
    })
}

/// Splits the next seat off the first one.
fn next(cell: &TurnCell<MuxCell>, main: &mut Seat<MuxCell>, by: u32) -> Result<MuxSeat, NoMemory>
    requires main { MainAt cell.now main.old.splits main.old }
    requires room { main.old.splits < MAX_SEATS }
    requires by { by ≡ main.old.splits + 1 }
    ensures main { IfOk result (λ s. MainAt cell.now (main.old.splits + 1) main.new) }
    ensures seat { IfOk result (λ s. IsFresh cell.now by s) }
{
    let seat = cell.split(main)?;
    Ok(MuxSeat { seat, by })
}

/// The first seats that are split, so many.
#[tactic(auto, using(crate::proofs::Growing::grows))]
fn seats(
    alloc: Global,
    cell: &TurnCell<MuxCell>,
    main: &mut Seat<MuxCell>,
    count: u8,
) -> Result<Vec<MuxSeat>, NoMemory>
    requires main { MainAt cell.now 0 main.old }
    requires few { count ≤ MAX_SEATS }
    ensures main { IfOk result (λ v. MainAt cell.now count main.new) }
    ensures seats { IfOk result (λ v. (length v.items ≡ count) × AreFrom cell.now 1 v.items) }
{
    let Ok(mut seats) = Vec::with_capacity(alloc, usize::from(count)) else {
        return Err(NoMemory);
    };
    for nth in 0..count {
        let seat = next(cell, main, u32::from(nth) + 1)?;
        if seats.push(seat).is_err() {
            return Err(NoMemory);
        }
    }
    Ok(seats)
}
