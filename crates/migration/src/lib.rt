// The calls on every page, the calls on the session alone, and in its own module the start token.

#![tactic(auto)]

ghost use Rattle.std.specs.Prelude.{◌≡◌};
ghost use Rattle.session.specs.Outcome.{answer_of, verdict_of};
ghost use Rattle.migration.specs.Migration.{sweep_when, stops_at, stopped, sweep_verdict, on_all};
ghost use Rattle.migration.specs.Migration.{alone_when, alone_verdict, alone_answer};

use page::Clock;
use page::queries::Sought;
use page::sweeps::Sweep;
use refusals::Refusal;
use session::changes::{Change, Verdict};
use session::{Phase, Session, When, changes};
use table::{Form, InWords};

pub mod token;

// ---- the calls on every page

// The phases in which it comes.
pub fn sweep_when(k: Sweep) -> When
    ensures { result ≡ sweep_when k }
{
    match k {
        Sweep::Track => When::Guest,
        Sweep::Start => When::Idle,
        Sweep::Pause => When::Live,
    }
}

// The kind of page that stops a call, if there is one.
pub fn stops_at(k: Sweep) -> Option<Sought>
    ensures { result ≡ stops_at k }
{
    match k {
        Sweep::Track => None,
        Sweep::Start => Some(Sought::Unstartable),
        Sweep::Pause => Some(Sought::Blocked),
    }
}

// Whether the table has what stops a call.
pub fn is_stopped<T: Form>(table: &[T::Unit], stop: Option<Sought>) -> bool
    ensures { result ≡ stopped stop (T.words table.now) }
{
    stop.is_some_and(|kind| table::has::<T>(table, kind))
}

// What a call that has passed its gate comes to: `stops` says whether a page stops it.
#[tactic(auto, unfolding(crate::specs::Migration::sweep_verdict))]
pub fn sweep_verdict(k: Sweep, clock: Clock, busy: bool, stops: bool) -> Result<Change, Refusal>
    ensures { verdict_of result ≡ sweep_verdict k 0 clock busy stops }
{
    match k {
        Sweep::Track => {
            if session::LAST_EPOCH <= clock.tlb {
                return Err(Refusal::TlbEpochAtLimit);
            }
            let tlb = clock.tlb + 1;
            Ok(Change::ToClock {
                clock: Clock { tlb },
            })
        }
        Sweep::Start => {
            if stops {
                return Err(Refusal::EptEntryStateIncorrect);
            }
            Ok(Change::Begin {
                phase: Phase::Live,
                epoch: 1,
            })
        }
        Sweep::Pause => {
            if stops {
                return Err(Refusal::BlockedMemoryExists);
            }
            if busy {
                return Err(Refusal::OperandBusy);
            }
            Ok(Change::ToPhase {
                phase: Phase::Blackout,
            })
        }
    }
}

// The same told the code of its gate, for whoever holds that in place of a `Result`.
#[tactic(auto, unfolding(crate::specs::Migration::sweep_verdict))]
pub fn sweep_told(k: Sweep, gate: u64, clock: Clock, busy: bool, stops: bool) -> Verdict
    ensures code { result.code ≡ (sweep_verdict k gate clock busy stops).code }
    ensures change { result.change ≡ (sweep_verdict k gate clock busy stops).change }
{
    changes::told(gate, sweep_verdict(k, clock, busy, stops))
}

pub fn on_all(k: Sweep, s: Session, table: &mut [u64]) -> Result<Session, Refusal>
    ensures value { answer_of s result ≡ (on_all k s table.old).answer }
    ensures table_after { table.new ≡ (on_all k s table.old).table }
{
    session::gate(s, table.len(), sweep_when(k))?;
    let stops = is_stopped::<InWords>(&table[..], stops_at(k));
    let change = sweep_verdict(k, s.clock, session::is_busy(s), stops)?;
    table::sweep_all::<InWords>(table, k);
    Ok(changes::changed(s, change))
}

// ---- the calls on the session alone, which ask of the table its length

// Data and no closure, as the calls of the other shapes (`alone_asks`, `alone_change`, `effect_of`).
#[derive(Clone, Copy)]
pub enum Alone {
    NewEpoch,
    Reset,
    Abort,
}

// The phases in which it comes.
pub fn alone_when(k: Alone) -> When
    ensures { result ≡ alone_when k }
{
    match k {
        Alone::NewEpoch | Alone::Reset | Alone::Abort => When::Moving,
    }
}

// What a call that has passed its gate comes to.
#[tactic(auto, unfolding(crate::specs::Migration::alone_verdict))]
pub fn alone_verdict(k: Alone, epoch: u64, busy: bool) -> Result<Change, Refusal>
    ensures { verdict_of result ≡ alone_verdict k 0 epoch busy }
{
    match k {
        Alone::NewEpoch => {
            if busy {
                return Err(Refusal::OperandBusy);
            }
            if session::LAST_EPOCH <= epoch {
                return Err(Refusal::MigrationEpochOverflow);
            }
            Ok(Change::ToEpoch { epoch: epoch + 1 })
        }
        Alone::Reset => Ok(Change::ToCheck {
            check: changes::no_check(),
        }),
        Alone::Abort => Ok(Change::Begin {
            phase: Phase::Idle,
            epoch: 0,
        }),
    }
}

// The same told the code of its gate.
#[tactic(auto, unfolding(crate::specs::Migration::alone_verdict))]
pub fn alone_told(k: Alone, gate: u64, epoch: u64, busy: bool) -> Verdict
    ensures code { result.code ≡ (alone_verdict k gate epoch busy).code }
    ensures change { result.change ≡ (alone_verdict k gate epoch busy).change }
{
    changes::told(gate, alone_verdict(k, epoch, busy))
}

pub fn on_session(k: Alone, s: Session, len: usize) -> Result<Session, Refusal>
    ensures { answer_of s result ≡ alone_answer k s len }
{
    session::gate(s, len, alone_when(k))?;
    let change = alone_verdict(k, s.epoch, session::is_busy(s))?;
    Ok(changes::changed(s, change))
}
