// The session: what a bench knows beside its table, when it is well-formed, and the gate that every call but New passes first.

#![tactic(auto)]

ghost use Rattle.std.specs.Prelude.{◌≡◌, []};
ghost use Rattle.refusals.specs.Refusals.{first_of, code_of};
ghost use Rattle.session.specs.Session.{among, phases_of, comes_in, new_session};
ghost use Rattle.session.specs.Formed.{epoch_in, formed, phase_tests, gated, busy};

pub mod changes;
pub mod phases;
pub mod streams;

use crate::streams::{STREAM_PLACES, Stream};
use page::Clock;
use refusals::Refusal;

#[derive(Clone, Copy, Debug, PartialEq, Eq)]
pub enum Phase {
    Idle,
    Live,
    Blackout,
    Done,
}

// How far the check has come.
#[derive(Clone, Copy)]
pub struct Check {
    pub place: usize,
    pub complete: bool,
    pub failed: bool,
}

// What is constant since New.
#[derive(Clone, Copy)]
pub struct Fixed {
    pub pages: usize,
    // How many streams were created, N; an index below N−1 is usable (000, 3.1.3.1).
    pub created: u64,
}

// Phase and migration epoch, and parts of which a call changes one or two.
#[derive(Clone, Copy)]
pub struct Session {
    pub phase: Phase,
    pub epoch: u64,
    pub fixed: Fixed,
    pub clock: Clock,
    pub check: Check,
    pub streams: [Stream; STREAM_PLACES],
}

// Both epochs stop here.
pub const LAST_EPOCH: u64 = 65535;

pub const FEWEST_CREATED: u64 = 2;

pub const MOST_CREATED: u64 = 9;

// Which calls come in a phase.
#[derive(Clone, Copy)]
pub struct Comes {
    pub guest: bool,
    pub idle: bool,
    pub live: bool,
    pub blackout: bool,
    pub moving: bool,
}

pub fn comes_in(p: Phase) -> Comes
    ensures { result ≡ comes_in p }
{
    match p {
        Phase::Idle => Comes {
            guest: true,
            idle: true,
            live: false,
            blackout: false,
            moving: false,
        },
        Phase::Live => Comes {
            guest: true,
            idle: false,
            live: true,
            blackout: false,
            moving: true,
        },
        Phase::Blackout => Comes {
            guest: false,
            idle: false,
            live: false,
            blackout: true,
            moving: true,
        },
        Phase::Done => Comes {
            guest: false,
            idle: false,
            live: false,
            blackout: false,
            moving: false,
        },
    }
}

// The migration epoch is 0 in Idle, else 1 to 65,535.
fn is_epoch_in(p: Phase, epoch: u64) -> bool
    ensures { result ≡ epoch_in p epoch }
{
    let comes = comes_in(p);
    if comes.idle {
        return epoch == 0;
    }
    (1 <= epoch) & (epoch <= LAST_EPOCH)
}

// The table is of a legal length and the session's, and the session is well-formed: none of document 01's cases, in its order.
pub fn is_formed(s: Session, len: usize) -> bool
    ensures { result ≡ formed s len }
{
    let p = s.phase;
    let pages = s.fixed.pages;
    let tlb = s.clock.tlb;
    let created = s.fixed.created;
    let place = s.check.place;
    let complete = s.check.complete;
    let failed = s.check.failed;
    let epoch = is_epoch_in(p, s.epoch);
    let legal = table::is_legal(len);
    let comes = comes_in(p);
    let found = streams::find_interrupted(s);
    !(!legal
        | (len / 2 != pages)
        | !((1 <= pages) & (pages <= table::MOST_PAGES))
        | !((1 <= tlb) & (tlb <= LAST_EPOCH))
        | !epoch
        | !((FEWEST_CREATED <= created) & (created <= MOST_CREATED))
        | found.outside
        | (pages < place)
        | (complete & (place != pages))
        | (complete & failed)
        | found.unusable
        | (found.any & !comes.moving))
}

// The phases in which a call comes. Data and no closure: `phases_of` and the laws of the gate name it.
#[derive(Clone, Copy)]
pub enum When {
    Guest,
    Idle,
    Live,
    Blackout,
    Moving,
}

fn is_in(w: When, p: Phase) -> bool
    ensures { result ≡ among (phases_of w) p }
{
    let comes = comes_in(p);
    match w {
        When::Guest => comes.guest,
        When::Idle => comes.idle,
        When::Live => comes.live,
        When::Blackout => comes.blackout,
        When::Moving => comes.moving,
    }
}

// 41 if the call does not come in this phase.
pub fn allow_phase(p: Phase, w: When) -> Result<(), Refusal>
    ensures { code_of result ≡ first_of (phase_tests p (phases_of w) []) }
{
    if !is_in(w, p) {
        return Err(Refusal::OpStateIncorrect);
    }
    Ok(())
}

// 40, and then 41.
pub fn gate(s: Session, len: usize, w: When) -> Result<(), Refusal>
    ensures { code_of result ≡ gated s len (phases_of w) [] }
{
    if !is_formed(s, len) {
        return Err(Refusal::Malformed);
    }
    allow_phase(s.phase, w)
}

// Some stream is interrupted.
pub fn is_busy(s: Session) -> bool
    ensures { result ≡ busy s }
{
    let found = streams::find_interrupted(s);
    found.any
}

// What New makes.
pub fn new_session(pages: usize, created: u64) -> Session
    ensures { result ≡ new_session pages created }
{
    let check = changes::no_check();
    let streams = streams::at_rest();
    Session {
        phase: Phase::Idle,
        epoch: 0,
        fixed: Fixed { pages, created },
        clock: Clock { tlb: 1 },
        check,
        streams,
    }
}
