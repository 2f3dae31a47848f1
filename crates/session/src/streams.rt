// The migration streams of a session: eight places, whatever the number of created ones.
ghost use Rattle.std.specs.Prelude.{◌≡◌};
ghost use Rattle.session.specs.Session.{at_rest, work_of, with_work};
ghost use Rattle.session.specs.Formed.{work_in_range, usable_of, some_stream, out_of_range, out_of_place, busy};

use crate::Session;

// An interrupted export: it has taken the entries before `next`, of 0 to `last`.
#[derive(Clone, Copy, Debug, PartialEq, Eq)]
pub struct Interruption {
    pub next: u64,
    pub last: u64,
    pub errors: u64,
    // Data pages so far.
    pub filled: u64,
}

// Where an export on it was interrupted; None: it is at rest.
#[derive(Clone, Copy)]
pub struct Stream {
    pub work: Option<Interruption>,
}

pub const STREAM_PLACES: usize = 8;

// The last entry that a list can have.
pub const LAST_ENTRY: u64 = 511;

// The longest list.
pub const MOST_ENTRIES: usize = 512;

pub fn at_rest() -> [Stream; STREAM_PLACES]
    ensures { result ≡ at_rest }
{
    [Stream { work: None }; STREAM_PLACES]
}

// What a stream is doing: None at rest, and where the session has no place for it.
pub fn work_of(s: Session, at: u64) -> Option<Interruption>
    ensures { result ≡ work_of s at }
{
    if at < STREAM_PLACES as u64 {
        return s.streams[at as usize].work;
    }
    None
}

// The session with other work in one place.
pub fn with_work(s: Session, at: u64, work: Option<Interruption>) -> Session
    ensures { result ≡ with_work s at work }
{
    if at < STREAM_PLACES as u64 {
        let mut next = s;
        next.streams[at as usize] = Stream { work };
        return next;
    }
    s
}

// An index below N−1 is usable (000, 3.1.3.1).
pub fn is_usable(created: u64, at: u64) -> bool
    ensures { result ≡ usable_of created at }
{
    if created <= at {
        return false;
    }
    at + 1 < created
}

// Whether what an interrupted stream holds is in its ranges.
fn is_in_range(work: Option<Interruption>) -> bool
    ensures { result ≡ work_in_range work }
{
    work.is_none_or(|i| {
        (i.next <= i.last) & (i.last <= LAST_ENTRY) & (i.errors <= i.next) & (i.filled <= i.next)
    })
}

// What there is among the streams: an interrupted one, one outside its ranges, an interrupted one that is unusable.
#[derive(Clone, Copy)]
pub struct Found {
    pub any: bool,
    pub outside: bool,
    pub unusable: bool,
}

// One look at every stream, for the session's well-formedness and for 43.
pub fn find_interrupted(s: Session) -> Found
    ensures { result ≡ record { any = busy s; outside = some_stream (out_of_range s); unusable = some_stream (out_of_place s) } }
{
    let mut any = false;
    let mut outside = false;
    let mut unusable = false;
    for (i, stream) in s.streams.iter().enumerate() {
        let interrupted = stream.work.is_some();
        any |= interrupted;
        outside |= !is_in_range(stream.work);
        unusable |= interrupted & !is_usable(s.fixed.created, i as u64);
    }
    Found {
        any,
        outside,
        unusable,
    }
}
