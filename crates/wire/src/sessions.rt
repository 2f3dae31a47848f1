// The session where it lies: 48 words in its bytes, part by part: its own numbers, the check, and five words for each stream. Each part is tested, read and
// written in its place. No more is read than is asked for, and a change writes its own words alone.
ghost use Rattle.std.specs.Prelude.{◌&&◌, ◌≡◌};
ghost use Rattle.session.specs.Session.{work_of};
ghost use Rattle.session.specs.Formed.{epoch_in, formed, busy};
ghost use Rattle.wire.specs.Bytes.{words_of, bytes_of, put_words};
ghost use Rattle.wire.specs.Sessions.{phase_of, own_words, check_words, fits, session_of, session_words, written_by};

use crate::{bytes, streams};
use page::Clock;
use session::changes::Change;
use session::streams::{Interruption, STREAM_PLACES};
use session::{Check, FEWEST_CREATED, LAST_EPOCH, MOST_CREATED, Phase, Session, changes};

// How many words a session is.
pub const SESSION_WORDS: usize = 48;

// And how many bytes.
pub const SESSION_BYTES: usize = 8 * SESSION_WORDS;

// ---- its own numbers: words 0 to 4

pub fn phase_at(b: &[u8; SESSION_BYTES]) -> Phase
    ensures { result ≡ (session_of (words_of b.now)).phase }
{
    Phase::try_from(bytes::number(b, 0)).unwrap_or(Phase::Done)
}

pub fn pages_at(b: &[u8; SESSION_BYTES]) -> usize
    ensures { result ≡ (session_of (words_of b.now)).fixed.pages }
{
    bytes::number(b, 1) as usize
}

pub fn clock_at(b: &[u8; SESSION_BYTES]) -> Clock
    ensures { result ≡ (session_of (words_of b.now)).clock }
{
    Clock {
        tlb: bytes::number(b, 2),
    }
}

pub fn epoch_at(b: &[u8; SESSION_BYTES]) -> u64
    ensures { result ≡ (session_of (words_of b.now)).epoch }
{
    bytes::number(b, 3)
}

pub fn created_at(b: &[u8; SESSION_BYTES]) -> u64
    ensures { result ≡ (session_of (words_of b.now)).fixed.created }
{
    bytes::number(b, 4)
}

fn put_own(b: &mut [u8; SESSION_BYTES], s: Session)
    ensures { b.new ≡ put_words b.old 0 (own_words s) }
{
    bytes::put_number(b, 0, u64::from(s.phase));
    bytes::put_number(b, 1, s.fixed.pages as u64);
    bytes::put_number(b, 2, s.clock.tlb);
    bytes::put_number(b, 3, s.epoch);
    bytes::put_number(b, 4, s.fixed.created);
}

// The migration epoch is 0 in Idle, else 1 to 65,535. By the phase's number: a `match` would be a jump.
fn is_epoch_in(phase: u64, epoch: u64) -> bool
    ensures { result ≡ epoch_in (phase_of phase) epoch }
{
    let idle = phase == 0;
    (idle & (epoch == 0)) | (!idle & (1 <= epoch) & (epoch <= LAST_EPOCH))
}

// ---- the check: words 5 to 7

pub fn check_at(b: &[u8; SESSION_BYTES]) -> Check
    ensures { result ≡ (session_of (words_of b.now)).check }
{
    Check {
        place: bytes::number(b, 5) as usize,
        complete: bytes::number(b, 6) == 1,
        failed: bytes::number(b, 7) == 1,
    }
}

fn put_check(b: &mut [u8; SESSION_BYTES], c: Check)
    ensures { b.new ≡ put_words b.old 5 (check_words c) }
{
    bytes::put_number(b, 5, c.place as u64);
    bytes::put_number(b, 6, u64::from(c.complete));
    bytes::put_number(b, 7, u64::from(c.failed));
}

// ---- the streams

// Some stream is interrupted. Every flag is read: `any` would jump at each.
pub fn is_busy(b: &[u8; SESSION_BYTES]) -> bool
    ensures { result ≡ busy (session_of (words_of b.now)) }
{
    let mut any = false;
    for i in 0..STREAM_PLACES {
        any |= bytes::number(b, streams::stream_place(i)) != 0;
    }
    any
}

// What a stream is doing: None at rest, and where the session has no place for it.
pub fn work_at(b: &[u8; SESSION_BYTES], stream: u64) -> Option<Interruption>
    ensures { result ≡ work_of (session_of (words_of b.now)) stream }
{
    if stream < STREAM_PLACES as u64 {
        let x = streams::five_at(b, streams::stream_place(stream as usize));
        if x.flag != 0 {
            return Some(Interruption {
                next: x.next,
                last: x.last,
                errors: x.errors,
                filled: x.filled,
            });
        }
    }
    None
}

// ---- all of it

// The session's words are in the layout and it is well-formed, with a table of `len` words. The phase is a number here too: a `match` on it would be a jump.
pub fn is_formed(b: &[u8; SESSION_BYTES], len: usize) -> bool
    ensures { result ≡ (fits (words_of b.now) && formed (session_of (words_of b.now)) len) }
{
    let phase = bytes::number(b, 0);
    let pages = bytes::number(b, 1);
    let tlb = bytes::number(b, 2);
    let epoch = bytes::number(b, 3);
    let created = bytes::number(b, 4);
    let place = bytes::number(b, 5);
    let complete = bytes::number(b, 6);
    let failed = bytes::number(b, 7);
    let legal = table::is_legal(len);
    let epoch_in = is_epoch_in(phase, epoch);
    let streams = streams::are_streams(b, created, (phase == 1) | (phase == 2));
    let malformed = !legal
        | ((len / 2) as u64 != pages)
        | !((1 <= pages) & (pages <= table::MOST_PAGES as u64))
        | !((1 <= tlb) & (tlb <= LAST_EPOCH))
        | !epoch_in
        | !((FEWEST_CREATED <= created) & (created <= MOST_CREATED))
        | (pages < place)
        | ((complete == 1) & (place != pages))
        | ((complete == 1) & (failed == 1));
    (phase <= 3) & ((complete <= 1) & (failed <= 1)) & !malformed & streams
}

// What a change writes, and no other word. Put into its callers, each of which knows which change it is.
#[inline(always)]
pub fn put_change(b: &mut [u8; SESSION_BYTES], c: Change)
    ensures { b.new ≡ written_by c b.old }
{
    match c {
        Change::Nothing => {}
        Change::ToPhase { phase } => bytes::put_number(b, 0, u64::from(phase)),
        Change::ToEpoch { epoch } => bytes::put_number(b, 3, epoch),
        Change::ToClock { clock } => bytes::put_number(b, 2, clock.tlb),
        Change::ToCheck { check } => put_check(b, check),
        Change::Begin { phase, epoch } => {
            bytes::put_number(b, 0, u64::from(phase));
            bytes::put_number(b, 3, epoch);
            put_check(b, changes::no_check());
            streams::rest_streams(b);
        }
        Change::ToWork { stream, work } => {
            if stream < STREAM_PLACES as u64 {
                streams::put_work(b, stream as usize, work);
            }
        }
    }
}

// The whole session, as New makes it.
pub fn put_session(b: &mut [u8; SESSION_BYTES], s: Session)
    ensures { b.new ≡ bytes_of (session_words s) }
{
    put_own(b, s);
    put_check(b, s.check);
    streams::put_streams(b, s);
}
