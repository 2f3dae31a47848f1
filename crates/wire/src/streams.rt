// The streams' words in the session's bytes: five for each stream, from word 8 on.
ghost use Rattle.std.specs.Prelude.{◌≡◌, ◌+◌, ◌*◌, ◌<◌, ◌≤◌, length, replicate};
ghost use Rattle.session.specs.Session.{stream_places};
ghost use Rattle.wire.specs.Bytes.{words_of, put_words};
ghost use Rattle.wire.specs.Sessions.{streams_place, stream_place, five_at, stream_formed, streams_formed, work_words, five, streams_from};

use crate::bytes;
use crate::sessions::SESSION_BYTES;
use session::streams::{Interruption, LAST_ENTRY, STREAM_PLACES};
use session::{Session, streams};

// The layout's five words, the first of them a flag.
#[derive(Clone, Copy)]
pub struct StreamWords {
    pub flag: u64,
    pub next: u64,
    pub last: u64,
    pub errors: u64,
    pub filled: u64,
}

pub fn stream_place(i: usize) -> usize
    requires { i < stream_places }
    ensures { result ≡ stream_place i }
{
    8 + 5 * i
}

pub fn five_at(b: &[u8], at: usize) -> StreamWords
    requires { 8 * at + 40 ≤ length b.now }
    ensures { result ≡ five_at (words_of b.now) at }
{
    StreamWords {
        flag: bytes::number(b, at),
        next: bytes::number(b, at + 1),
        last: bytes::number(b, at + 2),
        errors: bytes::number(b, at + 3),
        filled: bytes::number(b, at + 4),
    }
}

// At rest, or interrupted in its ranges and able to be. Each word by itself: a derived `==` would be a jump at each.
fn is_stream(x: StreamWords, able: bool) -> bool
    ensures { result ≡ stream_formed able x }
{
    if (x.flag == 0) & (x.next == 0) & (x.last == 0) & (x.errors == 0) & (x.filled == 0) {
        return true;
    }
    (x.flag == 1)
        & (x.next <= x.last)
        & (x.last <= LAST_ENTRY)
        & (x.errors <= x.next)
        & (x.filled <= x.next)
        & able
}

// Every stream is as it may be, where so many are created and the phase is one in which they move, or not.
pub fn are_streams(b: &[u8; SESSION_BYTES], created: u64, moves: bool) -> bool
    ensures { result ≡ streams_formed moves created (words_of b.now) }
{
    (0..STREAM_PLACES).all(|i| is_stream(
        five_at(b, stream_place(i)),
        (i as u64 + 1 < created) & moves,
    ))
}

fn put_five(b: &mut [u8], at: usize, x: StreamWords)
    requires { 8 * at + 40 ≤ length b.old }
    ensures { b.new ≡ put_words b.old at (five x) }
{
    bytes::put_number(b, at, x.flag);
    bytes::put_number(b, at + 1, x.next);
    bytes::put_number(b, at + 2, x.last);
    bytes::put_number(b, at + 3, x.errors);
    bytes::put_number(b, at + 4, x.filled);
}

fn stream_words(work: Option<Interruption>) -> StreamWords
    ensures { result ≡ work_words work }
{
    match work {
        None => StreamWords {
            flag: 0,
            next: 0,
            last: 0,
            errors: 0,
            filled: 0,
        },
        Some(i) => StreamWords {
            flag: 1,
            next: i.next,
            last: i.last,
            errors: i.errors,
            filled: i.filled,
        },
    }
}

pub fn put_work(b: &mut [u8; SESSION_BYTES], i: usize, work: Option<Interruption>)
    requires { i < stream_places }
    ensures { b.new ≡ put_words b.old (stream_place i) (five (work_words work)) }
{
    put_five(b, stream_place(i), stream_words(work));
}

// All at rest.
pub fn rest_streams(b: &mut [u8; SESSION_BYTES])
    ensures { b.new ≡ put_words b.old streams_place (replicate (5 * stream_places) 0) }
{
    b[64..384].fill(0);
}

// Those of a session.
pub fn put_streams(b: &mut [u8; SESSION_BYTES], s: Session)
    ensures { b.new ≡ put_words b.old streams_place (streams_from s stream_places 0) }
{
    for i in 0..STREAM_PLACES {
        put_work(b, i, streams::work_of(s, i as u64));
    }
}
