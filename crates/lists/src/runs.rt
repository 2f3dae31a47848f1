// The entries of a list in turn.
ghost use Rattle.std.specs.Prelude.{◌≡◌, ◌+◌, ◌≤◌, ◌<◌, length};
ghost use Rattle.words.specs.Runs.{bit};
ghost use Rattle.session.specs.Formed.{last_entry};
ghost use Rattle.lists.specs.Kinds.{taken_by};
ghost use Rattle.lists.specs.Run.{standing, counted, stepped, list_run};

use crate::Kind;
use entry::{Ground, Taken};
use table::Form;
use words::entries::Entry;
use words::statuses;
use words::statuses::Failure;

// How far an operation has come, over all its calls. That no count passes `next` stands in the contracts that need it: `export::begin` makes one of these of
// whatever work there is, that of a malformed session too, so it is no invariant.
#[derive(Clone, Copy)]
pub struct Progress {
    pub next: u64,
    pub errors: u64,
    // Data pages.
    pub filled: u64,
}

// A count, one more if the flag is set.
fn count_if(n: u64, flag: bool) -> u64
    requires { n ≤ last_entry }
    ensures { result ≡ n + bit flag }
{
    n + flag as u64
}

// One entry more; a skipped one is no error.
pub fn count(at: Progress, got: Taken) -> Progress
    requires { (at.next ≤ last_entry) × (at.errors ≤ at.next) × (at.filled ≤ at.next) }
    ensures { result ≡ counted at got }
{
    let status = got.status;
    let error = (status != statuses::SUCCESS) & (status != Failure::Skipped as u64);
    let errors = count_if(at.errors, error);
    let filled = count_if(at.filled, got.contents);
    Progress {
        next: at.next + 1,
        errors,
        filled,
    }
}

// The next entry, with its page and its buffer's word. A page that it leaves as it is is not written, nor a word where the buffer has none: a call without
// a buffer lends an empty one.
fn step<T: Form>(
    table: &mut [T::Unit],
    list: &mut [T::Unit],
    buffer: &mut [T::Unit],
    at: Progress,
    kind: Kind,
    g: Ground,
) -> Progress
    requires { (at.next ≤ last_entry) × (at.errors ≤ at.next) × (at.filled ≤ at.next) }
    ensures value { result ≡ (stepped (taken_by kind g) (standing at (T.words table.old) (T.words list.old) (T.words buffer.old))).at }
    ensures table_after { T.words table.new ≡ (stepped (taken_by kind g) (standing at (T.words table.old) (T.words list.old) (T.words buffer.old))).table }
    ensures list_after { T.words list.new ≡ (stepped (taken_by kind g) (standing at (T.words table.old) (T.words list.old) (T.words buffer.old))).list }
    ensures buffer_after { T.words buffer.new ≡ (stepped (taken_by kind g) (standing at (T.words table.old) (T.words list.old) (T.words buffer.old))).buffer }
{
    let i = at.next as usize;
    let word = T::word(list, i);
    let held = T::word(buffer, i);
    let e = Entry::from(word);
    let k = e.gpa as usize;
    let before = T::load(table, k);
    let got = crate::take(kind, g, word, held, before);
    let after = got.words;
    let next = count(at, got);
    if after != before {
        T::store(table, k, after);
    }
    T::put(list, i, got.word);
    T::put(buffer, i, got.buffer);
    next
}

// Entries in turn up to the last one, while the budget lasts.
pub fn run_entries<T: Form>(
    table: &mut [T::Unit],
    list: &mut [T::Unit],
    buffer: &mut [T::Unit],
    from: Progress,
    last: u64,
    budget: u64,
    kind: Kind,
    g: Ground,
) -> Progress
    requires { (last < length (T.words list.old)) × (last ≤ last_entry) × (from.next ≤ last + 1) × (from.errors ≤ from.next) × (from.filled ≤ from.next) }
    ensures value { result ≡ (list_run (taken_by kind g) last budget (standing from (T.words table.old) (T.words list.old) (T.words buffer.old))).at }
    ensures table_after { T.words table.new ≡ (list_run (taken_by kind g) last budget
        (standing from (T.words table.old) (T.words list.old) (T.words buffer.old))).table }
    ensures list_after { T.words list.new ≡ (list_run (taken_by kind g) last budget
        (standing from (T.words table.old) (T.words list.old) (T.words buffer.old))).list }
    ensures buffer_after { T.words buffer.new ≡ (list_run (taken_by kind g) last budget
        (standing from (T.words table.old) (T.words list.old) (T.words buffer.old))).buffer }
{
    let mut at = from;
    for _ in 0..budget {
        if last < at.next {
            break;
        }
        at = step::<T>(table, list, buffer, at, kind, g);
    }
    at
}
