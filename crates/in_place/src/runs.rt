// The entries of a list in turn, on the bytes of their words, of the buffer's and of the pages that they name: the run of every form.
ghost use Rattle.std.specs.Prelude.{◌≡◌, ◌+◌, ◌/◌, ◌%◌, ◌≤◌, ◌<◌, length};
ghost use Rattle.session.specs.Formed.{last_entry};
ghost use Rattle.lists.specs.Kinds.{taken_by};
ghost use Rattle.lists.specs.Run.{standing, list_run};
ghost use Rattle.wire.specs.Bytes.{words_of, bytes_of};

use entry::Ground;
use lists::runs::Progress;
use lists::{Kind, runs};
use wire::tables::InBytes;

// Entries in turn up to the last one, while the budget lasts.
pub fn run_entries(
    table: &mut [u8],
    list: &mut [u8],
    buffer: &mut [u8],
    from: Progress,
    last: u64,
    budget: u64,
    kind: Kind,
    g: Ground,
) -> Progress
    requires table_len { (length table.old % 8 ≡ 0) × (length list.old % 8 ≡ 0) × (length buffer.old % 8 ≡ 0) }
    requires last_in_bounds { (last < length list.old / 8) × (last ≤ last_entry) × (from.next ≤ last + 1) × (from.errors ≤ from.next) × (from.filled ≤ from.next) }
    ensures value { result ≡ (list_run (taken_by kind g) last budget
        (standing from (words_of table.old) (words_of list.old) (words_of buffer.old))).at }
    ensures table_after { table.new ≡ bytes_of (list_run (taken_by kind g) last budget
        (standing from (words_of table.old) (words_of list.old) (words_of buffer.old))).table }
    ensures list_after { list.new ≡ bytes_of (list_run (taken_by kind g) last budget
        (standing from (words_of table.old) (words_of list.old) (words_of buffer.old))).list }
    ensures buffer_after { buffer.new ≡ bytes_of (list_run (taken_by kind g) last budget
        (standing from (words_of table.old) (words_of list.old) (words_of buffer.old))).buffer }
{
    runs::run_entries::<InBytes>(table, list, buffer, from, last, budget, kind, g)
}
