// What each state of a page allows and where each call takes it, asked of the state's number. The twelve states that the base uses have their places in
// document 01's lists; any other number is strange, and in none of them.
//
// A list is held as a mask, which has a bit for each number: so nothing that is asked of a state is a jump. A new fact is a list, a mask and a line of
// proof; a new state is its name, and its places in the lists and masks.

#![tactic(auto)]

ghost use Rattle.std.specs.Prelude.{◌≡◌, cond};
ghost use Rattle.states.specs.States.{state_of, is_strange, is_in, number_by, number_in};
ghost use Rattle.states.specs.Lists.{writable_states, landing_states, startable_states, stamped_states, blocked_states, changed_states, sent_states};
ghost use Rattle.states.specs.Lists.{unsent_states};
ghost use Rattle.states.specs.Lists.{pending_states, listed_states, renewed_states, barred_states, cancelled_states, data_states, left_states};
ghost use Rattle.states.specs.Lists.{adds, accepts, blocks, unblocks, removes, looks, exports, restores, hinted, operated};
ghost use Rattle.states.specs.Masks.{in_mask, packed_at};

use words::{hints, operations, states};

// The bit of each state in a mask.
mod bit;

fn is_in(mask: u64, n: u8) -> bool
    ensures { result ≡ in_mask mask n }
{
    (n < 64) & ((mask >> (n % 64)) % 2 == 1)
}

// ---- facts

// The base does not use it.
pub fn is_strange(n: u8) -> bool
    ensures { result ≡ is_strange (state_of n) }
{
    !is_in(
        bit::FREE
            | bit::BLOCKED
            | bit::PENDING
            | bit::PENDING_BLOCKED
            | bit::MAPPED
            | bit::EXPORTED
            | bit::EXPORTED_MODIFIED
            | bit::EXPORTED_BLOCKED
            | bit::EXPORTED_REMOVED
            | bit::PENDING_EXPORTED
            | bit::PENDING_EXPORTED_MODIFIED
            | bit::PENDING_EXPORTED_BLOCKED,
        n,
    )
}

// A write is stored, and sets Dirty unless Cached is set.
pub fn is_writable(n: u8) -> bool
    ensures { result ≡ is_in (state_of n) writable_states }
{
    is_in(bit::MAPPED | bit::EXPORTED | bit::EXPORTED_MODIFIED, n)
}

// A write is stored through an old translation, which Cached stands for.
pub fn is_landing(n: u8) -> bool
    ensures { result ≡ is_in (state_of n) landing_states }
{
    is_in(bit::BLOCKED | bit::EXPORTED_BLOCKED, n)
}

// A start finds it so.
pub fn is_startable(n: u8) -> bool
    ensures { result ≡ is_in (state_of n) startable_states }
{
    is_in(
        bit::FREE | bit::BLOCKED | bit::PENDING | bit::PENDING_BLOCKED | bit::MAPPED,
        n,
    )
}

// Its stamp outlives a start or a RESTORE.
pub fn is_stamped(n: u8) -> bool
    ensures { result ≡ is_in (state_of n) stamped_states }
{
    is_in(bit::BLOCKED | bit::PENDING_BLOCKED, n)
}

pub fn is_blocked(n: u8) -> bool
    ensures { result ≡ is_in (state_of n) blocked_states }
{
    is_in(
        bit::BLOCKED | bit::PENDING_BLOCKED | bit::EXPORTED_BLOCKED | bit::PENDING_EXPORTED_BLOCKED,
        n,
    )
}

// The destination's copy may not be the page's any more.
pub fn is_changed(n: u8) -> bool
    ensures { result ≡ is_in (state_of n) changed_states }
{
    is_in(
        bit::EXPORTED_MODIFIED
            | bit::EXPORTED_BLOCKED
            | bit::EXPORTED_REMOVED
            | bit::PENDING_EXPORTED_MODIFIED
            | bit::PENDING_EXPORTED_BLOCKED,
        n,
    )
}

// The destination's copy is the page's, unless it is Dirty.
pub fn is_sent(n: u8) -> bool
    ensures { result ≡ is_in (state_of n) sent_states }
{
    is_in(bit::EXPORTED | bit::PENDING_EXPORTED, n)
}

// Memory that the destination does not hold.
pub fn is_unsent(n: u8) -> bool
    ensures { result ≡ is_in (state_of n) unsent_states }
{
    is_in(
        bit::BLOCKED | bit::PENDING | bit::PENDING_BLOCKED | bit::MAPPED,
        n,
    )
}

// Its word in a list has PENDING.
pub fn is_pending(n: u8) -> bool
    ensures { result ≡ is_in (state_of n) pending_states }
{
    is_in(
        bit::PENDING
            | bit::PENDING_EXPORTED
            | bit::PENDING_EXPORTED_MODIFIED
            | bit::PENDING_EXPORTED_BLOCKED,
        n,
    )
}

// A scan lists it, Dirty or not.
pub fn is_listed(n: u8) -> bool
    ensures { result ≡ is_in (state_of n) listed_states }
{
    is_in(
        bit::PENDING
            | bit::MAPPED
            | bit::EXPORTED_MODIFIED
            | bit::PENDING_EXPORTED_MODIFIED
            | bit::EXPORTED_REMOVED
            | bit::EXPORTED_BLOCKED
            | bit::PENDING_EXPORTED_BLOCKED,
        n,
    )
}

// Once it is listed its Dirty is cleared and its stamp renewed.
pub fn is_renewed(n: u8) -> bool
    ensures { result ≡ is_in (state_of n) renewed_states }
{
    is_in(
        bit::PENDING | bit::MAPPED | bit::EXPORTED_MODIFIED | bit::PENDING_EXPORTED_MODIFIED,
        n,
    )
}

// An export never takes it.
pub fn is_barred(n: u8) -> bool
    ensures { result ≡ is_in (state_of n) barred_states }
{
    is_in(bit::FREE | bit::BLOCKED | bit::PENDING_BLOCKED, n)
}

// An export takes the destination's copy away, so that the page's contents do not matter.
pub fn is_cancelled(n: u8) -> bool
    ensures { result ≡ is_in (state_of n) cancelled_states }
{
    is_in(
        bit::EXPORTED_BLOCKED | bit::EXPORTED_REMOVED | bit::PENDING_EXPORTED_BLOCKED,
        n,
    )
}

// An export sends the page's contents.
pub fn is_data(n: u8) -> bool
    ensures { result ≡ is_in (state_of n) data_states }
{
    is_in(bit::MAPPED | bit::EXPORTED_MODIFIED, n)
}

// A migration left it so: RESTORE takes it back.
pub fn is_left(n: u8) -> bool
    ensures { result ≡ is_in (state_of n) left_states }
{
    is_in(
        bit::EXPORTED
            | bit::EXPORTED_MODIFIED
            | bit::EXPORTED_BLOCKED
            | bit::EXPORTED_REMOVED
            | bit::PENDING_EXPORTED
            | bit::PENDING_EXPORTED_MODIFIED
            | bit::PENDING_EXPORTED_BLOCKED,
        n,
    )
}

// ---- where each call takes a state: the number stays where the call has no move for it, as `number_by` in each clause says (and an Option would be a jump)

// `to` for the numbers of a mask.
fn pick(mask: u64, n: u8, to: u8, other: u8) -> u8
    ensures { result ≡ cond (in_mask mask n) to other }
{
    if is_in(mask, n) { to } else { other }
}

pub fn add_of(n: u8) -> u8
    ensures { result ≡ number_by adds n }
{
    pick(bit::FREE, n, states::PENDING, n)
}

pub fn accept_of(n: u8) -> u8
    ensures { result ≡ number_by accepts n }
{
    let to = pick(bit::PENDING, n, states::MAPPED, n);
    pick(
        bit::PENDING_EXPORTED | bit::PENDING_EXPORTED_MODIFIED,
        n,
        states::EXPORTED_MODIFIED,
        to,
    )
}

pub fn block_of(n: u8) -> u8
    ensures { result ≡ number_by blocks n }
{
    let to = pick(bit::MAPPED, n, states::BLOCKED, n);
    let to = pick(bit::PENDING, n, states::PENDING_BLOCKED, to);
    let to = pick(
        bit::EXPORTED | bit::EXPORTED_MODIFIED,
        n,
        states::EXPORTED_BLOCKED,
        to,
    );
    pick(
        bit::PENDING_EXPORTED | bit::PENDING_EXPORTED_MODIFIED,
        n,
        states::PENDING_EXPORTED_BLOCKED,
        to,
    )
}

pub fn unblock_of(n: u8) -> u8
    ensures { result ≡ number_by unblocks n }
{
    let to = pick(bit::BLOCKED, n, states::MAPPED, n);
    let to = pick(bit::PENDING_BLOCKED, n, states::PENDING, to);
    let to = pick(bit::EXPORTED_BLOCKED, n, states::EXPORTED_MODIFIED, to);
    pick(
        bit::PENDING_EXPORTED_BLOCKED,
        n,
        states::PENDING_EXPORTED_MODIFIED,
        to,
    )
}

pub fn remove_of(n: u8) -> u8
    ensures { result ≡ number_by removes n }
{
    let to = pick(bit::BLOCKED | bit::PENDING_BLOCKED, n, states::FREE, n);
    pick(
        bit::EXPORTED_BLOCKED | bit::PENDING_EXPORTED_BLOCKED,
        n,
        states::EXPORTED_REMOVED,
        to,
    )
}

pub fn look_of(n: u8) -> u8
    ensures { result ≡ number_by looks n }
{
    let to = pick(bit::EXPORTED, n, states::EXPORTED_MODIFIED, n);
    pick(
        bit::PENDING_EXPORTED,
        n,
        states::PENDING_EXPORTED_MODIFIED,
        to,
    )
}

pub fn export_of(n: u8) -> u8
    ensures { result ≡ number_by exports n }
{
    let to = pick(bit::MAPPED | bit::EXPORTED_MODIFIED, n, states::EXPORTED, n);
    let to = pick(
        bit::PENDING | bit::PENDING_EXPORTED_MODIFIED,
        n,
        states::PENDING_EXPORTED,
        to,
    );
    let to = pick(bit::EXPORTED_BLOCKED, n, states::BLOCKED, to); // cancelled, and still the guest's
    let to = pick(
        bit::PENDING_EXPORTED_BLOCKED,
        n,
        states::PENDING_BLOCKED,
        to,
    );
    pick(bit::EXPORTED_REMOVED, n, states::FREE, to)
}

pub fn restore_of(n: u8) -> u8
    ensures { result ≡ number_by restores n }
{
    let to = pick(bit::EXPORTED | bit::EXPORTED_MODIFIED, n, states::MAPPED, n);
    let to = pick(
        bit::PENDING_EXPORTED | bit::PENDING_EXPORTED_MODIFIED,
        n,
        states::PENDING,
        to,
    );
    let to = pick(bit::EXPORTED_BLOCKED, n, states::BLOCKED, to); // blocked outside a migration
    let to = pick(
        bit::PENDING_EXPORTED_BLOCKED,
        n,
        states::PENDING_BLOCKED,
        to,
    );
    pick(bit::EXPORTED_REMOVED, n, states::FREE, to)
}

// ---- a state's numbers in a list word, in tables of two bits for each state's number

// One word holds all of 0 to 31; `words::class_of`, of all 256 numbers, picks one of eight such words first, and no test of its own stands before it.
fn packed_at(table: u64, n: u8) -> u64
    ensures { result ≡ packed_at table n }
{
    if n < 32 {
        (table >> (2 * (n % 32))) % 4
    } else {
        0
    }
}

const HINTS: u64 = (hints::EXPORTED_MODIFIED << (2 * states::EXPORTED_MODIFIED))
    | (hints::EXPORTED_MODIFIED << (2 * states::PENDING_EXPORTED_MODIFIED))
    | (hints::EXPORTED_MODIFIED << (2 * states::EXPORTED))
    | (hints::EXPORTED_MODIFIED << (2 * states::PENDING_EXPORTED))
    | (hints::EXPORTED_REMOVED << (2 * states::EXPORTED_REMOVED))
    | (hints::EXPORTED_BLOCKED << (2 * states::EXPORTED_BLOCKED))
    | (hints::EXPORTED_BLOCKED << (2 * states::PENDING_EXPORTED_BLOCKED))
    | (hints::NOT_EXPORTED << (2 * states::PENDING))
    | (hints::NOT_EXPORTED << (2 * states::MAPPED));

// What a scan says of it in its list.
pub fn hint_of(n: u8) -> u64
    ensures { result ≡ number_in hinted (state_of n) }
{
    packed_at(HINTS, n)
}

const OPERATIONS: u64 = (operations::MIGRATE << (2 * states::MAPPED))
    | (operations::MIGRATE << (2 * states::PENDING))
    | (operations::REMIGRATE << (2 * states::EXPORTED_MODIFIED))
    | (operations::REMIGRATE << (2 * states::PENDING_EXPORTED_MODIFIED))
    | (operations::CANCEL << (2 * states::EXPORTED_BLOCKED))
    | (operations::CANCEL << (2 * states::PENDING_EXPORTED_BLOCKED))
    | (operations::CANCEL << (2 * states::EXPORTED_REMOVED));

// What its export is called in the list.
pub fn operation_of(n: u8) -> u64
    ensures { result ≡ number_in operated (state_of n) }
{
    packed_at(OPERATIONS, n)
}
