// New, and the calls on one page.

#![tactic(auto)]

ghost use Rattle.std.specs.Prelude.{◌≡◌, IfOk};
ghost use Rattle.refusals.specs.Refusals.{first_of, code_of};
ghost use Rattle.page.specs.Page.{page_of};
ghost use Rattle.session.specs.Outcome.{answer_of};
ghost use Rattle.memory.specs.Memory.{new_code, new_out, turn_tests, page_turn, on_page};

use page::moves::Move;
use page::{Clock, PageWords, moves, queries};
use refusals::{Refusal, code_of};
use session::{Phase, Session};

// What New asks, of a table of that length.
#[tactic(auto, unfolding(crate::specs::Memory::new_code))]
pub fn allow_new(len: usize, created: u64) -> Result<(), Refusal>
    ensures { code_of result ≡ new_code len created }
{
    if !table::is_legal(len) {
        return Err(Refusal::Malformed);
    }
    if !((session::FEWEST_CREATED <= created) & (created <= session::MOST_CREATED)) {
        return Err(Refusal::OperandInvalid);
    }
    Ok(())
}

// A new bench over the lent table. The session that came is not read.
pub fn new(s: Session, table: &mut [u64], created: u64) -> Result<Session, Refusal>
    ensures value { answer_of s result ≡ (new_out s table.old created).answer }
    ensures table_after { table.new ≡ (new_out s table.old created).table }
{
    allow_new(table.len(), created)?;
    let session = session::new_session(table.len() / 2, created);
    table.fill(0);
    Ok(session)
}

// ---- calls on one page

// Behind 40.
fn allow_turn(
    m: Move,
    phase: Phase,
    pages: usize,
    clock: Clock,
    at: usize,
    w: PageWords,
) -> Result<(), Refusal>
    ensures { code_of result ≡ first_of (turn_tests m phase pages clock at (page_of w)) }
{
    let comes = session::comes_in(phase);
    if moves::is_block(m) & comes.blackout {
        return Err(Refusal::BlockingDisallowed);
    }
    if !comes.guest {
        return Err(Refusal::OpStateIncorrect);
    }
    if pages <= at {
        return Err(Refusal::OperandInvalid);
    }
    if comes.idle & !moves::is_write(m) & queries::is_left(w) {
        return Err(Refusal::EptEntryStateIncorrect); // it waits for RESTORE
    }
    moves::allow_move(m, w, clock)
}

// The whole call behind 40, on the page's two words and what it asks of the session, for whoever holds these in another form: the words afterwards.
#[tactic(auto, unfolding(crate::specs::Memory::page_turn))]
pub fn on_words(
    m: Move,
    phase: Phase,
    pages: usize,
    clock: Clock,
    at: usize,
    w: PageWords,
) -> Result<PageWords, Refusal>
    ensures code { code_of result ≡ (page_turn m phase pages clock at w).code }
    ensures words { IfOk result (λ words. words ≡ (page_turn m phase pages clock at w).words) }
{
    allow_turn(m, phase, pages, clock, at, w)?;
    Ok(moves::move_words(m, w, clock))
}

// What a call on one page comes to: its code, and the words that the move makes of the page, whatever the code is.
#[derive(Clone, Copy)]
pub struct Turn {
    pub code: u64,
    pub words: PageWords,
}

// The same as `on_words`, in a code, with the words also of a call that is refused.
#[tactic(auto, unfolding(crate::specs::Memory::page_turn))]
pub fn turn_told(m: Move, phase: Phase, pages: usize, clock: Clock, at: usize, w: PageWords) -> Turn
    ensures code { result.code ≡ (page_turn m phase pages clock at w).code }
    ensures words { result.words ≡ (page_turn m phase pages clock at w).words }
{
    Turn {
        code: code_of(allow_turn(m, phase, pages, clock, at, w)),
        words: moves::move_words(m, w, clock),
    }
}

// The session stays.
pub fn on_page(m: Move, s: Session, table: &mut [u64], at: usize) -> Result<(), Refusal>
    ensures value { record { code = code_of result; session = s } ≡ (on_page m s table.old at).answer }
    ensures table_after { table.new ≡ (on_page m s table.old at).table }
{
    if !session::is_formed(s, table.len()) {
        return Err(Refusal::Malformed);
    }
    let before = table::load(&table[..], at);
    let after = on_words(m, s.phase, s.fixed.pages, s.clock, at, before)?;
    table::store(table, at, after);
    Ok(())
}
