// The start token, and what a driver learns where it is refused.
ghost use Rattle.std.specs.Prelude.{◌≡◌};
ghost use Rattle.refusals.specs.Refusals.{first_of, code_of};
ghost use Rattle.page.specs.Page.{gives53, gives54};
ghost use Rattle.table.specs.Table.{first_page};
ghost use Rattle.session.specs.Formed.{behind};
ghost use Rattle.migration.specs.declared.token.Obstacle.TheVariants as obstacle;
ghost use Rattle.migration.specs.Token.{Granted, token_says, token_of, token_answer_of};
ghost use Rattle.migration.specs.Token.{token_asks, token_code, in_the_way, token_out, token_found, token_named, token_told, token_change};

use page::queries::Sought;
use refusals::{Refusal, told};
use session::changes::Change;
use session::{Phase, Session, When, changes};
use table::{Form, InWords};

// Why the token is not granted: a plain refusal, or one that carries the lowest page that is in the way.
#[derive(Clone, Copy, Debug, PartialEq, Eq)]
pub enum Obstacle {
    Refused(Refusal),
    InTheWay { refusal: Refusal, page: usize },
}

impl From<Refusal> for Obstacle {
    ghost from_gives = { λ r o. o ≡ obstacle.Refused r };

    fn from(refusal: Refusal) -> Obstacle {
        Obstacle::Refused(refusal)
    }
}

// What stands between the gate and any look at the table: 43 and 52.
pub fn allow_token(busy: bool, complete: bool) -> Result<(), Refusal>
    ensures { code_of result ≡ first_of (token_asks busy complete) }
{
    if busy {
        return Err(Refusal::OperandBusy);
    }
    if !complete {
        return Err(Refusal::MemScanDcheckNotDone);
    }
    Ok(())
}

// The same told the code of the gate, for whoever holds that in place of a `Result`.
pub fn token_gate(gate: u64, busy: bool, complete: bool) -> u64
    ensures { result ≡ behind gate (token_asks busy complete) }
{
    told(gate, allow_token(busy, complete))
}

// What the token is by the table: `first53` is the lowest page that gives 53, and where there is none, `first54` the lowest that gives 54.
pub fn token_of(first53: Option<usize>, first54: Option<usize>) -> Result<(), Obstacle>
    ensures { token_of result ≡ token_found first53 first54 }
{
    match (first53, first54) {
        (Some(page), _) => Err(Obstacle::InTheWay {
            refusal: Refusal::ExportedDirtyPagesRemain,
            page,
        }),
        (None, Some(page)) => Err(Obstacle::InTheWay {
            refusal: Refusal::UnexportedMemoryRemains,
            page,
        }),
        (None, None) => Ok(()),
    }
}

// What the token is, in codes.
#[derive(Clone, Copy)]
pub enum Token {
    Granted,
    Refused { code: u64 },
    // The lowest page that is in the way.
    InTheWay { code: u64, page: usize },
}

// The same as `token_of` told a code, that of what stands before the table, and of `pages` pages where each search ended: at the page count where there is none.
#[tactic(auto, unfolding(crate::specs::Token::token_told))]
pub fn token_told(gate: u64, pages: usize, first53: usize, first54: usize) -> Token
    ensures { token_named result ≡ token_told gate pages first53 first54 }
{
    if gate != 0 {
        return Token::Refused { code: gate };
    }
    if first53 < pages {
        return Token::InTheWay {
            code: u64::from(Refusal::ExportedDirtyPagesRemain),
            page: first53,
        };
    }
    if first54 < pages {
        return Token::InTheWay {
            code: u64::from(Refusal::UnexportedMemoryRemains),
            page: first54,
        };
    }
    Token::Granted
}

// What a token that is granted changes in the session.
pub fn granted() -> Change
    ensures { result ≡ token_change Granted }
{
    Change::ToPhase { phase: Phase::Done }
}

// What the token is by its pages. None is looked for that gives 54 where one gives 53. A function of its own to the compiler too: put into its caller, whose other
// values take the registers, its loop has longer instructions and takes half as long again (docs/PERFORMANCE.md, 'Times').
#[inline(never)]
pub fn look<T: Form>(table: &[T::Unit]) -> Result<(), Obstacle>
    ensures { token_of result ≡ token_found (first_page gives53 (T.words table.now)) (first_page gives54 (T.words table.now)) }
{
    let first53 = table::find::<T>(table, Sought::Gives53);
    let first54 = match first53 {
        Some(_) => None,
        None => table::find::<T>(table, Sought::Gives54),
    };
    token_of(first53, first54)
}

pub fn start_token(s: Session, table: &[u64]) -> Result<Session, Obstacle>
    ensures value { token_answer_of s result ≡ token_out s table.now }
    ensures token_value { token_says (token_of result) ≡ record {
      code = token_code s table.now;
      page =
          in_the_way (token_code s table.now) table.now;
    } }
{
    session::gate(s, table.len(), When::Blackout)?;
    allow_token(session::is_busy(s), s.check.complete)?;
    look::<InWords>(table)?;
    Ok(changes::changed(s, granted()))
}
