// What the functions for C hosts do with the bytes that they are lent, of the calls that take a list. Entries and pages are taken where they lie.

#![tactic(auto)]

ghost use Rattle.std.specs.Prelude.{◌≡◌, not, [], ◌∷◌};
ghost use Rattle.words.specs.Codes as codes;
ghost use Rattle.refusals.specs.Refusals.{◌gives◌, first_of, code_of};
ghost use Rattle.session.specs.Session.{phases_of};
ghost use Rattle.session.specs.Formed.{phase_tests};
ghost use Rattle.entry.specs.Entry.{ground_of};
ghost use Rattle.wire.specs.Bytes.{words_of};
ghost use Rattle.wire.specs.Sessions.{session_of};

use entry::Ground;
use refusals::Refusal;
use session::{Phase, When};
use wire::sessions;
use wire::sessions::SESSION_BYTES;

pub mod exports;
pub mod restores;
pub mod scans;

// Past 40: 41 of a call that comes in these phases; then 42, of a list, a buffer or a resume that is none.
fn gate(phase: Phase, when: When, words: bool) -> Result<(), Refusal>
    ensures { code_of result ≡ first_of (phase_tests phase (phases_of when) (not words gives codes.operand_invalid ∷ [])) }
{
    session::allow_phase(phase, when)?;
    if !words {
        return Err(Refusal::OperandInvalid);
    }
    Ok(())
}

// What the entries of a list are taken on.
fn ground_at(session: &[u8; SESSION_BYTES]) -> Ground
    ensures { result ≡ ground_of (session_of (words_of session.now)) }
{
    Ground {
        phase: sessions::phase_at(session),
        clock: sessions::clock_at(session),
        epoch: sessions::epoch_at(session),
        pages: sessions::pages_at(session) as u64,
    }
}
