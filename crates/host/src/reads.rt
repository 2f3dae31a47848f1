// Whether the lent bytes are what they should be: session and table in their layouts, lists and buffers in words.
ghost use Rattle.std.specs.Prelude.{◌≡◌, not, [], ◌∷◌};
ghost use Rattle.words.specs.Codes as codes;
ghost use Rattle.refusals.specs.Refusals.{◌gives◌, first_of, code_of};
ghost use Rattle.host.specs.Host.{is_table, is_list};
ghost use Rattle.host.specs.Inside.{sound};

use refusals::Refusal;
use session::streams::MOST_ENTRIES;
use wire::sessions;
use wire::sessions::SESSION_BYTES;

pub fn is_table(len: usize) -> bool
    ensures { result ≡ is_table len }
{
    let legal = table::is_legal(len / 8);
    (len % 8 == 0) & legal
}

// Past 40: session and table are in their layouts, and the session is well-formed. It is read where it lies.
pub fn is_sound(session: &[u8], len: usize) -> bool
    ensures { result ≡ sound session.now len }
{
    let table = is_table(len);
    let Some(session) = session.as_array() else {
        return false;
    };
    let formed = sessions::is_formed(session, len / 8);
    table & formed
}

// 40 of what is not sound.
pub fn allow_lent(session: &[u8; SESSION_BYTES], len: usize) -> Result<(), Refusal>
    ensures { code_of result ≡ first_of (not (sound session.now len) gives codes.malformed ∷ []) }
{
    if !is_sound(session, len) {
        return Err(Refusal::Malformed);
    }
    Ok(())
}

// Whole words, 512 at most.
pub fn is_list(len: usize) -> bool
    ensures { result ≡ is_list len }
{
    (len % 8 == 0) & (len <= 8 * MOST_ENTRIES)
}
