// Export: each entry is taken where it lies, with the sixteen bytes of its page, and of the session the stream's words are written.
ghost use Rattle.std.specs.Prelude.{◌≡◌, true, ◌&&◌, eqb, leb, length};
ghost use Rattle.refusals.specs.Refusals.{code_of};
ghost use Rattle.calls.specs.declared.Call.TheVariants.{Export};
ghost use Rattle.host.specs.Host.{Lent, lent_all, Left, host_of, is_list};
ghost use Rattle.host.specs.Inside.{sound};
ghost use Rattle.host_lists.specs.Inside.{export_gate, export_numbers};

use host::reads;
use in_place::runs;
use lists::Kind;
use refusals::{Ending, Refusal};
use session::When;
use session::changes::Change;
use wire::sessions;
use wire::sessions::SESSION_BYTES;
use words::infos::Info;

// What an export tells that is not refused; what its stream does is in the session's bytes.
#[derive(Clone, Copy)]
pub struct Sent {
    pub ending: Ending,
    pub info: u64,
    pub errors: u64,
    pub buffers: u64,
}

// Past 40: 41, and 42 of what is no list, no buffer or no resume.
fn gate_at(
    session: &[u8; SESSION_BYTES],
    list: usize,
    buffer: usize,
    resume: u64,
) -> Result<(), Refusal>
    ensures { code_of result ≡ export_gate session.now (is_list list && is_list buffer && leb resume 1) }
{
    let listed = reads::is_list(list);
    let sent = reads::is_list(buffer);
    crate::gate(
        sessions::phase_at(session),
        When::Moving,
        listed & sent & (resume <= 1),
    )
}

// Past 40. The parameters are C's, in C's order, here and in `export`.
fn export_sound(
    session: &mut [u8; SESSION_BYTES],
    table: &mut [u8],
    list: &mut [u8],
    buffer: &mut [u8],
    stream: u64,
    resume: u64,
    info: u64,
    budget: u64,
) -> Result<Sent, Refusal>
    requires { sound session.old (length table.old) ≡ true }
    ensures value { export_numbers result ≡ (host_of (Export stream (eqb resume 1) info budget)
        (lent_all session.old table.old list.old buffer.old resume)).answer }
    ensures session_after { session.new ≡ (host_of (Export stream (eqb resume 1) info budget)
        (lent_all session.old table.old list.old buffer.old resume)).session }
    ensures table_after { table.new ≡ (host_of (Export stream (eqb resume 1) info budget)
        (lent_all session.old table.old list.old buffer.old resume)).table }
    ensures list_after { list.new ≡ (host_of (Export stream (eqb resume 1) info budget)
        (lent_all session.old table.old list.old buffer.old resume)).list }
    ensures buffer_after { buffer.new ≡ (host_of (Export stream (eqb resume 1) info budget)
        (lent_all session.old table.old list.old buffer.old resume)).buffer }
{
    gate_at(session, list.len(), buffer.len(), resume)?;
    let x = Info::from(info);
    let work = sessions::work_at(session, stream);
    export::allow_export(
        sessions::created_at(session),
        work,
        list.len() / 8,
        buffer.len() / 8,
        stream,
        resume == 1,
        x,
    )?;
    let g = crate::ground_at(session);
    let from = export::begin(work);
    let at = runs::run_entries(table, list, buffer, from, x.last, budget, Kind::Export, g);
    let ended = export::end(x, at);
    let after = ended.work;
    sessions::put_change(
        session,
        Change::ToWork {
            stream,
            work: after,
        },
    );
    Ok(Sent {
        ending: ended.ending,
        info: ended.info,
        errors: ended.errors,
        buffers: ended.buffers,
    })
}

pub fn export(
    session: &mut [u8],
    table: &mut [u8],
    list: &mut [u8],
    buffer: &mut [u8],
    stream: u64,
    resume: u64,
    info: u64,
    budget: u64,
) -> Result<Sent, Refusal>
    ensures value { export_numbers result ≡ (host_of (Export stream (eqb resume 1) info budget)
        (lent_all session.old table.old list.old buffer.old resume)).answer }
    ensures session_after { session.new ≡ (host_of (Export stream (eqb resume 1) info budget)
        (lent_all session.old table.old list.old buffer.old resume)).session }
    ensures table_after { table.new ≡ (host_of (Export stream (eqb resume 1) info budget)
        (lent_all session.old table.old list.old buffer.old resume)).table }
    ensures list_after { list.new ≡ (host_of (Export stream (eqb resume 1) info budget)
        (lent_all session.old table.old list.old buffer.old resume)).list }
    ensures buffer_after { buffer.new ≡ (host_of (Export stream (eqb resume 1) info budget)
        (lent_all session.old table.old list.old buffer.old resume)).buffer }
{
    let session = session.as_mut_array().ok_or(Refusal::Malformed)?;
    reads::allow_lent(session, table.len())?;
    export_sound(session, table, list, buffer, stream, resume, info, budget)
}
