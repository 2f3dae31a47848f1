// The bench that a scenario plays on: a session, and spaces of words, the first of which are lent as the table, the list and the buffer.
use crate::orders::{Order, Setting, SpaceName};
use crate::show;
use crate::spaces::Space;
use calls::{Call, Returned};
use session::{Session, streams};
use std::alloc::{AllocError, Global};
use std::io::{self, Write};

// Two words more than a table may have, so that one too long can be lent.
const TABLE_SPACE: usize = 2 * table::MOST_PAGES + 2;

// Two more than the longest list has, for lists and for buffers.
const LIST_SPACE: usize = streams::MOST_ENTRIES + 2;

#[derive(Drop)]
pub(crate) struct Bench {
    session: Session,
    table: Space,
    list: Space,
    buffer: Space,
}

impl Bench {
    // The bench that a scenario begins with, all zeros.
    pub(crate) fn new(alloc: Global) -> Result<Bench, AllocError> {
        let mut session = session::new_session(0, 0);
        session.clock.tlb = 0;
        Ok(Bench {
            session,
            table: Space::new(alloc, TABLE_SPACE)?,
            list: Space::new(alloc, LIST_SPACE)?,
            buffer: Space::new(alloc, LIST_SPACE)?,
        })
    }

    fn space(&mut self, name: SpaceName) -> &mut Space {
        match name {
            SpaceName::Table => &mut self.table,
            SpaceName::List => &mut self.list,
            SpaceName::Buffer => &mut self.buffer,
        }
    }

    // Makes a call on the words that are lent.
    fn make(&mut self, call: Call) -> Returned {
        let returned = calls::perform(
            call,
            self.session,
            self.table.lent(),
            self.list.lent(),
            self.buffer.lent(),
        );
        self.session = returned.session;
        returned
    }

    // The host's hand on what is the host's to keep.
    fn set(&mut self, setting: Setting) {
        let session = &mut self.session;
        match setting {
            Setting::Phase(phase) => session.phase = phase,
            Setting::Pages(pages) => session.fixed.pages = pages,
            Setting::Tlb(tlb) => session.clock.tlb = tlb,
            Setting::Epoch(epoch) => session.epoch = epoch,
            Setting::Created(created) => session.fixed.created = created,
            Setting::Place(place) => session.check.place = place,
            Setting::Complete(complete) => session.check.complete = complete,
            Setting::Failed(failed) => session.check.failed = failed,
            Setting::Stream(at, work) => *session = streams::with_work(*session, at, work),
        }
    }

    // Does what a line asks for, if that can be read, and prints what there is to say of it.
    pub(crate) fn obey(&mut self, out: &mut impl Write, order: Option<Order>) -> io::Result<()> {
        match order {
            None => writeln!(out, "unreadable")?,
            Some(Order::Nothing) => {}
            Some(Order::Call(call)) => {
                let returned = self.make(call);
                show::returned(out, &returned)?;
                let table = self.table.digest();
                let list = self.list.digest();
                let buffer = self.buffer.digest();
                writeln!(out, " table {table} list {list} buffer {buffer}")?;
            }
            Some(Order::Set(setting)) => self.set(setting),
            Some(Order::Lend(space, count)) => self.space(space).lend(count),
            Some(Order::Put { space, at, word }) => self.space(space).put(at, word),
            Some(Order::Show { space, from, to }) => self.space(space).show(out, from, to)?,
        }
        Ok(())
    }
}
