// What a line asks for.
use calls::Call;
use migration::Alone;
use page::moves::Move;
use page::sweeps::Sweep;
use session::Phase;
use session::streams::Interruption;

// How many numbers an order has at most.
pub(crate) const NUMBERS: usize = 5;

// The spaces of words, the first words of which are lent to a call.
#[derive(Clone, Copy)]
pub(crate) enum SpaceName {
    Table,
    List,
    Buffer,
}

// What the host sets in the session, of which it can set any field to any value.
#[derive(Clone, Copy)]
pub(crate) enum Setting {
    Phase(Phase),
    Pages(usize),
    Tlb(u64),
    Epoch(u64),
    Created(u64),
    Place(usize),
    Complete(bool),
    Failed(bool),
    Stream(u64, Option<Interruption>),
}

#[derive(Clone, Copy)]
pub(crate) enum Order {
    Nothing,
    Call(Call),
    Set(Setting),
    // So many words of a space are lent from now on, if it has so many.
    Lend(SpaceName, usize),
    Put {
        space: SpaceName,
        at: usize,
        word: u64,
    },
    // Shows the words of a space from one on and before another.
    Show {
        space: SpaceName,
        from: usize,
        to: usize,
    },
}

fn on_page(page: u64, made: Move) -> Order {
    let page = page as usize;
    Order::Call(Call::OnPage { page, made })
}

fn on_all(sweep: Sweep) -> Order {
    Order::Call(Call::OnAll { sweep })
}

fn on_session(alone: Alone) -> Order {
    Order::Call(Call::OnSession { alone })
}

fn lend(space: SpaceName, count: u64) -> Order {
    Order::Lend(space, count as usize)
}

fn put(space: SpaceName, at: u64, word: u64) -> Order {
    let at = at as usize;
    Order::Put { space, at, word }
}

fn show(space: SpaceName, from: u64, to: u64) -> Order {
    let from = from as usize;
    let to = to as usize;
    Order::Show { space, from, to }
}

impl Order {
    // What a word asks for, with the numbers behind it.
    pub(crate) fn of(word: &str, numbers: [u64; NUMBERS]) -> Option<Order> {
        let [a, b, c, d, e] = numbers;
        Some(match word {
            "" => Order::Nothing,
            "new" => Order::Call(Call::New { created: a }),
            "write" => on_page(a, Move::Write { mark: b }),
            "add" => on_page(a, Move::Add),
            "accept" => on_page(a, Move::Accept),
            "block" => on_page(a, Move::Block),
            "unblock" => on_page(a, Move::Unblock),
            "remove" => on_page(a, Move::Remove),
            "track" => on_all(Sweep::Track),
            "start" => on_all(Sweep::Start),
            "pause" => on_all(Sweep::Pause),
            "abort" => on_session(Alone::Abort),
            "newepoch" => on_session(Alone::NewEpoch),
            "dscan" => Order::Call(Call::Dscan {
                first: a as usize,
                count: b as usize,
                budget: c as usize,
            }),
            "dcheck" => Order::Call(Call::Dcheck { budget: a as usize }),
            "reset" => on_session(Alone::Reset),
            "export" => Order::Call(Call::Export {
                stream: a,
                resume: b != 0,
                info: c,
                budget: d,
            }),
            "restore" => Order::Call(Call::Restore { info: a, budget: b }),
            "token" => Order::Call(Call::StartToken),
            "phase" => Order::Set(Setting::Phase(Phase::try_from(a).unwrap_or(Phase::Done))),
            "pages" => Order::Set(Setting::Pages(a as usize)),
            "tlb" => Order::Set(Setting::Tlb(a)),
            "epoch" => Order::Set(Setting::Epoch(a)),
            "created" => Order::Set(Setting::Created(a)),
            "place" => Order::Set(Setting::Place(a as usize)),
            "complete" => Order::Set(Setting::Complete(a != 0)),
            "failed" => Order::Set(Setting::Failed(a != 0)),
            "stream" => {
                let work = Interruption {
                    next: b,
                    last: c,
                    errors: d,
                    filled: e,
                };
                Order::Set(Setting::Stream(a, Some(work)))
            }
            "rest" => Order::Set(Setting::Stream(a, None)),
            "lend" => lend(SpaceName::Table, a),
            "list" => lend(SpaceName::List, a),
            "buffer" => lend(SpaceName::Buffer, a),
            "word" => put(SpaceName::Table, a, b),
            "entry" => put(SpaceName::List, a, b),
            "content" => put(SpaceName::Buffer, a, b),
            "show" => show(SpaceName::Table, a, b),
            "listed" => show(SpaceName::List, a, b),
            "sent" => show(SpaceName::Buffer, a, b),
            _ => return None,
        })
    }
}
