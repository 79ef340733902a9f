// What the answer to an order shows.
ghost use Rattle.dialogue.specs.Printed.{ShownSo};

use command::commands::Order;

#[derive(Clone, Copy)]
pub enum Showing {
    Nothing,
    // The time that a move came to.
    Time,
    // The number of a break.
    Number,
    Place,
    Registers,
    // Words, from an address on.
    Words(u64),
    Outs,
}

impl Showing {
    #[tactic(auto, using(crate::proofs::Turns::forward_so, crate::proofs::Turns::back_so, crate::proofs::Turns::run_so, crate::proofs::Turns::rerun_so, crate::proofs::Turns::changer_so, crate::proofs::Turns::break_so, crate::proofs::Turns::drop_so, crate::proofs::Turns::where_so, crate::proofs::Turns::registers_so, crate::proofs::Turns::words_so, crate::proofs::Turns::outs_so))]
    pub fn of(order: Order) -> Showing
        ensures { ShownSo order result }
    {
        match order {
            Order::Forward(_)
            | Order::Back(_)
            | Order::Run(_)
            | Order::Rerun(_)
            | Order::Changer(_) => Showing::Time,
            Order::Break(_) => Showing::Number,
            Order::Drop(_) => Showing::Nothing,
            Order::Where => Showing::Place,
            Order::Registers => Showing::Registers,
            Order::Words { from, .. } => Showing::Words(from),
            Order::Outs { .. } => Showing::Outs,
        }
    }
}
