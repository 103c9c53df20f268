// Lists of requests to a ladder. A line has the written count, the answer, and all slots of both tables.

use crate::printing::{Shown, Slots};
use floats::Function::{self, D, V};
use ladder_machine::Request;
use ladder_states::Ladder;
use std::io;

// A ladder and its tables.
#[derive(Drop)]
struct Session {
    ladder: Ladder,
    values: [f64; 6],
    derivatives: [f64; 5],
}

impl Session {
    // Each slot holds -2.5 before the first request.
    fn new() -> Self {
        Session {
            ladder: Ladder::empty(),
            values: [-2.5; 6],
            derivatives: [-2.5; 5],
        }
    }

    // One request. Function, order and argument stand apart, so that a call of it reads as its text does.
    fn line(
        &mut self,
        rt: &HostRuntime,
        text: &str,
        function: Function,
        v: f64,
        x: f64,
    ) -> io::Result<()> {
        let request = Request { function, v, x };
        let reply = ladder::request(
            self.ladder,
            request,
            &mut self.values,
            &mut self.derivatives,
        );
        self.ladder = reply.state;
        print!(rt; "{text}:")?;
        if let Ok(answered) = reply.answer {
            print!(rt; " {}", answered.written)?;
        }
        println!(rt;
            " {}{}{}",
            Shown(reply.answer.map(|answered| answered.pair)),
            Slots(&self.values),
            Slots(&self.derivatives)
        )
    }
}

// P11.
pub fn examples(rt: &HostRuntime) -> io::Result<()> {
    let mut session = Session::new();
    session.line(rt, "P11 D 2 0", D, 2.0, 0.0)?;
    session.line(rt, "P11 D 4 0", D, 4.0, 0.0)?;
    session.line(rt, "P11 D 4 0", D, 4.0, 0.0)?;
    session.line(rt, "P11 D 2 0", D, 2.0, 0.0)
}

// No climb from n = 1, where V's value 2 is not the recurrence's.
pub fn starts(rt: &HostRuntime) -> io::Result<()> {
    let mut session = Session::new();
    session.line(rt, "V -2^-60 1", V, -8.673617379884035e-19, 1.0)?;
    session.line(rt, "V -1 1", V, -1.0, 1.0)
}

// A climb after a refused request, and then P12's order, which has the n of order 1.
pub fn climbs(rt: &HostRuntime) -> io::Result<()> {
    let mut session = Session::new();
    session.line(rt, "V -1 1", V, -1.0, 1.0)?;
    session.line(rt, "V -6 1", V, -6.0, 1.0)?;
    session.line(rt, "V -4 1", V, -4.0, 1.0)?;
    session.line(rt, "D 1-2^-53 0.5", D, 0.9999999999999999, 0.5)
}
