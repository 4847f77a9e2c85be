ghost use Rattle.std.specs.Prelude.{◌≡◌, ◌≤◌, ◌<◌, [], ◌∷◌, ◌++◌, length, map, All, IfOk, IsSome, Some};
ghost use Rattle.std.specs.Option.{option_copied};
ghost use Rattle.var_trace.specs.Session.{answers_of};
ghost use Rattle.svc_core.specs.declared.point.Point.TheVariants.{Start};
ghost use Rattle.svc_core.specs.Progress.{answered_at, call_at, most_calls, point_at, with_answer, with_point};
ghost use Rattle.svc_core.specs.Progress.{starting};

use crate::calls::Calls;
use crate::point::Point;
use crate::seat::{Seat, Seats};
use std::alloc::Global;
use std::marker::Model;
use var_trace::{Answers, Change, Session, Trace};
use var_types::{Answered, Call, OutOfMemory, Reply, Route};

/// The session so far, and where each processor stands.
#[derive(Drop)]
pub(crate) struct Progress {
    session: Session,
    seats: Seats,
}

impl Model for Progress {
    ghost use Rattle.svc_core.specs.Progress.{AreSeated, ProgressState, seated};

    ghost Value = { ProgressState };

    ghost view = { λ g. record { log = g.session.entries.log; limit = g.session.entries.limit; processors = seated g.seats g.session.processors } };

    ghost invariant = { λ g. AreSeated g.seats g.session.processors };
}

impl Progress {
    /// No change, and each processor at the start of its first call.
    pub(crate) fn begin(
        alloc: Global,
        calls: Vec<Vec<Call>>,
        limit: u64,
    ) -> Result<Progress, OutOfMemory>
        requires { All (λ v. length v.items ≤ most_calls) calls.items }
        ensures { IfOk result (λ g. g ≡ record { log = []; limit = limit; processors = map (λ v. starting v.items) calls.items }) }
    {
        let entries = Trace::with_room(alloc, limit)?;
        let mut processors = Vec::with_capacity(alloc, calls.len())?;
        let mut seats = Vec::with_capacity(alloc, calls.len())?;
        for calls in calls {
            processors.push(Answers::with_room(alloc, calls.len() as u64)?)?;
            seats.push(Seat {
                calls: Calls::new(calls),
                point: Point::Start,
            })?;
        }
        Ok(Progress {
            session: Session {
                entries,
                processors,
            },
            seats: Seats::new(seats),
        })
    }

    /// The session so far, which lies in one piece.
    pub(crate) fn session(&self) -> &Session
        ensures log { result.now.entries ≡ record { log = self.now.log; limit = self.now.limit } }
        ensures answers { answers_of result.now ≡ map (λ a. a.answered) self.now.processors }
    {
        &self.session
    }

    pub(crate) fn into_session(self) -> Session
        ensures log { result.entries ≡ record { log = self.log; limit = self.limit } }
        ensures answers { answers_of result ≡ map (λ a. a.answered) self.processors }
    {
        self.session
    }

    pub(crate) fn made(&self) -> u64
        ensures made { result ≡ length self.now.log }
    {
        self.session.made()
    }

    pub(crate) fn len(&self) -> usize
        ensures { result ≡ length self.now.processors }
    {
        self.seats.len()
    }

    /// The point of a processor.
    pub(crate) fn point(&self, p: usize) -> &Point
        requires { p < length self.now.processors }
        ensures { point_at self.now.processors p ≡ Some result.now }
    {
        self.seats.point(p)
    }

    /// The first call that a processor has not answered.
    pub(crate) fn call(&self, p: usize) -> Option<&Call>
        requires { p < length self.now.processors }
        ensures { option_copied result ≡ call_at self.now.processors p }
    {
        self.seats.call(p)
    }

    /// How many calls a processor has answered.
    pub(crate) fn index(&self, p: usize) -> u32
        requires { p < length self.now.processors }
        ensures { result ≡ answered_at self.now.processors p }
    {
        self.session.answered(p).len() as u32
    }

    /// Takes the point of a processor, which is the start of a call until another is put.
    pub(crate) fn take_point(&mut self, p: usize) -> Point
        requires { p < length self.old.processors }
        ensures point { point_at self.old.processors p ≡ Some result }
        ensures rest { self.new ≡ record self.old { processors = with_point self.old.processors p Start } }
    {
        self.seats.swap(p, Point::Start)
    }

    pub(crate) fn put_point(&mut self, p: usize, point: Point)
        requires { p < length self.old.processors }
        ensures { self.new ≡ record self.old { processors = with_point self.old.processors p point } }
    {
        self.seats.swap(p, point);
    }

    /// Answers the first call of a processor; takes no memory.
    pub(crate) fn answer(&mut self, p: usize, place: u64, route: Route, reply: Reply)
        requires within { p < length self.old.processors }
        requires some { IsSome (call_at self.old.processors p) }
        ensures { self.new ≡ record self.old { processors = with_answer self.old.processors p place route reply } }
    {
        let call = self.seats.take_call(p).unwrap();
        let answered = Answered {
            call,
            place,
            route,
            reply,
        };
        self.session.answer(p, answered);
    }

    /// Records a change; takes no memory.
    pub(crate) fn push_change(&mut self, change: Change)
        requires { length self.old.log < self.old.limit }
        ensures { self.new ≡ record self.old { log = self.old.log ++ change ∷ [] } }
    {
        self.session.push(change);
    }
}
