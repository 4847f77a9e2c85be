ghost use Rattle.std.specs.Prelude.{◌≡◌, ◌<◌, length, Some};
ghost use Rattle.std.specs.Option.{option_copied};
ghost use Rattle.svc_core.specs.Progress.{call_of_seat, seat_at, set_point, with_calls};

use crate::calls::Calls;
use crate::point::Point;
use std::marker::Model;
use std::mem;
use var_types::Call;

/// Where a processor stands: the calls that it has not answered, and its point in the first of them.
#[derive(Drop)]
pub(crate) struct Seat {
    pub(crate) calls: Calls,
    pub(crate) point: Point,
}

/// The seats of all processors.
#[derive(Drop)]
pub(crate) struct Seats {
    items: Vec<Seat>,
}

impl Model for Seats {
    ghost use Rattle.std.specs.Prelude.{List};
    ghost use Rattle.svc_core.specs.declared.seat.Seat.{Seat};

    ghost Value = { List Seat };

    ghost view = { λ s. s.items.items };
}

impl Seats {
    pub(crate) fn new(items: Vec<Seat>) -> Seats
        ensures { result ≡ items.items }
    {
        Seats { items }
    }

    pub(crate) fn len(&self) -> usize
        ensures { result ≡ length self.now }
    {
        self.items.len()
    }

    pub(crate) fn point(&self, p: usize) -> &Point
        requires { p < length self.now }
        ensures { seat_at self.now p ≡ Some result.now }
    {
        point_of(&self.items, p)
    }

    /// The first call that a processor has not answered.
    pub(crate) fn call(&self, p: usize) -> Option<&Call>
        requires { p < length self.now }
        ensures { option_copied result ≡ call_of_seat self.now p }
    {
        call_of(&self.items, p)
    }

    /// Puts a point in the place of a processor's.
    pub(crate) fn swap(&mut self, p: usize, point: Point) -> Point
        requires { p < length self.old }
        ensures seats { self.new ≡ set_point self.old p point }
        ensures point { seat_at self.old p ≡ Some result }
    {
        swap_point(&mut self.items, p, point)
    }

    /// Takes a processor's first call, if it has one.
    pub(crate) fn take_call(&mut self, p: usize) -> Option<Call>
        requires { p < length self.old }
        ensures seats { self.new ≡ with_calls self.old p }
        ensures call { result ≡ call_of_seat self.old p }
    {
        take_call(&mut self.items, p)
    }
}

fn point_of(seats: &[Seat], p: usize) -> &Point
    requires { p < length seats.now }
    ensures { seat_at seats.now p ≡ Some result.now }
{
    &seats[p].point
}

fn call_of(seats: &[Seat], p: usize) -> Option<&Call>
    requires { p < length seats.now }
    ensures { option_copied result ≡ call_of_seat seats.now p }
{
    seats[p].calls.first()
}

fn swap_point(seats: &mut [Seat], p: usize, point: Point) -> Point
    requires { p < length seats.old }
    ensures seats { seats.new ≡ set_point seats.old p point }
    ensures point { seat_at seats.old p ≡ Some result }
{
    let seat = &mut seats[p];
    mem::replace(&mut seat.point, point)
}

fn take_call(seats: &mut [Seat], p: usize) -> Option<Call>
    requires { p < length seats.old }
    ensures seats { seats.new ≡ with_calls seats.old p }
    ensures call { result ≡ call_of_seat seats.old p }
{
    let seat = &mut seats[p];
    seat.calls.take()
}
