//! Clients that come, and the places of those that are connected.
ghost use Rattle.std.specs.Prelude.{◌≡◌, ◌+◌, true, List, None, Some, IfOk, IfSome, All, get_or, slice_set, sum_by};
ghost use Rattle.mx_desk.specs.Clients.{Exchange, exchanges};
ghost use Rattle.mx_tasks.specs.Halls.{Always, Have, IsFree, Tends, asks, hall};
ghost use Rattle.mx_tasks.specs.Seats.{AreFresh, AreInTime, AreSeated, IsAfter, IsEnding, IsFresh, IsSeated, came_of, held_of, visitor_of, visitors_of};
ghost use Rattle.mx_tasks.specs.declared.serve.seat.Seat.{Seat};
ghost use Rattle.mx_tasks.specs.declared.serve.seat.Seat.TheVariants.{Taking};

use crate::serve::alarm::Alarm;
use crate::serve::connection::Connection;
use crate::serve::listener::{Listener, Ready};
use crate::serve::seat::{Answered, Asked, MOST_CLIENTS, Seat, Visitor};
use mx_desk::held::MOST_TOGETHER;
use std::alloc::{AllocError, Global};
use std::mem;
use std::time::{Duration, Instant};

/// How many events are looked at before a round ends.
const MOST_EVENTS: u32 = 1024;

/// How often it is looked for clients whose time is over, in milliseconds.
const BETWEEN_SWEEPS: u64 = 100;

/// How long is waited at most before it is looked for clients that have taken their answers, in milliseconds.
const AT_WORK: u64 = 1;

/// How long is waited at most where nobody is connected, in milliseconds.
const AT_REST: u64 = 1_000;

/// Where clients come, with the places of those that are connected, and the alarm that rings there when the store of the books
/// fails.
#[derive(Drop)]
pub struct Reception<L, S, V> {
    alloc: Global,
    /// Where they come from.
    pub listener: L,
    /// The alarm.
    pub alarm: Alarm<V>,
    /// Who is connected.
    places: Vec<Option<Seat<S>>>,
    /// The places that nobody has, also nobody who is attended to.
    free: Vec<usize>,
    /// The places of those who were told their answers in this round.
    told: Vec<usize>,
    /// The places of those who were told them in the round before.
    told_before: Vec<usize>,
    /// Whether clients may wait.
    may_come: bool,
    /// How many are to be taken.
    count: u64,
    /// How many were.
    taken: u64,
    /// How many connections have ended.
    ended: u64,
    /// When it was looked for clients whose time is over.
    swept: Option<Instant>,
}

impl<L: Drop, S: Drop, V: Drop> Reception<L, S, V> {
    /// A reception for so many clients, of whom none has come.
    pub fn new(
        alloc: Global,
        listener: L,
        alarm: Alarm<V>,
        count: u64,
    ) -> Result<Reception<L, S, V>, AllocError>
        ensures free { IfOk result (λ r. All IsFree r.places.items) }
        ensures listener { IfOk result (λ r. r.listener ≡ listener) }
        ensures alarm { IfOk result (λ r. r.alarm ≡ alarm) }
        ensures count { IfOk result (λ r. (r.count ≡ count) × (r.taken ≡ 0) × (r.ended ≡ 0)) }
    {
        let mut places = Vec::with_capacity(alloc, MOST_CLIENTS)?;
        let mut free = Vec::with_capacity(alloc, MOST_CLIENTS)?;
        'places: for place in 0..MOST_CLIENTS {
            places.push(None)?;
            free.push(MOST_CLIENTS - 1 - place)?;
        }
        Ok(Reception {
            alloc,
            listener,
            alarm,
            places,
            free,
            told: Vec::with_capacity(alloc, MOST_TOGETHER)?,
            told_before: Vec::with_capacity(alloc, MOST_TOGETHER)?,
            may_come: true,
            count,
            taken: 0,
            ended: 0,
            swept: None,
        })
    }

    /// Where clients came from.
    pub fn into_listener(self) -> L
        ensures { result ≡ self.listener }
    {
        self.listener
    }
}

impl<L, S: Drop, V> Reception<L, S, V> {
    /// Whether all were taken, and their connections have ended.
    pub fn is_done(&self) -> bool
        ensures { result ≡ true
            → (self.now.taken ≡ self.now.count) × (self.now.ended ≡ self.now.count) }
    {
        self.taken == self.count && self.ended == self.count
    }

    /// For how many clients it is.
    pub fn count(&self) -> u64
        ensures { result ≡ self.now.count }
    {
        self.count
    }

    /// How long is waited at most.
    pub fn patience(&self) -> Duration {
        if self.may_come && self.taken < self.count {
            Duration::from_millis(0)
        } else if self.taken == self.ended {
            Duration::from_millis(AT_REST)
        } else if !self.told.is_empty() || !self.told_before.is_empty() {
            Duration::from_millis(AT_WORK)
        } else {
            Duration::from_millis(BETWEEN_SWEEPS)
        }
    }
}

impl<S: Connection + Drop, L: Listener<S>, V> Reception<L, S, V> {
    /// Takes out who has a place.
    fn vacate(&mut self, place: usize) -> Option<Seat<S>>
        ensures rest { (self.new.listener ≡ self.old.listener)
            × (self.new.ended ≡ self.old.ended) × (self.new.taken ≡ self.old.taken)
            × (self.new.count ≡ self.old.count) × (self.new.alarm ≡ self.old.alarm) }
        ensures seats { (xs : List Exchange)
            → AreSeated S.received S.written xs self.old.places.items
            → IfSome result (IsSeated S.received S.written xs)
            × AreSeated S.received S.written xs self.new.places.items }
        ensures places { self.new.places.items ≡ slice_set self.old.places.items place None }
        ensures asking { sum_by asks self.new.places.items + asks result
            ≡ sum_by asks self.old.places.items }
    {
        match self.places.get_mut(place) {
            Some(seat) => seat.take(),
            None => None,
        }
    }

    /// Ends a connection.
    pub fn close(&mut self, seat: Seat<S>)
        ensures tends { Tends S.received S.written (λ xs. IsEnding S.received S.written xs seat)
            (asks (Some seat)) 0 (hall L.clients self.old) (hall L.clients self.new) }
        ensures places { self.new.places ≡ self.old.places }
        ensures quiet { self.new.alarm ≡ self.old.alarm }
    {
        self.listener.ended(seat.into_stream());
        self.ended = self.ended.saturating_add(1);
    }

    /// Ends the connection of a client, whose place is free then.
    pub fn leave(&mut self, place: usize, seat: Seat<S>)
        ensures tends { Tends S.received S.written (λ xs. IsEnding S.received S.written xs seat)
            (asks (Some seat)) 0 (hall L.clients self.old) (hall L.clients self.new) }
        ensures places { self.new.places ≡ self.old.places }
        ensures quiet { self.new.alarm ≡ self.old.alarm }
    {
        self.close(seat);
        let _ = self.free.push(place);
    }

    /// Ends the connection of whoever has a place, which is free then.
    fn clear(&mut self, place: usize)
        ensures tends { Tends S.received S.written Always 0 0
            (hall L.clients self.old) (hall L.clients self.new) }
        ensures places { self.new.places.items ≡ slice_set self.old.places.items place None }
        ensures quiet { self.new.alarm ≡ self.old.alarm }
    {
        if let Some(seat) = self.vacate(place) {
            self.leave(place, seat);
        }
    }

    /// Gives somebody a place, or ends the connection where somebody else has it.
    pub fn put(&mut self, place: usize, seat: Seat<S>)
        ensures tends { Tends S.received S.written (λ xs. IsSeated S.received S.written xs seat)
            (asks (Some seat)) 0 (hall L.clients self.old) (hall L.clients self.new) }
        ensures others { (other : Seat S)
            → get_or self.old.places.items place None ≡ Some other
            → self.new.places ≡ self.old.places }
        ensures quiet { self.new.alarm ≡ self.old.alarm }
    {
        if place < self.places.len() && self.places[place].is_none() {
            self.places[place] = Some(seat);
        } else {
            self.close(seat);
        }
    }

    /// Gives a client that was answered nothing yet a place until more comes of it.
    pub fn seat(&mut self, place: usize, visitor: Visitor<S>)
        ensures tends { Tends S.received S.written
            (λ _. IsFresh S.received S.written visitor) 1 0
            (hall L.clients self.old) (hall L.clients self.new) }
        ensures quiet { self.new.alarm ≡ self.old.alarm }
    {
        let mut visitor = visitor;
        if self.listener.watch(&mut visitor.stream, place) {
            self.put(place, Seat::Asking(visitor));
        } else {
            self.leave(place, Seat::Asking(visitor));
        }
    }

    /// Tells a client its answer. It isn't watched yet: most have taken the answer and ended the connection by the next look.
    fn tell_one(&mut self, place: usize, answered: Answered<S>, now: Instant, piece: &mut [u8])
        ensures tends { Tends S.received S.written
            (λ xs. IsSeated S.received S.written xs (Taking answered)) 0 0
            (hall L.clients self.old) (hall L.clients self.new) }
        ensures quiet { self.new.alarm ≡ self.old.alarm }
    {
        let mut answered = answered;
        if answered.advance(now, piece) {
            let _ = self.told.push(place);
            self.put(place, Seat::Taking(answered));
        } else {
            self.leave(place, Seat::Taking(answered));
        }
    }

    /// Gives a client that is answered its place until it takes more, or more comes of it.
    fn keep(&mut self, place: usize, answered: Answered<S>)
        ensures tends { Tends S.received S.written
            (λ xs. IsSeated S.received S.written xs (Taking answered)) 0 0
            (hall L.clients self.old) (hall L.clients self.new) }
        ensures quiet { self.new.alarm ≡ self.old.alarm }
    {
        let mut answered = answered;
        if self.listener.watch(&mut answered.stream, place) {
            self.put(place, Seat::Taking(answered));
        } else {
            self.leave(place, Seat::Taking(answered));
        }
    }

    /// Goes on with a client that is answered, and is watched from then on.
    fn tend(&mut self, place: usize, answered: Answered<S>, now: Instant, piece: &mut [u8])
        ensures tends { Tends S.received S.written
            (λ xs. IsSeated S.received S.written xs (Taking answered)) 0 0
            (hall L.clients self.old) (hall L.clients self.new) }
        ensures quiet { self.new.alarm ≡ self.old.alarm }
    {
        let mut answered = answered;
        if answered.advance(now, piece) {
            self.keep(place, answered);
        } else {
            self.leave(place, Seat::Taking(answered));
        }
    }

    /// The client whose connection is ended for another: the oldest of those that were answered nothing, or else of all.
    fn oldest(&self) -> Option<usize> {
        let mut oldest = None;
        let mut least: Option<(bool, Instant)> = None;
        'places: for place in 0..self.places.len() {
            let Some(seat) = &self.places[place] else {
                continue;
            };
            let age = seat.age();
            let is_less = match least {
                Some(other) => age < other,
                None => true,
            };
            if is_less {
                oldest = Some(place);
                least = Some(age);
            }
        }
        oldest
    }

    /// The place for the next client: a free one, or else one that is to be cleared for it. None where all are attended to.
    fn place_for_next(&self) -> Option<usize> {
        match self.free.last() {
            Some(place) => Some(*place),
            None => self.oldest(),
        }
    }

    /// The next client that has come, and its place. None where none waits, or all were taken.
    fn take_client(&mut self, now: Instant) -> Option<(usize, Visitor<S>)>
        ensures tends { Tends S.received S.written Always 0 (visitors_of result)
            (hall L.clients self.old) (hall L.clients self.new) }
        ensures fresh { IfSome result (λ p. IsFresh S.received S.written p.1) }
        ensures until { IfSome result (λ p. IsAfter now 10_000_000_000 p.1.until) }
        ensures quiet { self.new.alarm ≡ self.old.alarm }
    {
        if !self.may_come || self.count <= self.taken {
            return None;
        }
        let Some(place) = self.place_for_next() else {
            return None;
        };
        let Some(stream) = self.listener.accept(place) else {
            self.may_come = false;
            return None;
        };
        self.taken += 1;
        self.clear(place);
        let _ = self.free.pop();
        Some((place, Visitor::new(self.alloc, stream, now)))
    }

    /// Goes on with whoever has a place, or takes out a client that was answered nothing yet.
    fn turn_to(&mut self, place: usize, now: Instant, piece: &mut [u8]) -> Option<Visitor<S>>
        ensures tends { Tends S.received S.written Always 0 (visitor_of result)
            (hall L.clients self.old) (hall L.clients self.new) }
        ensures fresh { (xs : List Exchange)
            → AreSeated S.received S.written xs self.old.places.items
            → IfSome result (IsFresh S.received S.written) }
        ensures quiet { self.new.alarm ≡ self.old.alarm }
    {
        match self.vacate(place) {
            Some(Seat::Asking(visitor)) => Some(visitor),
            Some(Seat::Taking(answered)) => {
                self.tend(place, answered, now, piece);
                None
            }
            None => None,
        }
    }

    /// The next client that may have sent something and was answered nothing yet, and its place. It goes on with those before it
    /// that are answered. None where nothing is ready.
    pub fn next_visitor(&mut self, now: Instant, piece: &mut [u8]) -> Option<(usize, Visitor<S>)>
        ensures tends { Tends S.received S.written Always 0 (visitors_of result)
            (hall L.clients self.old) (hall L.clients self.new) }
        ensures fresh { (xs : List Exchange)
            → AreSeated S.received S.written xs self.old.places.items
            → IfSome result (λ p. IsFresh S.received S.written p.1) }
        ensures quiet { self.new.alarm ≡ self.old.alarm }
    {
        'events: for _ in 0..MOST_EVENTS {
            match self.listener.next() {
                Some(Ready::Clients) => self.may_come = true,
                Some(Ready::Place(place)) => {
                    if let Some(visitor) = self.turn_to(place, now, piece) {
                        return Some((place, visitor));
                    }
                }
                None => return self.take_client(now),
            }
        }
        None
    }

    /// Goes on with whoever has a place, if it is answered.
    fn look_at(&mut self, place: usize, now: Instant, piece: &mut [u8])
        ensures tends { Tends S.received S.written Always 0 0
            (hall L.clients self.old) (hall L.clients self.new) }
        ensures quiet { self.new.alarm ≡ self.old.alarm }
    {
        if let Some(visitor) = self.turn_to(place, now, piece) {
            self.put(place, Seat::Asking(visitor));
        }
    }

    /// Goes on with those who were told their answers in the round before the last one: a whole round has passed since.
    pub fn look_back(&mut self, now: Instant, piece: &mut [u8])
        ensures tends { Tends S.received S.written Always 0 0
            (hall L.clients self.old) (hall L.clients self.new) }
        ensures quiet { self.new.alarm ≡ self.old.alarm }
    {
        mem::swap(&mut self.told, &mut self.told_before);
        'told: for _ in 0..MOST_CLIENTS {
            let Some(place) = self.told.pop() else {
                return;
            };
            self.look_at(place, now, piece);
        }
    }

    /// Ends the connections of clients whose time is over.
    pub fn sweep(&mut self, now: Instant)
        ensures tends { Tends S.received S.written Always 0 0
            (hall L.clients self.old) (hall L.clients self.new) }
        ensures in_time { AreInTime now self.new.places.items }
        ensures quiet { self.new.alarm ≡ self.old.alarm }
    {
        'places: for place in 0..self.places.len() {
            let is_over = match &self.places[place] {
                Some(seat) => seat.is_over(now),
                None => false,
            };
            if is_over {
                self.clear(place);
            }
        }
    }

    /// Ends the connections of clients whose time is over, ten times a second, and lets a client be taken that couldn't be before.
    pub fn keep_time(&mut self, now: Instant)
        ensures tends { Tends S.received S.written Always 0 0
            (hall L.clients self.old) (hall L.clients self.new) }
        ensures quiet { self.new.alarm ≡ self.old.alarm }
    {
        if let Some(swept) = self.swept
            && now.duration_since(swept) < Duration::from_millis(BETWEEN_SWEEPS)
        {
            return;
        }
        self.swept = Some(now);
        self.may_come = true;
        self.sweep(now);
    }

    /// Tells clients their answers, once their round is settled and kept, or not.
    pub fn tell(&mut self, round: Vec<Asked<S>>, kept: bool, now: Instant, piece: &mut [u8])
        ensures tends { Tends S.received S.written
            (λ xs. AreFresh S.received S.written round.items
            × Have (exchanges kept (came_of round.items) (held_of round.items)) xs)
            0 0 (hall L.clients self.old) (hall L.clients self.new) }
        ensures quiet { self.new.alarm ≡ self.old.alarm }
    {
        'round: for asked in round {
            let place = asked.place;
            self.tell_one(place, Answered::new(asked, kept, now), now, piece);
        }
    }
}
