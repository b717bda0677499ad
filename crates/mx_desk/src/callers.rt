//! Whose tokens are, of those that the book was asked for.
ghost use Rattle.std.specs.Prelude.{◌≡◌, ◌⊎◌, [], Some, None, IfSome, slice_index_or};
ghost use Rattle.mx_book.specs.World.{World};
ghost use Rattle.mx_book.specs.Reads.{who_of};
ghost use Rattle.mx_desk.specs.Knows.{Knows, place, free_places, remembered, remembering};

use mx_book::values::Caller;
use mx_pay::token::same_token;
use mx_pay::{TOKEN_BYTES, Token};
use std::alloc::Global;
use std::marker::Model;

/// How many tokens are remembered at most: a prime, so that the place of a token goes by all of its bytes.
const PLACES: u128 = 1021;

/// Whose tokens are, of those that the book was asked for: no command takes a token away or gives it to another caller, so
/// the book need not be asked again. Each token has its place, from which it puts out the one before it. A contract sees
/// the places.
#[derive(Drop)]
pub struct Callers {
    places: Vec<Option<(Token, Caller)>>,
}

impl Model for Callers {
    ghost use Rattle.std.specs.Prelude.{List, Option};
    ghost use Rattle.mx_book.specs.World.{Token};
    ghost use Rattle.mx_book.specs.declared.values.Caller.{Caller};

    ghost Value = { List (Option (Token × Caller)) };

    ghost view = { λ c. c.places.items };
}

/// The place of a token: its bytes as one number, modulo how many places there are.
fn place_of(token: &Token) -> usize
    ensures { result ≡ place token.now }
{
    let mut bytes = [0u8; TOKEN_BYTES];
    bytes.copy_from_slice(token.as_bytes());
    (u128::from_be_bytes(bytes) % PLACES) as usize
}

impl Callers {
    /// No places, so that no token is ever remembered.
    pub fn none(alloc: Global) -> Callers
        ensures places { result ≡ [] }
        ensures knows { (w : World) → Knows w result }
    {
        Callers {
            places: Vec::new(alloc),
        }
    }

    /// Places for 1,021 tokens, each free, or no places where there is no memory for them.
    pub fn new(alloc: Global) -> Callers
        ensures places { (result ≡ free_places) ⊎ (result ≡ []) }
        ensures knows { (w : World) → Knows w result }
    {
        match Vec::from_elem(alloc, None, PLACES as usize) {
            Ok(places) => Callers { places },
            Err(_) => Callers::none(alloc),
        }
    }

    /// The token that is remembered at a place, and whose it is.
    fn at(&self, place: usize) -> Option<(Token, Caller)>
        ensures { result ≡ slice_index_or self.now place None }
    {
        match self.places.get(place) {
            Some(found) => *found,
            None => None,
        }
    }

    /// Whose token it is, where that is remembered: the last that was added at its place.
    pub fn find(&self, token: &Token) -> Option<Caller>
        ensures value { result ≡ remembered self.now token.now }
        ensures knows { (w : World) → Knows w self.now
            → IfSome result (λ caller. who_of w token.now ≡ Some caller) }
    {
        let (known, caller) = self.at(place_of(token))?;
        if same_token(&known, token) {
            Some(caller)
        } else {
            None
        }
    }

    /// Remembers whose token it is, where there are places.
    pub fn add(&mut self, token: &Token, caller: &Caller)
        ensures places { self.new ≡ remembering self.old token.now caller.now }
        ensures knows { (w : World) → Knows w self.old → who_of w token.now ≡ Some caller.now
            → Knows w self.new }
    {
        let place = place_of(token);
        if place < self.places.len() {
            self.places[place] = Some((*token, *caller));
        }
    }
}
