//! The law of statements.
ghost use Rattle.std.specs.Prelude.{◌≡◌, List, Some};
ghost use Rattle.std.specs.FinMap.{get};
ghost use Rattle.mx_book.specs.World.{Holding, Name, Row, Token, World, opening};
ghost use Rattle.mx_office.specs.Isolation.{Event, Holdings, local, view};
ghost use Rattle.mx_office.specs.Reachable.{IsReachable};
ghost use Rattle.mx_office.specs.Statement.{IsStated, balance_at_end, items_in, items_over, items_seen, statement_of};
ghost use Rattle.mx_command.specs.Commands.{Asked};
ghost use Rattle.mx_office.specs.Step.{own_holding, steps};

/// The law of statements: the lines of each purse tell how it came by its balance.
///
/// - `stated`: in every World that commands lead to, the lines of each purse are numbered from 1, the balance of each
///   is what the lines up to it come to, and the balance of the purse is that of its last line, 0 where it has none.
/// - `seen`: after any commands from a World that has nothing but an operator's token, the lines of a holder's purse are
///   the statement of what the holder saw, and its balance is the last on it.
/// - `written`: what the lines of a purse tell after any view, of any holdings, is what they told before and what the
///   events write, each by itself: a kind, an amount, and a reference or the details of a payment.
///
/// The call does nothing.
pub fn statements()
    ensures stated { (w : World) (p : Name) (r : Row) → IsReachable w → get w.rows p ≡ Some r
        → IsStated r.holding }
    ensures seen { (t : Token) (list : List Asked) (h p : Name) (a : Holding)
        → own_holding (steps (opening t) list).end h p ≡ Some a
        → (a.lines ≡ statement_of (view h (opening t) list) p)
        × (a.purse.balance ≡ balance_at_end 0 (items_seen (view h (opening t) list) p)) }
    ensures written { (m : Holdings) (view : List Event) (p : Name)
        → items_in (local m view).end p ≡ items_over m view p (items_in m p) }
{}
