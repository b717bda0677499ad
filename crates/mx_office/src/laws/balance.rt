//! The members' balance equation.
ghost use Rattle.mx_book.specs.World.{World};
ghost use Rattle.mx_office.specs.Balance.{AreTogether, IsBalanced};
ghost use Rattle.mx_office.specs.Reachable.{IsReachable};

/// The members' balance equation: in every World that commands lead to, what a member has is what the member was
/// granted and what the member's purses redeemed.
///
/// What a member has is the float, the redemptions of the member's purses that aren't collected, and the loads that
/// were issued to the member's purses. The same holds of any choice of members together, and so of the whole scheme.
///
/// - `reachable`: a World is balanced where some commands that are values, whoever asked, lead to it from one that has
///   nothing but an operator's token.
/// - `together`: in such a World each sum of the scheme that its members have too is what theirs come to: grants, floats,
///   what isn't collected, loads, redemptions and balances.
///
/// The call does nothing.
pub fn balance()
    ensures reachable { (w : World) → IsReachable w → IsBalanced w }
    ensures together { (w : World) → IsReachable w → AreTogether w }
{}
