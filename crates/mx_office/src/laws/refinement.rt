//! The law of refinement.
ghost use Rattle.std.specs.Prelude.{List};
ghost use Rattle.mx_book.specs.World.{Token, World, opening};
ghost use Rattle.mx_book.specs.declared.values.Caller.{Caller};
ghost use Rattle.mx_office.specs.Abstract.{AccountsFor, ChosenLost, Refines, RefinesFromNone, Simulates};
ghost use Rattle.mx_office.specs.Reachable.{IsReachable};
ghost use Rattle.mx_command.specs.Commands.{Asked};
ghost use Rattle.mx_office.specs.Step.{steps};
ghost use Rattle.mx_command.specs.declared.values.Command.{Command};

/// Refinement (PRG-126: the backward simulation): what the office does is what the abstract purses do, in which a
/// payment is one operation that succeeds or loses its value.
///
/// - `steps`: one command of any caller in a World that commands lead to is one operation.
/// - `goes_on`: commands in order from such a World are operations in order.
/// - `runs`: commands from a World that has nothing but an operator's token are operations from no purses.
/// - `accounted`: whatever is chosen, the abstract purses have and have lost what the purses hold, what is under way and
///   what is lost.
///
/// Each holds for every choice of losses at the end. The call does nothing.
pub fn refinement()
    ensures steps { (w : World) (caller : Caller) (command : Command) (chosen : ChosenLost)
        → IsReachable w → Simulates w caller command chosen }
    ensures goes_on { (w : World) (commands : List Asked)
        → IsReachable w → Refines w commands (steps w commands).end }
    ensures runs { (operator : Token) (commands : List Asked)
        → RefinesFromNone operator commands (steps (opening operator) commands).end }
    ensures accounted { (w : World) (chosen : ChosenLost) → IsReachable w → AccountsFor w chosen }
{}
