//! The law of the Worlds that commands lead to.
ghost use Rattle.mx_book.specs.Conditions.{IsWorld};
ghost use Rattle.mx_book.specs.World.{World};
ghost use Rattle.mx_book.specs.declared.values.Caller.{Caller};
ghost use Rattle.mx_command.specs.Commands.{IsCaller, IsCommand};
ghost use Rattle.mx_office.specs.Reachable.{IsReachable};
ghost use Rattle.mx_office.specs.Step.{step};
ghost use Rattle.mx_command.specs.declared.values.Command.{Command};

/// The Worlds that commands lead to: what they are, and that commands lead from one to another.
///
/// The commands are values, and so are those who ask: each name is the text of a name, each amount is at most 10^12,
/// each number at most 10^15, and each token has 16 bytes. They start from a World that has nothing but an operator's
/// token, of 16 bytes too.
///
/// - `world`: a World that commands lead to meets all the conditions of a World.
/// - `goes_on`: one command more leads to such a World again.
///
/// The call does nothing.
pub fn reachable()
    ensures world { (w : World) → IsReachable w → IsWorld w }
    ensures goes_on { (w : World) (caller : Caller) (command : Command) → IsCaller caller
        → IsCommand command → IsReachable w → IsReachable (step w caller command).world }
{}
