//! The law of isolation.
ghost use Rattle.std.specs.List.{AllByRecursion};
ghost use Rattle.std.specs.Prelude.{◌≡◌, List};
ghost use Rattle.mx_book.specs.World.{World, Name};
ghost use Rattle.mx_book.specs.declared.values.Caller.{Caller};
ghost use Rattle.mx_command.specs.declared.values.Command.{Command};
ghost use Rattle.mx_command.specs.Commands.{Asked};
ghost use Rattle.mx_office.specs.Step.{step, steps};
ghost use Rattle.mx_office.specs.Isolation.{IsOf, cut, for_holder, local, told_to, view, view_of};

/// The law of isolation: to each holder the replies are those that the holder's purses give on the holder's view
/// alone.
///
/// The view of a holder is what happens to the holder: the holder's own commands, the purses that are issued to the
/// holder, the loads of the holder's purses, each with its reference and amount, the settlements of what the holder's
/// purses paid, and the messages that enter the inboxes of the holder's purses. It runs on what is cut out of the World
/// for the holder: what is the holder's own of each of the holder's purses. This holds of every World and of every list
/// of commands, whoever asks:
///
/// - `accounts`: after a command, what is cut out for a holder is what the view of that command makes of what was cut
///   out before it.
/// - `answer`: the reply to a command, where it is given to the holder, is the one that the view of that command
///   gives.
/// - `run_accounts` and `run_answers`: the same of the commands of a list, in order.
/// - `own`: all that a holder sees of a command is of purses that are the holder's own, or the holder's command.
/// - `alike`: where the same is cut out of two Worlds for a holder, and two lists of commands look the same to the
///   holder, the holder is told the same. So nothing else tells the holder anything.
///
/// The call does nothing.
pub fn isolation()
    ensures accounts { (w : World) (h : Name) (caller : Caller) (command : Command)
        → cut (step w caller command).world h ≡ (local (cut w h) (view_of w h caller command)).end }
    ensures answer { (w : World) (h : Name) (caller : Caller) (command : Command)
        → for_holder h caller (step w caller command).reply ≡
        (local (cut w h) (view_of w h caller command)).replies }
    ensures run_accounts { (w : World) (h : Name) (list : List Asked)
        → cut (steps w list).end h ≡ (local (cut w h) (view h w list)).end }
    ensures run_answers { (w : World) (h : Name) (list : List Asked)
        → told_to h (steps w list).replies ≡ (local (cut w h) (view h w list)).replies }
    ensures own { (w : World) (h : Name) (caller : Caller) (command : Command)
        → AllByRecursion (IsOf (step w caller command).world h) (view_of w h caller command) }
    ensures alike { (h : Name) (v w : World) (list others : List Asked) → cut v h ≡ cut w h
        → view h v list ≡ view h w others
        → told_to h (steps v list).replies ≡ told_to h (steps w others).replies }
{}
