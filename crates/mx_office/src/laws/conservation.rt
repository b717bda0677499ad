//! The laws of conservation.
ghost use Rattle.std.specs.Prelude.{◌≡◌, ℕ};
ghost use Rattle.mx_book.specs.World.{Name, World};
ghost use Rattle.mx_book.specs.declared.values.Caller.{Caller};
ghost use Rattle.mx_office.specs.Conservation.{AcceptsAuthentic, AccountsAllValue, CreatesNoValue, HasRoom, IsConserved, IsNeverFull, PaysCovered};
ghost use Rattle.mx_office.specs.Reachable.{IsReachable};
ghost use Rattle.mx_office.specs.Step.{step};
ghost use Rattle.mx_command.specs.declared.values.Command.{Command};

/// Conservation: in every World that commands lead to, no value is made and none is gone.
///
/// - `conserved`: what purses hold, what is under way, what is lost and what was redeemed is what was issued.
/// - `room`: where a purse waits for a value that lies in its inbox, the value fits into its balance.
/// - `never_full`: no command is refused because a purse or a float is full.
///
/// The call does nothing.
pub fn conservation()
    ensures conserved { (w : World) → IsReachable w → IsConserved w }
    ensures room { (w : World) → IsReachable w → HasRoom w }
    ensures never_full { (w : World) (caller : Caller) (command : Command) → IsReachable w
        → IsNeverFull (step w caller command).reply }
{}

/// The security properties of the purses, for one command of any caller in a World that commands lead to.
///
/// - `no_value_created`: what purses hold and what is under way doesn't rise, but by a load and a settlement.
/// - `all_value_accounted`: with what is lost it stays, but by a load and a redemption. So by a settlement it rises by no
///   more than what is lost falls.
/// - `authentic`: where a purse accepts a value, the purse that pays is there and has paid it.
/// - `sufficient_funds`: where a purse accepts a request, its balance covered the value.
///
/// The call does nothing.
pub fn security()
    ensures no_value_created { (w : World) (caller : Caller) (command : Command) → IsReachable w
        → CreatesNoValue w caller command }
    ensures all_value_accounted { (w : World) (caller : Caller) (command : Command) → IsReachable w
        → AccountsAllValue w caller command }
    ensures authentic { (w : World) (h p : Name) (n : ℕ) → IsReachable w
        → AcceptsAuthentic w h p n }
    ensures sufficient_funds { (w : World) (h p : Name) (n : ℕ) → IsReachable w
        → PaysCovered w h p n }
{}
