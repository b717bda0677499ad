//! The law of a roll's rows: they stay.
ghost use Rattle.std.specs.Prelude.{◌≡◌, ◌≤◌, ◌+◌, List, []};
ghost use Rattle.std.specs.List.{AllByRecursion};
ghost use Rattle.mx_book.specs.World.{World};
ghost use Rattle.mx_book.specs.declared.values.Caller.{Caller};
ghost use Rattle.mx_command.specs.Commands.{Asked};
ghost use Rattle.mx_office.specs.Step.{step};
ghost use Rattle.mx_command.specs.declared.values.Command.{Command};
ghost use Rattle.mx_report.specs.declared.roll_rows.RollRow.{RollRow};
ghost use Rattle.mx_report.specs.declared.rolls.RowOutcome.TheVariants.{Added};
ghost use Rattle.mx_report.specs.Roll.{Fields};
ghost use Rattle.mx_report.specs.Import.{IsSame, import, import_again, row_imported, rows_standing};

/// What a roll says stays said, so that it may come twice.
///
/// - `kept`: a row that is same in a World is same after each command of each caller.
/// - `again`: a row that was added is same afterwards.
/// - `stand`: each row that an import added or found the same is same in its end World.
/// - `twice`: an import that comes again, after whatever commands, finds the same at least as many rows as the first one
///   added or found the same.
/// - `nothing`: where the first import refused no row, the second adds none.
///
/// A row that was refused may be added the second time, as a purse that stood in the roll before its holder.
///
/// The call does nothing.
pub fn rows_stay()
    ensures kept { (w : World) (caller : Caller) (command : Command) (row : RollRow) → IsSame w row
        → IsSame (step w caller command).world row }
    ensures again { (w : World) (row : RollRow) → (row_imported w row).outcome ≡ Added
        → IsSame (row_imported w row).world row }
    ensures stand { (w : World) (records : List Fields)
        → AllByRecursion (IsSame (import w records).world) (rows_standing w records) }
    ensures twice { (w : World) (records : List Fields) (commands : List Asked)
        → (import w records).tally.added + (import w records).tally.same ≤
        (import_again w records commands).tally.same }
    ensures nothing { (w : World) (records : List Fields) (commands : List Asked)
        → (import w records).tally.refused ≡ []
        → (import_again w records commands).tally.added ≡ 0 }
{}
