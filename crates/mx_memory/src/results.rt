//! The results of read log in the tray, and their way into the archive.
ghost use Rattle.std.specs.Prelude.{◌≡◌, ℕ, ◌+◌, ◌≤◌, ◌&&◌, ◌||◌, not};
ghost use Rattle.std.specs.FinMap.{contains_key, retain_keys};
ghost use Rattle.mx_pay.specs.Details.{Details};
ghost use Rattle.mx_pay.specs.Limits.{most_entries};
ghost use Rattle.mx_pay.specs.Log.{has_logged};
ghost use Rattle.mx_pay.specs.Names.{is_name};
ghost use Rattle.mx_book.specs.World.{Name as NameOf, result_cmp};
ghost use Rattle.mx_sorted.specs.Slots.{map_of};

use mx_pay::{Log, Name, PayDetails};
use mx_sorted::Table;

/// Those of a log's entries that lie in the tray of a purse.
pub(crate) fn laid(tray: &Table<(Name, PayDetails), ()>, purse: Name, log: &Log) -> Log
    ensures { result ≡ retain_keys log.now (λ d. contains_key (map_of result_cmp tray.now)
        (purse, d)) }
{
    let mut results = Log::new();
    for place in 0..log.len() {
        if let Some(details) = log.at(place) {
            if tray.get((purse, details)).is_some() {
                results.add(details);
            }
        }
    }
    results
}

/// Moves these results of a purse from the tray to the archive.
pub(crate) fn archive(
    tray: &mut Table<(Name, PayDetails), ()>,
    archive: &mut Table<(Name, PayDetails), ()>,
    purse: Name,
    results: &Log,
)
    requires { most_entries ≤ archive.old.room }
    ensures tray { (k : NameOf × Details) → contains_key (map_of result_cmp tray.new) k
        ≡ (contains_key (map_of result_cmp tray.old) k && not
        (is_name purse k.0 && has_logged results.now k.1)) }
    ensures archive { (k : NameOf × Details) → contains_key (map_of result_cmp archive.new) k
        ≡ (contains_key (map_of result_cmp archive.old) k ||
        (is_name purse k.0 && has_logged results.now k.1)) }
    ensures tray_room { tray.old.room ≤ tray.new.room }
    ensures archive_room { archive.old.room ≤ archive.new.room + most_entries }
{
    for place in 0..results.len() {
        if let Some(details) = results.at(place) {
            tray.remove((purse, details));
            archive.put((purse, details), ());
        }
    }
}
