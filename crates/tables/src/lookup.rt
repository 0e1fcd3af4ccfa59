// What a list of entries says of a place.
ghost use Rattle.std.specs.Prelude.{◌≡◌};
ghost use Rattle.tables.specs.Entries.{first};

use systems::Entry;

// The earliest entry that fits decides.
pub(crate) fn first<P: Copy + PartialEq, V: Copy>(entries: &[Entry<P, V>], at: P) -> Option<V>
    ensures { result ≡ first P.eq entries.now at }
{
    for e in entries {
        if e.at == at {
            return Some(e.value);
        }
    }
    None
}
