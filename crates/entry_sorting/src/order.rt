// Whether entries that are sorted by attribute have different attributes.
ghost use Rattle.std.specs.Prelude.{◌≡◌};
ghost use Rattle.entry_sorting.specs.Order.{ascending};

// Whether the attributes of the entries rise from each entry to the next.
pub fn rises(entries: &[u32]) -> bool
    ensures { result ≡ ascending entries.now }
{
    entries.is_sorted_by(|e, next| *e / 256 < *next / 256)
}
