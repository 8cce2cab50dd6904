// What is asked of the entries of a patch table.
ghost use Rattle.std.specs.Prelude.{◌≡◌, nat_le};
ghost use Rattle.patch.specs.Tables.{any_high, any_alike};

fn too_high(entry: u8) -> bool
    ensures { result ≡ nat_le 8 entry }
{
    entry >= 8
}

// Whether an entry is 8 or more.
pub(crate) fn any_high(entries: &[u8]) -> bool
    ensures { result ≡ any_high entries.now }
{
    entries.iter().any(|&entry| too_high(entry))
}

// Whether two entries are alike.
pub(crate) fn any_alike(entries: &[u8]) -> bool
    ensures { result ≡ any_alike entries.now }
{
    match entries {
        [first, rest @ ..] => rest.contains(first) || any_alike(rest),
        [] => false,
    }
}
