//! Numbers of lines, upwards and each once.

ghost use Rattle.std.specs.Prelude.{◌≡◌};
ghost use Rattle.net_opening.specs.Touched.{upwards};

/// The numbers of the list, upwards and each once.
pub fn upwards(lines: Vec<u64>) -> Vec<u64>
    ensures { result.items ≡ upwards lines.items }
{
    let mut lines = lines;
    lines.sort_unstable();
    lines.dedup();
    lines
}
