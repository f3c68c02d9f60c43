// How many rows have their place in so many bytes.
ghost use Rattle.std.specs.Prelude.{◌↔◌, ℕ, ◌+◌, ◌*◌, ◌≤◌, ◌<◌};
ghost use Rattle.rows.specs.Formats.{format_of};
ghost use Rattle.strategy.specs.Inner.Drafts.{MostNodes};

use rows::fit::shorter;
use rows::{Format, most_nodes, width};

// The most rows of a sheet of `bytes` bytes, 0 if there is no such sheet.
fn rows_that_fit(f: Format, bytes: usize) -> usize
    ensures { (k : ℕ) → 0 < k → (k ≤ result) ↔ (2 * (format_of f).width + (1 + (format_of f).width) * k ≤ bytes) }
{
    let w = width(f);
    if bytes < 2 * w {
        return 0;
    }
    (bytes - 2 * w) / (1 + w)
}

// The most nodes of a sheet of `v` variables that fits `bytes` bytes, 0 if it has room for none.
pub fn nodes_that_fit(f: Format, v: usize, bytes: usize) -> usize
    ensures { MostNodes (format_of f) bytes v result × (result ≤ 8192) }
{
    let rows = rows_that_fit(f, bytes);
    if rows < v {
        return 0;
    }
    shorter(most_nodes(f), rows - v)
}
