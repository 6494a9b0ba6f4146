// The tables that settling and auditing fill.
ghost use Rattle.std.specs.Prelude.{◌≡◌, All, IfOk, pos, vec_len};

use std::alloc::{AllocError, Global};

// Sixteen people have so many sets.
const SETS: usize = 1 << 16;

// Sums and counts with an entry for each set of sixteen people: two lists, as they are lent to what fills them.
#[derive(Drop)]
pub(crate) struct Tables {
    pub(crate) sums: Vec<i64>,
    pub(crate) counts: Vec<u8>,
    ghost all_sums: { vec_len sums ≡ 65536 },
    ghost all_counts: { vec_len counts ≡ 65536 },
}

impl Tables {
    // Tables of zeros; the error is want of memory.
    pub(crate) fn new(heap: Global) -> Result<Tables, AllocError>
        ensures { IfOk result (λ t. All (λ n. n ≡ pos 0) t.sums.items × All (λ n. n ≡ 0) t.counts.items) }
    {
        let sums = vec![in heap; 0; SETS]?;
        let counts = vec![in heap; 0; SETS]?;
        Ok(Tables { sums, counts })
    }
}
