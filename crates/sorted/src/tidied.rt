// Records put in order in place, each once.
ghost use Rattle.std.specs.Prelude.{◌≡◌, ◌≤◌, IsTrue, length, take};
ghost use Rattle.std.specs.List.{Any, Contains, dedup};
ghost use Rattle.std.specs.List.Sorted.{IsStrictlySortedBy};

// Of neighbours that are equal the first alone is kept. Those that are kept go to the front; how many they are.
fn drop_repeats<T: Eq + Copy>(records: &mut [T]) -> usize
    ensures within { result ≤ length records.old }
    ensures length { length records.new ≡ length records.old }
    ensures front { take result records.new ≡ dedup T.eq records.old }
{
    let mut kept = 0;
    for k in 0..records.len() {
        let record = records[k];
        if kept == 0 || record != records[kept - 1] {
            records[kept] = record;
            kept += 1;
        }
    }
    kept
}

/// Puts the records in order, each once, at the front, and tells how many they are. What stands behind them is left open.
pub fn tidy<T: Ord + Copy>(records: &mut [T]) -> usize
    ensures within { result ≤ length records.old }
    ensures length { length records.new ≡ length records.old }
    ensures rises { IsStrictlySortedBy T.cmp (take result records.new) }
    ensures keeps { let kept = take result records.new in
        (x : T) → Contains records.old x → Any (λ y. IsTrue (T.eq x y)) kept }
    ensures adds_none { let kept = take result records.new in
        (x : T) → Contains kept x → Contains records.old x }
{
    records.sort_unstable();
    drop_repeats(records)
}
