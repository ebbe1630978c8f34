//! Picking one of several by a word.

ghost use Rattle.std.specs.Prelude.{◌≡◌, ◌<◌, length, IfSome};
ghost use Rattle.bhs_deliveries.specs.Pool.{picked};

/// The place of the pool that a word picks: the word modulo the number of those in the pool. An empty pool
/// has none.
pub fn pick<T>(pool: &[T], word: u32) -> Option<usize>
    ensures place { result ≡ picked pool.now word }
    ensures within { IfSome result (λ place. place < length pool.now) }
{
    if pool.is_empty() {
        return None;
    }
    Some(word as usize % pool.len())
}
