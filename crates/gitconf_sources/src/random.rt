//! Numbers that nobody else can know.

use std::random::RandomSource;

/// A number of 64 bits that the system draws, to seed a file's lookups. It is `None` if the system gives none, as in a
/// process that is not allowed to ask. Nothing is promised of the number.
pub fn seed<R: RandomSource>(runtime: &R) -> Option<u64> {
    let mut bytes = [0; 8];
    match runtime.fill_bytes(&mut bytes) {
        Ok(()) => Some(u64::from_le_bytes(bytes)),
        Err(_) => None,
    }
}
