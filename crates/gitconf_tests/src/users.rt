//! Tables of users.

use gitconf_text::NoMemory;
use gitconf_values::Homes;
use std::alloc::Global;

/// Puts a user with a directory in.
pub fn put(alloc: Global, homes: &mut Homes, user: &str, folder: &str) -> Result<(), NoMemory> {
    let user = String::from_str(alloc, user)?;
    let folder = String::from_str(alloc, folder)?;
    homes.insert(user, folder)
}

/// These users, each with a directory.
pub fn homes(alloc: Global, users: &[(&str, &str)]) -> Result<Homes, NoMemory> {
    let mut homes = Homes::new(alloc);
    for (user, folder) in users {
        put(alloc, &mut homes, user, folder)?;
    }
    Ok(homes)
}
