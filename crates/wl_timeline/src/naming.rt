//! How a manager is named in a picture.

use crate::escaping::escape;
use crate::manager::Manager;
use std::alloc::Global;
use wl_types::Memory;

/// The origin of a manager, and its bucket where that is not the default one.
pub(crate) fn manager_name(alloc: Global, manager: &Manager) -> Result<String, Memory> {
    let mut name = manager.key.origin.text(alloc)?;
    if !manager.key.bucket.is_default() {
        name.push_str(" ")?;
        name.push_str(manager.key.bucket.as_str())?;
    }
    Ok(name)
}

/// The same, escaped.
pub(crate) fn manager_text(alloc: Global, manager: &Manager) -> Result<String, Memory> {
    let name = manager_name(alloc, manager)?;
    escape(alloc, name.as_str())
}
