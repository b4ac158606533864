//! Why the load list refuses a command.
ghost use Rattle.std.specs.Prelude.{◌≡◌, IfOk};
ghost use Rattle.plain_model.specs.declared.limit.TheConstants.{MAX_REPOSITORIES};

use plain_model::{Fault, Items, MAX_REPOSITORIES, NoMemory};
use std::alloc::Global;

/// No repository has the name.
pub fn not_there(alloc: Global, name: &[u8]) -> Result<Fault, NoMemory>
    ensures { IfOk result (λ fault. fault ≡ Fault.NoSuchRepo name.now) }
{
    let name = Items::of(alloc, name)?;
    Ok(Fault::NoSuchRepo { name })
}

/// A repository has the name already.
pub fn taken(alloc: Global, name: &[u8]) -> Result<Fault, NoMemory>
    ensures { IfOk result (λ fault. fault ≡ Fault.RepoTaken name.now) }
{
    let name = Items::of(alloc, name)?;
    Ok(Fault::RepoTaken { name })
}

/// There is no room for one more.
pub fn too_many() -> Fault
    ensures { result ≡ Fault.TooManyRepos MAX_REPOSITORIES }
{
    Fault::TooManyRepos {
        limit: MAX_REPOSITORIES,
    }
}
