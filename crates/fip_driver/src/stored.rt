// Storing a file before the text of a command goes out.
ghost use Rattle.std.specs.Prelude.{◌≡◌, IfOk, IfErr};
ghost use Rattle.fip_driver.specs.Fetched.{StoreFails, StoreKeeps};
ghost use Rattle.fip_driver.specs.Outcome.{IsBeforeSource};

use command_answers::source::Compiled;
use command_outcome::{Failure, Object};
use fip_outside::outside::{Folder, StoreError};

/// Stores a file under a name, and gives the text that is printed. A fault of the folder where it failed.
pub fn store<F: Folder>(folder: &mut F, name: &str, compiled: Compiled) -> Result<Vec<u8>, Failure>
    ensures reported { IfOk result (λ v. v.items ≡ compiled.text.items) }
    ensures fails { IfErr result (StoreFails (F.faults folder.old) (F.faults folder.new)) }
    ensures kept { StoreKeeps name.now compiled.file.items (F.files folder.old) (F.files folder.new) result }
    ensures understood { IsBeforeSource result → ⊥ }
{
    match folder.store(name, compiled.file.as_slice()) {
        Ok(()) => Ok(compiled.text),
        Err(StoreError::Failed) => Err(Failure::Fault(Object::Folder)),
        Err(StoreError::NoMemory) => Err(Failure::NoMemory),
    }
}
